//! Statements that name registers or another rank, by their words.

ghost use Rattle.std.specs.Prelude.{◌≡◌, [], ◌∷◌, map};
ghost use Rattle.script_reader.specs.Faults.{LineGives};
ghost use Rattle.script_reader.specs.Said.{post_words, send_words, hex_print_said, typed_print_said, values_named, recv_words, apply_words, fill_words, apply_said, bytes_said, fill_said, numbers_said, post_said, print_said, rank_of_said, recv_said, send_said};

use crate::fault::LineStop;
use crate::said::{Local, Message, Said};
use crate::words::{
    hex_said, name_said, number_said, operation_said, peer_said, range_said, type_said, values_said,
};
use groups::Ty;
use script_rules::{FaultKind, Form};
use std::alloc::Global;

fn bytes_words(alloc: Global, name: &[u8], hex: &[u8]) -> Result<Local, LineStop>
    ensures { LineGives (λ said. said) result (bytes_said (name.now ∷ hex.now ∷ [])) }
{
    let bytes = hex_said(alloc, hex)?;
    let name = name_said(name)?;
    Ok(Local::Bytes { name, bytes })
}

pub(crate) fn bytes_said(alloc: Global, words: &[&[u8]]) -> Result<Local, LineStop>
    ensures { LineGives (λ said. said) result (bytes_said (map (λ word. word.now) words.now)) }
{
    match words {
        [name, hex] => bytes_words(alloc, name, hex),
        _ => Err(LineStop::Kind(FaultKind::WrongCount)),
    }
}

fn values_named(alloc: Global, ty: Ty, name: &[u8], values: &[&[u8]]) -> Result<Local, LineStop>
    ensures { LineGives (λ said. said) result (values_named ty name.now (map (λ word. word.now) values.now)) }
{
    let bytes = values_said(alloc, ty, values)?;
    let name = name_said(name)?;
    Ok(Local::Bytes { name, bytes })
}

pub(crate) fn numbers_said(alloc: Global, ty: Ty, words: &[&[u8]]) -> Result<Local, LineStop>
    ensures { LineGives (λ said. said) result (numbers_said ty (map (λ word. word.now) words.now)) }
{
    match words {
        [] => Err(LineStop::Kind(FaultKind::WrongCount)),
        [name, values @ ..] => {
            if values.is_empty() {
                return Err(LineStop::Kind(FaultKind::WrongCount));
            }
            values_named(alloc, ty, name, values)
        }
    }
}

fn fill_words(name: &[u8], len: &[u8], start: &[u8]) -> Result<Local, FaultKind>
    ensures { result ≡ fill_words name.now len.now start.now }
{
    let len = number_said(len)?;
    let start = range_said(start, 0, 65_535)?;
    let name = name_said(name)?;
    Ok(Local::Fill { name, len, start })
}

pub(crate) fn fill_said(words: &[&[u8]]) -> Result<Local, FaultKind>
    ensures { result ≡ fill_said (map (λ word. word.now) words.now) }
{
    match words {
        [name, len, start] => fill_words(name, len, start),
        _ => Err(FaultKind::WrongCount),
    }
}

fn rank_of_words(name: &[u8], ty: &[u8]) -> Result<Local, FaultKind>
    ensures { result ≡ rank_of_said (name.now ∷ ty.now ∷ []) }
{
    let ty = type_said(ty)?;
    let name = name_said(name)?;
    Ok(Local::RankOf { name, ty })
}

pub(crate) fn rank_of_said(words: &[&[u8]]) -> Result<Local, FaultKind>
    ensures { result ≡ rank_of_said (map (λ word. word.now) words.now) }
{
    match words {
        [name, ty] => rank_of_words(name, ty),
        _ => Err(FaultKind::WrongCount),
    }
}

fn apply_words(op: &[u8], ty: &[u8], dst: &[u8], src: &[u8]) -> Result<Local, FaultKind>
    ensures { result ≡ apply_words op.now ty.now dst.now src.now }
{
    let op = operation_said(op)?;
    let ty = type_said(ty)?;
    let dst = name_said(dst)?;
    let src = name_said(src)?;
    Ok(Local::Apply { op, ty, dst, src })
}

pub(crate) fn apply_said(words: &[&[u8]]) -> Result<Local, FaultKind>
    ensures { result ≡ apply_said (map (λ word. word.now) words.now) }
{
    match words {
        [op, ty, dst, src] => apply_words(op, ty, dst, src),
        _ => Err(FaultKind::WrongCount),
    }
}

fn hex_print_said(name: &[u8]) -> Result<Local, FaultKind>
    ensures { result ≡ hex_print_said name.now }
{
    let name = name_said(name)?;
    let form = Form::Hex;
    Ok(Local::Print { name, form })
}

fn typed_print_said(ty: &[u8], name: &[u8]) -> Result<Local, FaultKind>
    ensures { result ≡ typed_print_said ty.now name.now }
{
    let ty = type_said(ty)?;
    let name = name_said(name)?;
    let form = Form::Decimal(ty);
    Ok(Local::Print { name, form })
}

pub(crate) fn print_said(words: &[&[u8]]) -> Result<Local, FaultKind>
    ensures { result ≡ print_said (map (λ word. word.now) words.now) }
{
    match words {
        [name] => hex_print_said(name),
        [ty, name] => typed_print_said(ty, name),
        _ => Err(FaultKind::WrongCount),
    }
}

fn send_words(peer: &[u8], name: &[u8]) -> Result<Said, FaultKind>
    ensures { result ≡ send_words peer.now name.now }
{
    let peer = peer_said(peer)?;
    let name = name_said(name)?;
    Ok(Said::Message(Message::Send { peer, name }))
}

pub(crate) fn send_said(words: &[&[u8]]) -> Result<Said, FaultKind>
    ensures { result ≡ send_said (map (λ word. word.now) words.now) }
{
    match words {
        [peer, name] => send_words(peer, name),
        _ => Err(FaultKind::WrongCount),
    }
}

fn post_words(peer: &[u8], name: &[u8]) -> Result<Said, FaultKind>
    ensures { result ≡ post_words peer.now name.now }
{
    let peer = peer_said(peer)?;
    let name = name_said(name)?;
    Ok(Said::Message(Message::Post { peer, name }))
}

pub(crate) fn post_said(words: &[&[u8]]) -> Result<Said, FaultKind>
    ensures { result ≡ post_said (map (λ word. word.now) words.now) }
{
    match words {
        [peer, name] => post_words(peer, name),
        _ => Err(FaultKind::WrongCount),
    }
}

fn recv_words(peer: &[u8], name: &[u8], len: &[u8]) -> Result<Said, FaultKind>
    ensures { result ≡ recv_words peer.now name.now len.now }
{
    let peer = peer_said(peer)?;
    let len = number_said(len)?;
    let name = name_said(name)?;
    Ok(Said::Message(Message::Recv { peer, name, len }))
}

pub(crate) fn recv_said(words: &[&[u8]]) -> Result<Said, FaultKind>
    ensures { result ≡ recv_said (map (λ word. word.now) words.now) }
{
    match words {
        [peer, name, len] => recv_words(peer, name, len),
        _ => Err(FaultKind::WrongCount),
    }
}
