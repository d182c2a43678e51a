//! What a line means by its words alone.

ghost use Rattle.std.specs.Prelude.{◌≡◌, map};
ghost use Rattle.script_reader.specs.Faults.{LineGives};
ghost use Rattle.script_reader.specs.Said.{ranks_said, one_word_said, group_said, local_said, local_word, rcce_said, register_said, repeat_said, said_of, section_said, span_said, ue_said};

use crate::fault::LineStop;
use crate::said_groups::{allreduce_said, barrier_said, bcast_said, reduce_said, split_said};
use crate::said_locals::{
    apply_said, bytes_said, fill_said, numbers_said, post_said, print_said, rank_of_said,
    recv_said, send_said,
};
use crate::words::{Parts, is_word, number_said, range_said};
use groups::{Op, Ty};
use script_rules::{FaultKind, Form, MOST_OPERATIONS, Name, Version};
use std::alloc::Global;
use texts::{Bytes, place_or_end};

/// What a line means, before it is checked against the lines before it.
#[derive(Drop)]
pub(crate) enum Said {
    /// The version of the language.
    Version,
    Section(Section),
    Local(Local),
    Message(Message),
    Collective(Collective),
    Repeat { times: u32 },
    End,
}

/// The ranks of a section line.
#[derive(Drop)]
pub(crate) enum Section {
    All,
    Even,
    Odd,
    Span { first: u32, last: u32 },
}

/// A local statement.
#[derive(Drop)]
pub(crate) enum Local {
    Bytes {
        name: Name,
        bytes: Bytes,
    },
    Fill {
        name: Name,
        len: u32,
        start: u32,
    },
    RankOf {
        name: Name,
        ty: Ty,
    },
    Apply {
        op: Op,
        ty: Ty,
        dst: Name,
        src: Name,
    },
    Print {
        name: Name,
        form: Form,
    },
}

/// The first word of a local statement.
#[derive(Clone, Copy)]
pub(crate) enum LocalWord {
    Bytes,
    Ints,
    Longs,
    Fill,
    Rank,
    Apply,
    Print,
}

/// The other rank of a message: a rank, or a distance from the caller.
#[derive(Clone, Copy)]
pub(crate) enum PeerSaid {
    Abs(u32),
    Plus(u32),
    Minus(u32),
}

/// A send, a post or a receive.
#[derive(Drop)]
pub(crate) enum Message {
    Send {
        peer: PeerSaid,
        name: Name,
    },
    Post {
        peer: PeerSaid,
        name: Name,
    },
    Recv {
        peer: PeerSaid,
        name: Name,
        len: u32,
    },
}

/// Which places a split keeps together: those with equal remainders, or those with equal quotients.
#[derive(Clone, Copy)]
pub(crate) enum Colour {
    Mod,
    Div,
}

/// A statement on a communicator.
#[derive(Drop)]
pub(crate) enum Collective {
    Barrier {
        comm: u32,
    },
    Split {
        comm: u32,
        parent: u32,
        colour: Colour,
        parts: Parts,
    },
    Bcast {
        comm: u32,
        root: u32,
        name: Name,
        len: u32,
    },
    Reduce {
        comm: u32,
        root: u32,
        op: Op,
        ty: Ty,
        dst: Name,
        src: Name,
    },
    Allreduce {
        comm: u32,
        op: Op,
        ty: Ty,
        dst: Name,
        src: Name,
    },
}

/// A line of one word.
fn alone(said: Said, words: &[&[u8]]) -> Result<Said, FaultKind>
    ensures { result ≡ one_word_said said (map (λ word. word.now) words.now) }
{
    match words {
        [] => Ok(said),
        _ => Err(FaultKind::WrongCount),
    }
}

fn span_said(first: &[u8], last: &[u8]) -> Result<Said, FaultKind>
    ensures { result ≡ span_said first.now last.now }
{
    let first = number_said(first)?;
    let last = number_said(last)?;
    Ok(Said::Section(Section::Span { first, last }))
}

fn ranks_said(word: &[u8]) -> Result<Said, FaultKind>
    ensures { result ≡ ranks_said word.now }
{
    let dash = place_or_end(word, b'-');
    if dash >= word.len() {
        return span_said(word, word);
    }
    span_said(&word[..dash], &word[dash + 1..])
}

fn ue_said(words: &[&[u8]]) -> Result<Said, FaultKind>
    ensures { result ≡ ue_said (map (λ word. word.now) words.now) }
{
    match words {
        [ranks] => ranks_said(ranks),
        _ => Err(FaultKind::WrongCount),
    }
}

fn repeat_said(words: &[&[u8]]) -> Result<Said, FaultKind>
    ensures { result ≡ repeat_said (map (λ word. word.now) words.now) }
{
    match words {
        [times] => {
            let times = range_said(times, 1, MOST_OPERATIONS as u32)?;
            Ok(Said::Repeat { times })
        }
        _ => Err(FaultKind::WrongCount),
    }
}

fn rcce_said(version: Version, words: &[&[u8]]) -> Result<Said, FaultKind>
    ensures { result ≡ rcce_said version (map (λ word. word.now) words.now) }
{
    match words {
        [number] => {
            range_said(number, version.number(), version.number())?;
            Ok(Said::Version)
        }
        _ => Err(FaultKind::WrongCount),
    }
}

fn section_said(first: &[u8], words: &[&[u8]]) -> Result<Said, FaultKind>
    ensures { result ≡ section_said first.now (map (λ word. word.now) words.now) }
{
    if is_word(first, b"all") {
        alone(Said::Section(Section::All), words)
    } else if is_word(first, b"even") {
        alone(Said::Section(Section::Even), words)
    } else if is_word(first, b"odd") {
        alone(Said::Section(Section::Odd), words)
    } else if is_word(first, b"ue") {
        ue_said(words)
    } else if is_word(first, b"repeat") {
        repeat_said(words)
    } else if is_word(first, b"end") {
        alone(Said::End, words)
    } else {
        Err(FaultKind::UnknownStatement)
    }
}

fn group_said(version: Version, first: &[u8], words: &[&[u8]]) -> Result<Said, FaultKind>
    ensures { result ≡ group_said version first.now (map (λ word. word.now) words.now) }
{
    if is_word(first, b"barrier") {
        barrier_said(words)
    } else if is_word(first, b"split") {
        split_said(version, words)
    } else if is_word(first, b"bcast") {
        bcast_said(words)
    } else if is_word(first, b"reduce") {
        reduce_said(words)
    } else if is_word(first, b"allreduce") {
        allreduce_said(words)
    } else {
        section_said(first, words)
    }
}

/// The result for a line that needs no memory, as the result of a reading that can run out of memory.
fn widened(said: Result<Said, FaultKind>) -> Result<Said, LineStop>
    ensures { LineGives (λ said. said) result said }
{
    Ok(said?)
}

/// The local statement that a first word begins, if it begins one.
fn local_word(first: &[u8]) -> Option<LocalWord>
    ensures { result ≡ local_word first.now }
{
    if is_word(first, b"bytes") {
        Some(LocalWord::Bytes)
    } else if is_word(first, b"ints") {
        Some(LocalWord::Ints)
    } else if is_word(first, b"longs") {
        Some(LocalWord::Longs)
    } else if is_word(first, b"fill") {
        Some(LocalWord::Fill)
    } else if is_word(first, b"rank") {
        Some(LocalWord::Rank)
    } else if is_word(first, b"apply") {
        Some(LocalWord::Apply)
    } else if is_word(first, b"print") {
        Some(LocalWord::Print)
    } else {
        None
    }
}

/// The result for a local statement that needs no memory, as the result of a reading that can run out of memory.
fn widened_local(said: Result<Local, FaultKind>) -> Result<Local, LineStop>
    ensures { LineGives (λ said. said) result said }
{
    Ok(said?)
}

/// A local statement, by its first word.
fn local_said(alloc: Global, first: LocalWord, words: &[&[u8]]) -> Result<Local, LineStop>
    ensures { LineGives (λ said. said) result (local_said first (map (λ word. word.now) words.now)) }
{
    match first {
        LocalWord::Bytes => bytes_said(alloc, words),
        LocalWord::Ints => numbers_said(alloc, Ty::Int, words),
        LocalWord::Longs => numbers_said(alloc, Ty::Long, words),
        LocalWord::Fill => widened_local(fill_said(words)),
        LocalWord::Rank => widened_local(rank_of_said(words)),
        LocalWord::Apply => widened_local(apply_said(words)),
        LocalWord::Print => widened_local(print_said(words)),
    }
}

fn register_said(
    alloc: Global,
    version: Version,
    first: &[u8],
    words: &[&[u8]],
) -> Result<Said, LineStop>
    ensures { LineGives (λ said. said) result (register_said version first.now (map (λ word. word.now) words.now)) }
{
    match local_word(first) {
        Some(word) => Ok(Said::Local(local_said(alloc, word, words)?)),
        None => widened(group_said(version, first, words)),
    }
}

/// What a line means, by its first word and the words after it. `opening` is whether no line before it has words.
pub(crate) fn said_of(
    alloc: Global,
    version: Version,
    opening: bool,
    first: &[u8],
    words: &[&[u8]],
) -> Result<Said, LineStop>
    ensures { LineGives (λ said. said) result (said_of version opening first.now (map (λ word. word.now) words.now)) }
{
    if is_word(first, b"send") {
        widened(send_said(words))
    } else if is_word(first, b"post") {
        widened(post_said(words))
    } else if is_word(first, b"recv") {
        widened(recv_said(words))
    } else if opening && is_word(first, b"rcce") {
        widened(rcce_said(version, words))
    } else {
        register_said(alloc, version, first, words)
    }
}
