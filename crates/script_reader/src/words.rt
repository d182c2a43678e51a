//! Words: numbers, values, names and bytes.

ghost use Rattle.std.specs.Prelude.{◌≡◌, ◌+◌, ◌≤◌, map, IfOk, OnOk, [], ◌++◌};
ghost use Rattle.std.specs.List.{list_all};
ghost use Rattle.std.specs.Str.{bytes_eq};
ghost use Rattle.script_reader.specs.Faults.{LineGives};
ghost use Rattle.script_reader.specs.Said.{colour_said, hex_said, name_said, number_said, of_said, operation_said, peer_said, range_said, type_said, value_after, values_said};
ghost use Rattle.script_reader.specs.Words.{bytes_above, bytes_below, greatest, is_name, is_name_byte};

use crate::fault::LineStop;
use crate::said::{Colour, PeerSaid};
use groups::{Op, Ty};
use script_rules::{FaultKind, Name};
use std::alloc::{AllocError, Global};
use std::marker::Model;
use texts::{Bytes, decimal, number};

fn is_name_byte(b: u8) -> bool
    ensures { result ≡ is_name_byte b }
{
    b.is_ascii_alphabetic() || b.is_ascii_digit() || b == b'_'
}

/// A word as a number.
pub(crate) fn number_said(word: &[u8]) -> Result<u32, FaultKind>
    ensures { result ≡ number_said word.now }
{
    number(word).ok_or(FaultKind::BadNumber)
}

/// A word as a number within two bounds, both included.
pub(crate) fn range_said(word: &[u8], low: u32, high: u32) -> Result<u32, FaultKind>
    ensures gives { result ≡ range_said low high word.now }
    ensures least { IfOk result (λ number. low ≤ number) }
    ensures most { IfOk result (λ number. number ≤ high) }
{
    let number = number_said(word)?;
    if low <= number && number <= high {
        Ok(number)
    } else {
        Err(FaultKind::BadNumber)
    }
}

/// The K of `mod K` or `div K`, by which a split divides the groups of its parent: 1 to 48.
#[derive(Clone, Copy)]
pub(crate) struct Parts {
    count: u8,
}

impl Model for Parts {
    ghost use Rattle.std.specs.Prelude.{ℕ, ◌≤◌};

    ghost Value = { ℕ };

    ghost view = { λ p. p.count };

    ghost invariant = { λ p. (1 ≤ p.count) × (p.count ≤ 48) };

    ghost inverse = { λ n. record { count = n } };
}

impl Parts {
    ghost use Rattle.std.specs.Prelude.{◌≡◌, ◌≤◌};

    fn new(count: u8) -> Parts
        requires some { 1 ≤ count }
        requires most { count ≤ 48 }
        ensures { result ≡ count }
    {
        Parts { count }
    }

    pub(crate) fn count(self) -> u8
        ensures same { result ≡ self }
        ensures some { 1 ≤ result }
        ensures most { result ≤ 48 }
    {
        self.count
    }
}

/// A word as the K of a split.
pub(crate) fn parts_said(word: &[u8]) -> Result<Parts, FaultKind>
    ensures { result ≡ range_said 1 48 word.now }
{
    let count = range_said(word, 1, 48)?;
    Ok(Parts::new(count as u8))
}

/// Whether a word is this one.
pub(crate) fn is_word(word: &[u8], wanted: &[u8]) -> bool
    ensures { result ≡ bytes_eq word.now wanted.now }
{
    word == wanted
}

/// A word as a type.
pub(crate) fn type_said(word: &[u8]) -> Result<Ty, FaultKind>
    ensures { result ≡ type_said word.now }
{
    if is_word(word, b"int") {
        Ok(Ty::Int)
    } else if is_word(word, b"long") {
        Ok(Ty::Long)
    } else {
        Err(FaultKind::UnknownStatement)
    }
}

/// A word as the operator of a fold.
pub(crate) fn operation_said(word: &[u8]) -> Result<Op, FaultKind>
    ensures { result ≡ operation_said word.now }
{
    if is_word(word, b"sum") {
        Ok(Op::Sum)
    } else if is_word(word, b"min") {
        Ok(Op::Min)
    } else if is_word(word, b"max") {
        Ok(Op::Max)
    } else if is_word(word, b"prod") {
        Ok(Op::Prod)
    } else {
        Err(FaultKind::UnknownStatement)
    }
}

/// A word as the kind of a split, `mod` or `div`.
pub(crate) fn colour_said(word: &[u8]) -> Result<Colour, FaultKind>
    ensures { result ≡ colour_said word.now }
{
    if is_word(word, b"mod") {
        Ok(Colour::Mod)
    } else if is_word(word, b"div") {
        Ok(Colour::Div)
    } else {
        Err(FaultKind::UnknownStatement)
    }
}

/// The word `of`.
pub(crate) fn of_said(word: &[u8]) -> Result<bool, FaultKind>
    ensures { result ≡ of_said word.now }
{
    if is_word(word, b"of") {
        Ok(true)
    } else {
        Err(FaultKind::UnknownStatement)
    }
}

/// A word as the other rank of a message.
pub(crate) fn peer_said(word: &[u8]) -> Result<PeerSaid, FaultKind>
    ensures { result ≡ peer_said word.now }
{
    match word {
        [b'+', up @ ..] => Ok(PeerSaid::Plus(number_said(up)?)),
        [b'-', down @ ..] => Ok(PeerSaid::Minus(number_said(down)?)),
        _ => Ok(PeerSaid::Abs(number_said(word)?)),
    }
}

/// Appends the bytes of the value `size`.
fn push_above(bytes: &mut Vec<u8>, ty: Ty, size: u64) -> Result<(), AllocError>
    requires { size ≤ greatest ty }
    ensures { OnOk result (bytes.new.items ≡ bytes.old.items ++ bytes_above ty size) }
{
    match ty {
        Ty::Int => bytes.extend_from_slice(&(size as u32).to_le_bytes()),
        Ty::Long => bytes.extend_from_slice(&size.to_le_bytes()),
    }
}

/// Appends the bytes of the value minus `size`.
fn push_below(bytes: &mut Vec<u8>, ty: Ty, size: u64) -> Result<(), AllocError>
    requires { size ≤ greatest ty + 1 }
    ensures { OnOk result (bytes.new.items ≡ bytes.old.items ++ bytes_below ty size) }
{
    match ty {
        Ty::Int => bytes.extend_from_slice(&(size as u32).wrapping_neg().to_le_bytes()),
        Ty::Long => bytes.extend_from_slice(&size.wrapping_neg().to_le_bytes()),
    }
}

/// The greatest value of a type.
fn greatest(ty: Ty) -> u64
    ensures { result ≡ greatest ty }
{
    match ty {
        Ty::Int => 2_147_483_647,
        Ty::Long => 9_223_372_036_854_775_807,
    }
}

/// Appends the bytes of the value that a word states.
fn push_value(bytes: &mut Vec<u8>, ty: Ty, word: &[u8]) -> Result<(), LineStop>
    ensures { LineGives (λ _. bytes.new.items) result (value_after ty bytes.old.items word.now) }
{
    match word {
        [b'-', digits @ ..] => match decimal(digits, 20, greatest(ty) + 1) {
            Some(size) => Ok(push_below(bytes, ty, size)?),
            None => Err(LineStop::Kind(FaultKind::BadNumber)),
        },
        _ => match decimal(word, 20, greatest(ty)) {
            Some(size) => Ok(push_above(bytes, ty, size)?),
            None => Err(LineStop::Kind(FaultKind::BadNumber)),
        },
    }
}

/// Words as values of a type.
pub(crate) fn values_said(alloc: Global, ty: Ty, words: &[&[u8]]) -> Result<Bytes, LineStop>
    ensures { LineGives (λ bytes. bytes) result (values_said ty [] (map (λ word. word.now) words.now)) }
{
    let mut bytes = Vec::new(alloc);
    for word in words {
        push_value(&mut bytes, ty, word)?;
    }
    Ok(Bytes::from_vec(bytes))
}

fn are_name_bytes(word: &[u8]) -> bool
    ensures { result ≡ list_all is_name_byte word.now }
{
    word.iter().all(|b| is_name_byte(*b))
}

fn is_name(word: &[u8]) -> bool
    ensures { result ≡ is_name word.now }
{
    match word.len() {
        1..=16 => word[0].is_ascii_alphabetic() && are_name_bytes(word),
        _ => false,
    }
}

/// A word as the name of a register.
pub(crate) fn name_said(word: &[u8]) -> Result<Name, FaultKind>
    ensures { result ≡ name_said word.now }
{
    if !is_name(word) {
        return Err(FaultKind::BadName);
    }
    match str::from_utf8(word) {
        Ok(text) => Ok(Name::new(text)),
        Err(_) => unreachable!(),
    }
}

/// A word as bytes: none for `-`, otherwise one for each two hex digits.
pub(crate) fn hex_said(alloc: Global, word: &[u8]) -> Result<Bytes, LineStop>
    ensures { LineGives (λ bytes. bytes) result (hex_said word.now) }
{
    Bytes::from_hex(alloc, word)?.ok_or(LineStop::Kind(FaultKind::BadHex))
}
