//! The words of a log's lines: numbers, kinds and bytes.

ghost use Rattle.std.specs.Prelude.{◌≡◌, ◌≤◌, IfOk, IfSome, map};
ghost use Rattle.rcce_audit.specs.Words.{exact_hex_said, is_lower, kind_said, exact_number_said, exact_range_said, log_words_of};

use scc_base::Kind;
use std::alloc::{AllocError, Global};
use texts::{Bytes, number, parts};

/// The words of a line.
pub fn words(alloc: Global, line: &[u8]) -> Result<Vec<&[u8]>, AllocError>
    ensures { IfOk result (λ v. map (λ word. word.now) v.items ≡ log_words_of line.now) }
{
    parts(alloc, line, b' ')
}

/// The number that a word spells: its decimal digits without leading zeros.
pub(crate) fn number_said(word: &[u8]) -> Option<u32>
    ensures { result ≡ exact_number_said word.now }
{
    match number(word) {
        Some(value) => {
            let mut spelled = itoa::Buffer::new();
            if spelled.format(value).as_bytes() == word {
                Some(value)
            } else {
                None
            }
        }
        None => None,
    }
}

/// A number from a range.
pub fn range_said(word: &[u8], low: u32, high: u32) -> Option<u32>
    ensures gives { result ≡ exact_range_said low high word.now }
    ensures least { IfSome result (λ n. low ≤ n) }
    ensures most { IfSome result (λ n. n ≤ high) }
{
    match number_said(word) {
        Some(n) if low <= n && n <= high => Some(n),
        _ => None,
    }
}

/// A kind of message, by its name.
pub(crate) fn kind_said(word: &[u8]) -> Option<Kind>
    ensures { result ≡ kind_said word.now }
{
    if word == b"plain".as_slice() {
        Some(Kind::Plain)
    } else if word == b"bcast".as_slice() {
        Some(Kind::Bcast)
    } else if word == b"reduce".as_slice() {
        Some(Kind::Reduce)
    } else if word == b"allup".as_slice() {
        Some(Kind::AllUp)
    } else if word == b"alldown".as_slice() {
        Some(Kind::AllDown)
    } else {
        None
    }
}

/// Whether no capital letter stands in a word.
pub fn is_lower(word: &[u8]) -> bool
    ensures { result ≡ is_lower word.now }
{
    word.iter().all(|b| *b <= b'9' || b'a' <= *b)
}

/// Bytes: none for `-`, else two hex digits each, in lower case.
pub(crate) fn hex_said(alloc: Global, word: &[u8]) -> Result<Option<Bytes>, AllocError>
    ensures { IfOk result (λ said. said ≡ exact_hex_said word.now) }
{
    if word.is_empty() || !is_lower(word) {
        return Ok(None);
    }
    Bytes::from_hex(alloc, word)
}
