//! The words of a trace's lines: values, places and layouts.

ghost use Rattle.std.specs.Prelude.{◌≡◌, ◌==◌, ◌∷◌, [], IfOk, map, slice_index};
ghost use Rattle.rcce_audit.specs.Words.{is_lower};
ghost use Rattle.trace_text.specs.Words.{dot_parts, is_comment, layout_said, comma_parts, place_said, register_place_said, hex_word_said};

use rcce_audit::words::{is_lower, range_said};
use scc_base::{CoreId, Layout, Place};
use std::alloc::{AllocError, Global};
use texts::parts;

/// What stands between the dots of a word.
pub(crate) fn dot_parts(alloc: Global, word: &[u8]) -> Result<Vec<&[u8]>, AllocError>
    ensures { IfOk result (λ v. map (λ part. part.now) v.items ≡ dot_parts word.now) }
{
    parts(alloc, word, b'.')
}

/// What stands between the commas of a word.
pub(crate) fn comma_parts(alloc: Global, word: &[u8]) -> Result<Vec<&[u8]>, AllocError>
    ensures { IfOk result (λ v. map (λ part. part.now) v.items ≡ comma_parts word.now) }
{
    parts(alloc, word, b',')
}

/// A value: 16 hex digits in lower case, the highest first.
pub(crate) fn hex_word_said(word: &[u8]) -> Option<u64>
    ensures { result ≡ hex_word_said word.now }
{
    if !is_lower(word) {
        return None;
    }
    let mut bytes = [0u8; 8];
    match hex::decode_to_slice(word, &mut bytes) {
        Ok(()) => Some(u64::from_be_bytes(bytes)),
        Err(_) => None,
    }
}

/// The place of a word, by its parts.
pub(crate) fn place_said(parts: &[&[u8]]) -> Option<Place>
    ensures { result ≡ place_said (map (λ part. part.now) parts.now) }
{
    match parts {
        [core, line, word] => place_of(core, line, word),
        _ => None,
    }
}

fn place_of(core: &[u8], line: &[u8], word: &[u8]) -> Option<Place>
    ensures { result ≡ place_said (core.now ∷ line.now ∷ word.now ∷ []) }
{
    let core = range_said(core, 0, 47)?;
    let line = range_said(line, 0, 255)?;
    let word = range_said(word, 0, 3)?;
    Some(Place::new(CoreId::of(core as u8), line as u8, word as u8))
}

/// The core of a register, by the parts of its place.
pub(crate) fn register_place_said(parts: &[&[u8]]) -> Option<CoreId>
    ensures { result ≡ register_place_said (map (λ part. part.now) parts.now) }
{
    match parts {
        [core, name] => register_of(core, name),
        _ => None,
    }
}

fn register_of(core: &[u8], name: &[u8]) -> Option<CoreId>
    ensures { result ≡ register_place_said (core.now ∷ name.now ∷ []) }
{
    let core = range_said(core, 0, 47)?;
    if name == b"register".as_slice() {
        Some(CoreId::of(core as u8))
    } else {
        None
    }
}

/// Whether nothing stands behind the value, or a comment.
pub(crate) fn is_comment(words: &[&[u8]]) -> bool
    ensures { result ≡ is_comment (map (λ word. word.now) words.now) }
{
    match words {
        [] => true,
        [first, ..] => begins_mark(first),
    }
}

fn begins_mark(word: &[u8]) -> bool
    ensures { result ≡ (slice_index word.now 0 == 35) }
{
    match word {
        [] => false,
        [first, ..] => *first == b'#',
    }
}

/// How the flags are laid out.
pub(crate) fn layout_said(word: &[u8]) -> Option<Layout>
    ensures { result ≡ layout_said word.now }
{
    if word == b"words".as_slice() {
        Some(Layout::LineFlags)
    } else if word == b"bits".as_slice() {
        Some(Layout::BitFlags)
    } else {
        None
    }
}
