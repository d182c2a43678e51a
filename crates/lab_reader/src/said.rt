//! Parses the words of a line.

ghost use Rattle.std.specs.Prelude.{◌≡◌, ◌≤◌, IfSome, map};
ghost use Rattle.lab_reader.specs.Said.{action_said, bare_said, core_said, expected_line, expected_take, expected_word, four_said, free_said, get_said, line_at_said, load_said, heap_line_said, put_said, read_after, read_afterwards, read_said, store_said, take_named, take_said, verb_said, word_said, write_line_said, write_said, write_word_said};

use crate::places::{HeapLine, HeapWord};
use crate::steps::Action;
use crate::words::{cut_at, value_said};
use scc_base::CoreId;
use texts::number_in;

/// A core, by its number.
pub(crate) fn core_said(word: &[u8]) -> Option<CoreId>
    ensures { result ≡ core_said word.now }
{
    let core = number_in(word, 0, 47)?;
    Some(CoreId::of(core as u8))
}

fn line_at_said(core: CoreId, word: &[u8]) -> Option<HeapLine>
    ensures { result ≡ line_at_said core word.now }
{
    let number = number_in(word, 0, 30)?;
    Some(HeapLine::new(core, number as u8))
}

/// A heap line: `L` on its own core, or `K:L`.
fn line_said(own: CoreId, word: &[u8]) -> Option<HeapLine>
    ensures { result ≡ heap_line_said own word.now }
{
    match cut_at(word, b':') {
        Some(cut) => line_at_said(core_said(cut.front)?, cut.back),
        None => line_at_said(own, word),
    }
}

/// A word of a heap line: `L.W` on its own core, or `K:L.W`.
fn word_said(own: CoreId, word: &[u8]) -> Option<HeapWord>
    ensures { result ≡ word_said own word.now }
{
    let cut = cut_at(word, b'.')?;
    let line = line_said(own, cut.front)?;
    let number = number_in(cut.back, 0, 3)?;
    Some(line.word(number as u8))
}

/// The four words of a line.
fn four_said(first: &[u8], second: &[u8], third: &[u8], fourth: &[u8]) -> Option<[u64; 4]>
    ensures { result ≡ four_said first.now second.now third.now fourth.now }
{
    Some([
        value_said(first)?,
        value_said(second)?,
        value_said(third)?,
        value_said(fourth)?,
    ])
}

fn write_word_said(own: CoreId, words: &[&[u8]]) -> Option<Action>
    ensures { result ≡ write_word_said own (map (λ word. word.now) words.now) }
{
    match words {
        [at, value] => {
            let at = word_said(own, at)?;
            let value = value_said(value)?;
            Some(Action::WriteWord { at, value })
        }
        _ => None,
    }
}

fn write_line_said(own: CoreId, words: &[&[u8]]) -> Option<Action>
    ensures { result ≡ write_line_said own (map (λ word. word.now) words.now) }
{
    match words {
        [at, first, second, third, fourth] => {
            let at = line_said(own, at)?;
            let words = four_said(first, second, third, fourth)?;
            Some(Action::WriteLine { at, words })
        }
        _ => None,
    }
}

fn write_said(own: CoreId, words: &[&[u8]]) -> Option<Action>
    ensures { result ≡ write_said own (map (λ word. word.now) words.now) }
{
    if words.len() == 2 {
        write_word_said(own, words)
    } else {
        write_line_said(own, words)
    }
}

fn put_said(own: CoreId, words: &[&[u8]]) -> Option<Action>
    ensures { result ≡ put_said own (map (λ word. word.now) words.now) }
{
    match words {
        [at, first, second, third, fourth] => Some(Action::Put {
            at: line_said(own, at)?,
            words: four_said(first, second, third, fourth)?,
        }),
        _ => None,
    }
}

/// What may follow a read of a word: the value that is expected.
fn expected_word(words: &[&[u8]]) -> Option<Option<u64>>
    ensures { result ≡ expected_word (map (λ word. word.now) words.now) }
{
    match words {
        [] => Some(None),
        [expect, value] if *expect == b"expect".as_slice() => Some(Some(value_said(value)?)),
        _ => None,
    }
}

/// What may follow a read of a line: the four values that are expected.
fn expected_line(words: &[&[u8]]) -> Option<Option<[u64; 4]>>
    ensures { result ≡ expected_line (map (λ word. word.now) words.now) }
{
    match words {
        [] => Some(None),
        [expect, first, second, third, fourth] if *expect == b"expect".as_slice() => {
            Some(Some(four_said(first, second, third, fourth)?))
        }
        _ => None,
    }
}

/// The expected answer of a take.
fn take_named(word: &[u8]) -> Option<bool>
    ensures { result ≡ take_named word.now }
{
    if word == b"took".as_slice() {
        Some(true)
    } else if word == b"taken".as_slice() {
        Some(false)
    } else {
        None
    }
}

/// What may follow a take: whether it must take the register.
fn expected_take(words: &[&[u8]]) -> Option<Option<bool>>
    ensures { result ≡ expected_take (map (λ word. word.now) words.now) }
{
    match words {
        [] => Some(None),
        [expect, word] if *expect == b"expect".as_slice() => Some(Some(take_named(word)?)),
        _ => None,
    }
}

/// The read of a word or of a line, by the words after `evict LINE`, if that is there.
fn read_afterwards(
    own: CoreId,
    at: &[u8],
    evict: Option<HeapLine>,
    words: &[&[u8]],
) -> Option<Action>
    ensures { result ≡ read_afterwards own at.now evict (map (λ word. word.now) words.now) }
{
    match word_said(own, at) {
        Some(at) => Some(Action::ReadWord {
            at,
            evict,
            expect: expected_word(words)?,
        }),
        None => Some(Action::ReadLine {
            at: line_said(own, at)?,
            evict,
            expect: expected_line(words)?,
        }),
    }
}

/// The read of a word or of a line, by all words after it.
fn read_after(own: CoreId, at: &[u8], words: &[&[u8]]) -> Option<Action>
    ensures { result ≡ read_after own at.now (map (λ word. word.now) words.now) }
{
    match words {
        [word, line, rest @ ..] => {
            if *word == b"evict".as_slice() {
                let evict = line_said(own, line)?;
                read_afterwards(own, at, Some(evict), rest)
            } else {
                read_afterwards(own, at, None, words)
            }
        }
        _ => read_afterwards(own, at, None, words),
    }
}

fn read_said(own: CoreId, words: &[&[u8]]) -> Option<Action>
    ensures { result ≡ read_said own (map (λ word. word.now) words.now) }
{
    match words {
        [at, rest @ ..] => read_after(own, at, rest),
        [] => None,
    }
}

fn get_said(own: CoreId, words: &[&[u8]]) -> Option<Action>
    ensures { result ≡ get_said own (map (λ word. word.now) words.now) }
{
    match words {
        [at, rest @ ..] => Some(Action::Get {
            at: line_said(own, at)?,
            expect: expected_line(rest)?,
        }),
        [] => None,
    }
}

fn load_said(own: CoreId, words: &[&[u8]]) -> Option<Action>
    ensures { result ≡ load_said own (map (λ word. word.now) words.now) }
{
    match words {
        [at, rest @ ..] => Some(Action::Load {
            at: word_said(own, at)?,
            expect: expected_word(rest)?,
        }),
        [] => None,
    }
}

fn store_said(own: CoreId, words: &[&[u8]]) -> Option<Action>
    ensures { result ≡ store_said own (map (λ word. word.now) words.now) }
{
    match words {
        [at, value] => Some(Action::Store {
            at: word_said(own, at)?,
            value: value_said(value)?,
        }),
        _ => None,
    }
}

fn take_said(words: &[&[u8]]) -> Option<Action>
    ensures { result ≡ take_said (map (λ word. word.now) words.now) }
{
    match words {
        [register, rest @ ..] => Some(Action::Take {
            register: core_said(register)?,
            expect: expected_take(rest)?,
        }),
        [] => None,
    }
}

fn free_said(words: &[&[u8]]) -> Option<Action>
    ensures { result ≡ free_said (map (λ word. word.now) words.now) }
{
    match words {
        [register] => Some(Action::Free {
            register: core_said(register)?,
        }),
        _ => None,
    }
}

/// An action that has no arguments.
fn bare_said(action: Action, words: &[&[u8]]) -> Option<Action>
    ensures { result ≡ bare_said action (map (λ word. word.now) words.now) }
{
    if words.is_empty() { Some(action) } else { None }
}

/// A core's action, by its verb and the words after it.
pub(crate) fn action_said(own: CoreId, words: &[&[u8]]) -> Option<Action>
    ensures { result ≡ action_said own (map (λ word. word.now) words.now) }
{
    match words {
        [verb, rest @ ..] => verb_said(own, verb, rest),
        [] => None,
    }
}

fn verb_said(own: CoreId, verb: &[u8], words: &[&[u8]]) -> Option<Action>
    ensures { result ≡ verb_said own verb.now (map (λ word. word.now) words.now) }
{
    if verb == b"write".as_slice() {
        write_said(own, words)
    } else if verb == b"read".as_slice() {
        read_said(own, words)
    } else if verb == b"flush".as_slice() {
        bare_said(Action::Flush, words)
    } else if verb == b"invalidate".as_slice() {
        bare_said(Action::Invalidate, words)
    } else if verb == b"put".as_slice() {
        put_said(own, words)
    } else if verb == b"get".as_slice() {
        get_said(own, words)
    } else if verb == b"load".as_slice() {
        load_said(own, words)
    } else if verb == b"store".as_slice() {
        store_said(own, words)
    } else if verb == b"take".as_slice() {
        take_said(words)
    } else if verb == b"free".as_slice() {
        free_said(words)
    } else if verb == b"print".as_slice() {
        bare_said(Action::Print, words)
    } else {
        None
    }
}
