//! Words: values, and words that a mark cuts in two.

ghost use Rattle.std.specs.Prelude.{◌≡◌, ◌<◌, IfSome, option_map};
ghost use Rattle.lab_reader.specs.Words.{cut_at, hex_digit, value_said};
ghost use Rattle.lab_reader.specs.Cuts.{cut_of};

use texts::place_of;

/// A word that was cut at a mark: the parts before and after it.
#[derive(Clone, Copy)]
pub(crate) struct Parts<'a> {
    pub(crate) front: &'a [u8],
    pub(crate) back: &'a [u8],
}

/// A word, cut at the first byte that equals the mark.
pub(crate) fn cut_at(word: &[u8], mark: u8) -> Option<Parts<'_>>
    ensures { option_map cut_of result ≡ cut_at mark word.now }
{
    match place_of(word, mark) {
        Some(at) => Some(Parts {
            front: &word[..at],
            back: &word[at + 1..],
        }),
        None => None,
    }
}

/// The value of a hex digit.
fn hex_digit(b: u8) -> Option<u8>
    ensures gives { result ≡ hex_digit b }
    ensures below { IfSome result (λ digit. digit < 16) }
{
    match b {
        b'0'..=b'9' => Some(b - b'0'),
        b'a'..=b'f' => Some(b - b'a' + 10),
        b'A'..=b'F' => Some(b - b'A' + 10),
        _ => None,
    }
}

/// The value of hex digits, if it has at most 64 bits.
pub(crate) fn value_said(word: &[u8]) -> Option<u64>
    ensures { result ≡ value_said word.now }
{
    if word.is_empty() {
        return None;
    }
    let mut value: u64 = 0;
    for b in word {
        let Some(digit) = hex_digit(*b) else {
            return None;
        };
        let next = value as u128 * 16 + digit as u128;
        if next > u64::MAX as u128 {
            return None;
        }
        value = next as u64;
    }
    Some(value)
}
