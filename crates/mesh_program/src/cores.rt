//! The cores of ranks, from a list of core numbers. No memory is taken.

ghost use Rattle.std.specs.Prelude.{◌≡◌, ◌∷◌, ◌==◌, ◌≤◌, option_map, take};
ghost use Rattle.std.specs.List.{list_any};
ghost use Rattle.mesh_program.specs.Cores.{core_number, listed_cores, parts_after, between_commas};

use scc_base::CoreId;
use texts::place_of;

/// A word up to its first comma, and what is behind that comma.
#[derive(Clone, Copy)]
struct Cut<'a> {
    first: &'a [u8],
    rest: Option<&'a [u8]>,
}

/// Cuts a word at its first comma.
fn cut_word(word: &[u8]) -> Cut<'_>
    ensures { between_commas word.now ≡ result.first.now ∷ parts_after (option_map (λ rest. rest.now) result.rest) }
{
    match place_of(word, b',') {
        Some(i) => Cut {
            first: &word[..i],
            rest: Some(&word[i + 1..]),
        },
        None => Cut {
            first: word,
            rest: None,
        },
    }
}

/// The core of a number.
fn core_number(text: &[u8]) -> Option<CoreId>
    ensures { result ≡ core_number text.now }
{
    match text {
        [digit] if digit.is_ascii_digit() => CoreId::new(*digit - b'0'),
        [first, second] if first.is_ascii_digit() && second.is_ascii_digit() && *first != b'0' => {
            CoreId::new((*first - b'0') * 10 + (*second - b'0'))
        }
        _ => None,
    }
}

/// Whether a core is among the first of these.
fn is_taken(at: &[CoreId; 48], count: usize, core: CoreId) -> bool
    requires { count ≤ 48 }
    ensures { result ≡ list_any (λ other. other == core) (take count at.now) }
{
    for i in 0..count {
        if at[i] == core {
            return true;
        }
    }
    false
}

/// The cores of a list with commas between them, one for each rank.
pub fn listed_cores(word: &[u8], nue: u8) -> Option<[CoreId; 48]>
    requires { nue ≤ 48 }
    ensures { result ≡ listed_cores nue word.now }
{
    let mut at = [CoreId::of(0); 48];
    let mut rest = Some(word);
    for number in 0..nue {
        let cut = cut_word(rest?);
        let core = core_number(cut.first)?;
        if is_taken(&at, number as usize, core) {
            return None;
        }
        at[number as usize] = core;
        rest = cut.rest;
    }
    match rest {
        Some(_) => None,
        None => Some(at),
    }
}
