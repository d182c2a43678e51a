//! Words that are numbers of units of execution, options, or the name of a file. No memory is taken.

ghost use Rattle.std.specs.Prelude.{◌≡◌, ◌≤◌, IfSome, map, string_bytes};
ghost use Rattle.std.specs.Option.{option_copied};
ghost use Rattle.outcomes.specs.Numbers.{file_named, is_option, ue_count_of};

use texts::number_in;

/// The most units of execution: one for each core of the chip.
const MOST_UES: u32 = 48;

/// Whether a word begins with `-`.
pub fn is_option(word: &str) -> bool
    ensures { result ≡ is_option word.now }
{
    match word.as_bytes() {
        [first, ..] => *first == b'-',
        [] => false,
    }
}

/// The file that the words name, if they are one word that is no option.
pub fn file_named(words: &[String]) -> Option<&str>
    ensures { option_copied result ≡ file_named (map string_bytes words.now) }
{
    match words {
        [file] if !is_option(file.as_str()) => Some(file.as_str()),
        _ => None,
    }
}

/// The number of units of execution that a word is, from 1 to 48.
pub fn ue_count(word: &str) -> Option<u8>
    ensures gives { result ≡ ue_count_of word.now }
    ensures some { IfSome result (λ nue. 1 ≤ nue) }
    ensures most { IfSome result (λ nue. nue ≤ 48) }
{
    match number_in(word.as_bytes(), 1, MOST_UES) {
        Some(n) => Some(n as u8),
        None => None,
    }
}
