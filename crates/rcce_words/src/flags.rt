//! The options of the command line.

ghost use Rattle.std.specs.Prelude.{◌≡◌};
ghost use Rattle.rcce_words.specs.CommandLine.{option_named, takes_value};

/// An option, by what it sets.
#[derive(Clone, Copy)]
pub(crate) enum Flag {
    /// The number of units of execution.
    Nue,
    /// The file with the host of each.
    Hosts,
    /// The seed of the evictors.
    Evict,
    /// The seed of a run on one thread.
    Serial,
    /// Flags that are single bits.
    Bits,
    /// The seed of a script that is made.
    Gen,
}

/// The option that a word names.
pub(crate) fn flag_of(word: &str) -> Option<Flag>
    ensures { result ≡ option_named word.now }
{
    match word {
        "-nue" => Some(Flag::Nue),
        "-f" => Some(Flag::Hosts),
        "-evict" => Some(Flag::Evict),
        "-serial" => Some(Flag::Serial),
        "-bits" => Some(Flag::Bits),
        "-gen" => Some(Flag::Gen),
        _ => None,
    }
}

/// Whether the word behind this one is its value.
pub(crate) fn takes_value(word: &str) -> bool
    ensures { result ≡ takes_value (option_named word.now) }
{
    match flag_of(word) {
        Some(Flag::Bits) | None => false,
        Some(_) => true,
    }
}
