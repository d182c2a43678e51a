//! What a look at flags has seen.

ghost use Rattle.std.specs.Prelude.{◌≡◌, ◌==◌};
ghost use Rattle.std.specs.Int.{bit_at};
ghost use Rattle.rank_monitor.specs.Steps.{look_of};

use scc_base::Rank;

/// A load of a word of `sent` or of `ready` flags.
#[derive(Clone, Copy)]
pub enum Look {
    /// The flag of this rank fills the word.
    Line { of: Rank, value: u64 },
    /// The word has a bit for each of the `nue` ranks but `me`.
    Bits { me: Rank, nue: u8, value: u64 },
}

/// Whether a bit of a word is set.
pub(crate) fn is_bit(word: u64, bit: Rank) -> bool
    ensures tells { result ≡ (bit_at word bit == 1) }
{
    (word >> bit.number()) % 2 == 1
}

impl Look {
    /// Whether the flag of a rank was seen set.
    pub(crate) fn sees(&self, rank: Rank) -> bool
        ensures tells { result ≡ look_of self.now rank }
    {
        match self {
            Look::Line { of, value } => rank == *of && *value == 1,
            Look::Bits { me, nue, value } => {
                me.number() < *nue && rank.number() < *nue && *me != rank && is_bit(*value, rank)
            }
        }
    }
}
