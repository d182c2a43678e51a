//! The words and registers of the chip in one list.

ghost use Rattle.std.specs.Prelude.{◌≡◌, ◌<◌, ℕ, IfOk, length, slice_index};
ghost use Rattle.scc_base.specs.Numbers.{number_count, register_number, word_number};
ghost use Rattle.scc_base.specs.Places.{IsPlace};

use crate::names::CoreId;
use crate::places::Place;
use std::alloc::{AllocError, Global};

/// How many numbers a list of all buffer words and registers has.
pub const NUMBERS: usize = 49_200;

/// The number of a buffer word in the list.
pub fn number_of_word(place: Place) -> usize
    ensures gives { result ≡ word_number place.core place.line place.word }
    ensures below { result < 49152 }
    ensures place { IsPlace place }
{
    1024 * place.core().number() as usize + 4 * place.line() as usize + place.word() as usize
}

/// The number of a core's register in the list.
pub fn number_of_register(core: CoreId) -> usize
    ensures gives { result ≡ register_number core }
    ensures below { result < number_count }
    ensures core { core < 48 }
{
    49_152 + core.number() as usize
}

/// As many words that are 0.
pub fn zeros(alloc: Global, count: usize) -> Result<Vec<u64>, AllocError>
    ensures zeros { IfOk result (λ words. (length words.items ≡ count) × ((k : ℕ) → slice_index words.items k ≡ 0)) }
{
    vec![in alloc; 0u64; count]
}
