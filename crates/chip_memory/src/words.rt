//! The shared words of a chip, in memory that is taken once.

ghost use Rattle.std.specs.Prelude.{◌≡◌, ◌<◌, length};
ghost use Rattle.scc_base.specs.Numbers.{number_count};
ghost use Rattle.scc_proto.specs.Memories.{memory_of};
ghost use Rattle.scc_proto.specs.Words.{memory_after};
ghost use Rattle.chip_memory.specs.Steps.{IsOnChip, number_of_access};

use crate::made::Made;
use scc_base::{Access, Event, NUMBERS, Place, Rank, number_of_register, number_of_word, zeros};
use scc_proto::History;
use std::alloc::{AllocError, Global};
use std::marker::Model;

/// The words and registers of a chip: what the events of its ranks have made of words that were all 0. Memory is taken in `new`
/// alone.
///
/// They are seen as the list of these events, the oldest first, which is in proofs alone.
#[derive(Drop)]
pub struct ChipWords {
    numbers: Vec<u64>,
    made: History<Made>,
}

impl Model for ChipWords {
    ghost use Rattle.std.specs.Prelude.{List};
    ghost use Rattle.scc_proto.specs.Words.{RankEvent};
    ghost use Rattle.chip_memory.specs.Steps.{AreWordsOf};

    ghost Value = { List RankEvent };

    ghost view = { λ w. w.made.items };

    ghost invariant = { λ w. AreWordsOf w.made.items w.numbers.items };
}

// The number in the list of the word or register that an access is at.
fn number_of(access: Access, place: Place) -> usize
    ensures gives { result ≡ number_of_access access place }
    ensures below { result < number_count }
    ensures there { IsOnChip access place }
{
    match access {
        Access::Load => number_of_word(place),
        Access::Store => number_of_word(place),
        Access::Take => number_of_register(place.core()),
        Access::Free => number_of_register(place.core()),
    }
}

// Makes an event of words and registers.
fn write(numbers: &mut Vec<u64>, event: &Event)
    requires count { length numbers.old.items ≡ number_count }
    ensures count { length numbers.new.items ≡ number_count }
    ensures makes { memory_of numbers.new.items ≡ memory_after (memory_of numbers.old.items) event.now }
    ensures there { IsOnChip event.now.access event.now.place }
{
    let number = number_of(event.access, event.place);
    match event.access {
        Access::Load => {}
        Access::Store => numbers[number] = event.value,
        Access::Take => {
            if event.value == 1 {
                numbers[number] = 1;
            }
        }
        Access::Free => numbers[number] = 0,
    }
}

impl ChipWords {
    ghost use Rattle.std.specs.Prelude.{◌≡◌, ◌∷◌, ◌++◌, [], IfOk};
    ghost use Rattle.scc_proto.specs.Histories.{memory_from};
    ghost use Rattle.scc_proto.specs.Words.{zeros};
    ghost use Rattle.chip_memory.specs.Steps.{IsOnChip, is_step, stands_by};

    /// Words and registers that are all 0: no event was made.
    pub fn new(alloc: Global) -> Result<ChipWords, AllocError>
        ensures gives { IfOk result (λ words. words ≡ []) }
    {
        let numbers = zeros(alloc, NUMBERS)?;
        Ok(ChipWords {
            numbers,
            made: History::new(),
        })
    }

    /// What an access finds: the word at its place, or the register of its core.
    pub fn stands_at(&self, access: Access, place: Place) -> u64
        ensures gives { result ≡ stands_by access place (memory_from zeros self.now) }
        ensures there { IsOnChip access place }
    {
        self.numbers[number_of(access, place)]
    }

    /// Whether an event is a step of the words.
    pub fn is_step(&self, event: &Event) -> bool
        ensures gives { result ≡ is_step (memory_from zeros self.now) event.now }
    {
        let found = self.stands_at(event.access, event.place);
        match event.access {
            Access::Load => found == event.value,
            Access::Store => true,
            Access::Take => { (event.value == 1 && found == 0) || (event.value == 0 && found == 1) }
            Access::Free => true,
        }
    }

    /// Makes an event of a rank.
    pub fn make(&mut self, rank: Rank, event: &Event)
        ensures makes { self.new ≡ self.old ++ (record { rank = rank; event = event.now }) ∷ [] }
        ensures there { IsOnChip event.now.access event.now.place }
    {
        write(&mut self.numbers, event);
        self.made = self.made.and(&Made::new(rank, event));
    }
}
