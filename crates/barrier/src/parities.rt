//! The values of the own gather flags.

use std::marker::Model;

/// The value that the own gather flag of each communicator has.
#[derive(Drop)]
pub struct Parity {
    set: [bool; 16],
}

impl Model for Parity {
    ghost use Rattle.std.specs.Prelude.{List, Bool};

    ghost Value = { List Bool };

    ghost view = { λ a. a.set };
}

impl Parity {
    ghost use Rattle.std.specs.Prelude.{◌≡◌, ◌≢◌, ◌<◌, ℕ, false, not};
    ghost use Rattle.sync_flags.specs.Flags.{flag_value};
    ghost use Rattle.barrier.specs.Flags.{value_at};

    /// All flags unset, as they are at the start of a run.
    pub fn new() -> Parity
        ensures unset { (comm : ℕ) → value_at result comm ≡ false }
    {
        Parity { set: [false; 16] }
    }

    /// The value of the flag of a communicator, as its word has it.
    pub(crate) fn value(&self, comm: u8) -> u64
        requires below { comm < 16 }
        ensures gives { result ≡ flag_value (value_at self.now comm) }
    {
        if self.set[comm as usize] { 1 } else { 0 }
    }

    // Notes that the flag of a communicator is flipped.
    pub(crate) fn flip(&mut self, comm: u8)
        requires below { comm < 16 }
        ensures flipped { value_at self.new comm ≡ not (value_at self.old comm) }
        ensures others { (c : ℕ) → c ≢ comm → value_at self.new c ≡ value_at self.old c }
    {
        self.set[comm as usize] = !self.set[comm as usize];
    }
}
