//! What the reader keeps for each rank.

ghost use Rattle.std.specs.Prelude.{◌≡◌, ◌<◌, ◌≤◌, ℕ, length, slice_index_or, IfOk, [], vec_len};
ghost use Rattle.script_rules.specs.declared.tally.Tally.{Tally};
ghost use Rattle.script_rules.specs.Tally.{AreTallies, noted_at};

use crate::checks::cost_of;
use crate::effect::{Effect, Group};
use crate::run::Run;
use crate::script::Who;
use crate::uses::{prints, set_by};
use std::alloc::{AllocError, Global};

/// How many operations a rank may have.
pub const MOST_OPERATIONS: u64 = 100_000;

/// How many register bytes a rank may print.
pub(crate) const MOST_PRINTED: u64 = 1_048_576;

/// The length that a statement gives a register, in bytes.
#[derive(Clone, Copy)]
pub struct Setting {
    pub reg: u8,
    pub len: u64,
}

/// The totals of one rank's statements. Each sum stops at one more than is allowed.
#[derive(Drop)]
pub struct Tally {
    /// How many operations the rank has.
    pub operations: u64,
    /// How many register bytes the rank prints.
    pub printed: u64,
    /// The length of each register in bytes, by its number, if it is known.
    pub lengths: [Option<u64>; 256],
    /// Which communicators the rank has split, by their numbers.
    pub splits: [bool; 256],
}

impl Tally {
    ghost use Rattle.std.specs.Prelude.{◌≡◌, ◌<◌};
    ghost use Rattle.script_rules.specs.Tally.{length_in, tally_after, split_in, with_length, with_split};

    /// The length of a register in bytes, if the rank has set it.
    pub(crate) fn length(&self, reg: u8) -> Option<u64>
        ensures { result ≡ length_in self.now reg }
    {
        self.lengths[reg as usize]
    }

    /// Whether the rank has split a communicator.
    pub(crate) fn has_split(&self, comm: u8) -> bool
        ensures { result ≡ split_in self.now comm }
    {
        self.splits[comm as usize]
    }

    /// Sets the length of a register that has none yet.
    fn set_length(&mut self, set: Option<Setting>)
        ensures { self.new ≡ record self.old { lengths = with_length self.old.lengths set } }
    {
        if let Some(set) = set {
            if self.length(set.reg).is_none() {
                self.lengths[set.reg as usize] = Some(set.len);
            }
        }
    }

    /// Records a split.
    fn set_split(&mut self, group: Group)
        ensures { self.new ≡ record self.old { splits = with_split self.old.splits group } }
    {
        match group {
            Group::World | Group::Of(_) => {}
            Group::Split(comm, _) => self.splits[comm as usize] = true,
        }
    }

    /// Counts one more statement of the rank, which runs `turns` times.
    fn note(&mut self, run: &Run, turns: u32, effect: &Effect, rank: u8)
        requires { rank < run.now.nue }
        ensures { self.new ≡ tally_after run.now turns effect.now rank self.old }
    {
        let operations = (turns as u64).saturating_mul(cost_of(run, effect.cost, rank) as u64);
        let printed = (turns as u64).saturating_mul(prints(self, effect));
        let set = set_by(run, self, effect, rank);
        self.operations = self
            .operations
            .saturating_add(operations)
            .min(MOST_OPERATIONS + 1);
        self.printed = self.printed.saturating_add(printed).min(MOST_PRINTED + 1);
        self.set_length(set);
        self.set_split(effect.group);
    }
}

/// Counts one more item of the script, which runs `turns` times, for each rank of its section. `tallies` has one tally a rank.
pub fn note_item(tallies: &mut [Tally], run: &Run, turns: u32, who: &Who, effect: &Effect)
    requires ranks { length tallies.old ≡ run.now.nue }
    requires most { run.now.nue ≤ 48 }
    ensures { (rank : ℕ) (d : Tally) → rank < run.now.nue
        → slice_index_or tallies.new rank d ≡ noted_at run.now turns who.now effect.now rank (slice_index_or tallies.old rank d) }
{
    for rank in 0..tallies.len() {
        if who.has(rank as u8) {
            tallies[rank].note(run, turns, effect, rank as u8);
        }
    }
}

/// The tallies of all ranks before the first statement. The only error is out of memory.
pub fn no_tallies(alloc: Global, nue: u8) -> Result<Vec<Tally>, AllocError>
    ensures ranks { IfOk result (λ tallies. vec_len tallies ≡ nue) }
    ensures empty { IfOk result (λ tallies. AreTallies tallies.items nue []) }
{
    let mut tallies = Vec::with_capacity(alloc, nue as usize)?;
    for _ in 0..nue {
        tallies.push(Tally {
            operations: 0,
            printed: 0,
            lengths: [None; 256],
            splits: [false; 256],
        })?;
    }
    Ok(tallies)
}
