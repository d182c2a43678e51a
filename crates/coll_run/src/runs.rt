//! A run of a collective call.

ghost use Rattle.std.specs.Prelude.{◌≡◌, ℕ};
ghost use Rattle.coll_more.specs.declared.kinds.More.{More};
ghost use Rattle.coll_run.specs.Teams.{TeamHasEnded, IsFreshTeam};

use crate::members::Member;
use chip_run::run_by_sweeps;
use line_cache::Evict;
use scc_mesh::Chip;

/// Runs a collective call: turns of all ranks, in rank order, until nobody moves. All ranks come to the end of their calls:
/// of the messages that are left, both ranks of the first one stand at it, so one of the two can move. No memory is taken.
pub fn run<V: Evict + Drop>(chip: &mut Chip, team: &mut [Member<V>])
    requires fresh { (more : More) × (len : ℕ) × IsFreshTeam more len chip.old team.old }
    // Each rank has made exactly the calls of its table, with their bytes, is in no call, and has got its pieces.
    ensures ended { (more : More) (len : ℕ) → IsFreshTeam more len chip.old team.old
        → TeamHasEnded more len chip.old team.old chip.new team.new }
{
    run_by_sweeps(chip, team);
    chip.agrees();
}
