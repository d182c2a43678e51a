//! A run by sweeps alone, on one thread.

ghost use Rattle.std.specs.Prelude.{ℕ, length};
ghost use Rattle.std.specs.List.{range_with_len};
ghost use Rattle.chip_run.specs.Crews.{AllRest, CrewStands, RunEndedAs, IsCrew, SweepStands};
ghost use Rattle.chip_run.specs.Orders.{TurnsOf, sweeps_of};
ghost use Rattle.chip_run.specs.Waiting.{NoneDrafts};
ghost use Rattle.scc_mesh.specs.Scenes.{about_in, records_in};

use crate::ends::RunEnd;
use crate::rests::Rest;
use crate::workers::{Worker, turn_at_home};
use scc_base::Rank;
use scc_mesh::Chip;

/// A turn of each worker, in rank order.
fn sweep<W: Worker>(chip: &mut Chip, crew: &mut [W]) -> Rest
    requires crew { IsCrew W.behaviour chip.old crew.old }
    ensures swept { SweepStands W.behaviour result (length crew.old) chip.old crew.old chip.new crew.new }
    ensures order { TurnsOf W.behaviour (range_with_len 0 (length crew.old)) chip.old crew.old chip.new crew.new }
{
    let ranks = chip.setup().nue() as usize;
    let mut so_far = Rest::Finished;
    for at in 0..ranks {
        let came = turn_at_home(chip, Rank::of(at as u8), &mut crew[at]);
        so_far = so_far.and(came);
    }
    so_far
}

/// Runs the workers of a chip by sweeps in rank order alone, until one in which none moves. No memory is taken.
pub fn run_by_sweeps<W: Worker>(chip: &mut Chip, crew: &mut [W]) -> RunEnd
    requires crew { IsCrew W.behaviour chip.old crew.old }
    // It is the same chip, whole, with the same workers, each as it is after some turns and tied to its rank's events.
    ensures stands { CrewStands W.behaviour chip.old crew.old chip.new crew.new }
    // Each worker rests: it has finished, a mismatch stopped it, or it waits.
    ensures rests { AllRest W.behaviour chip.new crew.new (length crew.new) }
    // It answers Finished where all have finished, and Stuck where one has not.
    ensures answer { RunEndedAs W.behaviour result chip.new crew.new }
    // A rank that has no call open is in the midst of nothing: it has no message in draft.
    ensures no_draft { NoneDrafts (about_in chip.new) (records_in chip.new) }
    // The turns were those of all ranks in their order, again and again.
    ensures order { (n : ℕ) × TurnsOf W.behaviour (sweeps_of n (length crew.old)) chip.old crew.old chip.new crew.new }
{
    loop {
        let came = sweep(chip, crew);
        if let Some(end) = came.end() {
            return end;
        }
    }
}
