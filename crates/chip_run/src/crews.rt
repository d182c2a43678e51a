//! The workers of a run on one thread: rounds and sweeps.
//!
//! Each loop takes the turns itself, so that a turn passes few hands on its way to the words.

ghost use Rattle.std.specs.Prelude.{◌≡◌, ◌<◌, ◌*◌, length};
ghost use Rattle.std.specs.List.{range_with_len};
ghost use Rattle.rand_pcg.specs.Pcg.{pcg32};
ghost use Rattle.chip_run.specs.Away.{behaviour_of_members};
ghost use Rattle.chip_run.specs.Crews.{CrewStands, IsCrew, SweepStands};
ghost use Rattle.chip_run.specs.Orders.{TurnsOf, generator_after, named_ranks};

use crate::members::Member;
use crate::rests::Rest;
use crate::workers::{Worker, turn_at_home};
use rand_core::utils::NextWord;
use rand_pcg::Pcg32;
use scc_base::Rank;
use scc_mesh::Chip;

/// How many turns for each rank a round on one thread has.
const TURNS: usize = 1000;

/// A turn of each worker, in rank order.
pub(crate) fn sweep<W: Worker>(chip: &mut Chip, crew: &mut [Member<W>]) -> Rest
    requires crew { IsCrew (behaviour_of_members W.behaviour) chip.old crew.old }
    ensures swept { SweepStands (behaviour_of_members W.behaviour) result (length crew.old) chip.old crew.old chip.new crew.new }
    ensures order { TurnsOf (behaviour_of_members W.behaviour) (range_with_len 0 (length crew.old)) chip.old crew.old chip.new crew.new }
{
    let ranks = chip.setup().nue() as usize;
    let mut so_far = Rest::Finished;
    for at in 0..ranks {
        let came = turn_at_home(chip, Rank::of(at as u8), &mut crew[at].worker);
        so_far = so_far.and(came);
    }
    so_far
}

/// A thousand turns for each rank, each of the rank that the generator's next word names.
pub(crate) fn round<W: Worker>(chip: &mut Chip, crew: &mut [Member<W>], picks: &mut Pcg32)
    requires crew { IsCrew (behaviour_of_members W.behaviour) chip.old crew.old }
    requires some { 0 < length crew.old }
    ensures picks { picks.new ≡ generator_after pcg32 (1000 * length crew.old) picks.old }
    ensures order { TurnsOf (behaviour_of_members W.behaviour)
        (named_ranks pcg32 (length crew.old) (1000 * length crew.old) picks.old) chip.old crew.old
        chip.new crew.new }
    ensures stands { CrewStands (behaviour_of_members W.behaviour) chip.old crew.old chip.new crew.new }
{
    let ranks = chip.setup().nue() as usize;
    for turn in 0..TURNS * ranks {
        let at = picks.next_word() as usize % crew.len();
        turn_at_home(chip, Rank::of(at as u8), &mut crew[at].worker);
    }
}
