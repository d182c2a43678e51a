//! Rounds and sweeps of the workers of a run, with a witness.

ghost use Rattle.std.specs.Prelude.{◌≡◌, ◌<◌, ◌*◌, length};
ghost use Rattle.std.specs.List.{range_with_len};
ghost use Rattle.rand_pcg.specs.Pcg.{pcg32};
ghost use Rattle.chip_run.specs.Crews.{CrewStands, IsCrew, OneTurn, SweepStands};
ghost use Rattle.chip_run.specs.Orders.{TurnsOf, generator_after, named_ranks};
ghost use Rattle.trace_run.specs.Seen.{HasSeenAll, StillWanted};

use crate::turns::turn_at_home;
use crate::witnesses::Witness;
use chip_run::{Rest, Worker};
use rand_core::utils::NextWord;
use rand_pcg::Pcg32;
use scc_base::Rank;
use scc_mesh::Chip;

/// How many turns for each rank a round has, as in any run on one thread.
const TURNS: usize = 1000;

/// A turn of one of the workers.
fn turn_at<W: Worker, N: Witness>(
    chip: &mut Chip,
    crew: &mut [W],
    at: usize,
    witness: N,
) -> (Rest, N)
    requires crew { IsCrew W.behaviour chip.old crew.old }
    requires within { at < length crew.old }
    requires seen { HasSeenAll (N.setup witness) (N.noted witness) chip.old }
    ensures turned { OneTurn W.behaviour chip.old crew.old at chip.new crew.new result.0 }
    ensures seen { HasSeenAll (N.setup result.1) (N.noted result.1) chip.new }
    ensures wanted { StillWanted (N.wanted_after witness) (N.wanted_after result.1) }
{
    chip.known();
    turn_at_home(chip, Rank::of(at as u8), &mut crew[at], witness)
}

/// A turn of each worker, in rank order.
pub(crate) fn sweep<W: Worker, N: Witness>(chip: &mut Chip, crew: &mut [W], witness: N) -> (Rest, N)
    requires crew { IsCrew W.behaviour chip.old crew.old }
    requires seen { HasSeenAll (N.setup witness) (N.noted witness) chip.old }
    ensures swept { SweepStands W.behaviour result.0 (length crew.old) chip.old crew.old chip.new crew.new }
    ensures order { TurnsOf W.behaviour (range_with_len 0 (length crew.old)) chip.old crew.old chip.new crew.new }
    ensures seen { HasSeenAll (N.setup result.1) (N.noted result.1) chip.new }
    ensures wanted { StillWanted (N.wanted_after witness) (N.wanted_after result.1) }
{
    let mut witness = witness;
    let mut so_far = Rest::Finished;
    for at in 0..crew.len() {
        let (came, told) = turn_at(chip, crew, at, witness);
        witness = told;
        so_far = so_far.and(came);
    }
    (so_far, witness)
}

/// A thousand turns for each rank, each of the rank that the generator's next word names.
pub(crate) fn round<W: Worker, N: Witness>(
    chip: &mut Chip,
    crew: &mut [W],
    picks: &mut Pcg32,
    witness: N,
) -> N
    requires crew { IsCrew W.behaviour chip.old crew.old }
    requires some { 0 < length crew.old }
    requires seen { HasSeenAll (N.setup witness) (N.noted witness) chip.old }
    ensures picks { picks.new ≡ generator_after pcg32 (1000 * length crew.old) picks.old }
    ensures order { TurnsOf W.behaviour (named_ranks pcg32 (length crew.old) (1000 * length crew.old) picks.old) chip.old crew.old
        chip.new crew.new }
    ensures stands { CrewStands W.behaviour chip.old crew.old chip.new crew.new }
    ensures seen { HasSeenAll (N.setup result) (N.noted result) chip.new }
    ensures wanted { StillWanted (N.wanted_after witness) (N.wanted_after result) }
{
    let ranks = chip.setup().nue() as usize;
    let mut witness = witness;
    for turn in 0..TURNS * ranks {
        let at = picks.next_word() as usize % crew.len();
        let (_, told) = turn_at(chip, crew, at, witness);
        witness = told;
    }
    witness
}
