//! A run on one thread with a witness: rounds and sweeps, until a sweep in which no worker moves, or until the witness
//! does not want to be told more.

ghost use Rattle.std.specs.Prelude.{◌≡◌, ◌<◌, length};
ghost use Rattle.chip_run.specs.Crews.{CrewStands, IsCrew};
ghost use Rattle.trace_run.specs.Runs.{RunsBy};
ghost use Rattle.trace_run.specs.Seen.{HasSeenAll};

use crate::crews::{round, sweep};
use crate::witnesses::Witness;
use chip_run::{RunEnd, Worker};
use rand_core::SeedableRng;
use rand_pcg::Pcg32;
use scc_mesh::Chip;

/// What a run with a witness came to.
#[derive(Drop)]
pub struct SeenRun<N: Drop> {
    pub witness: N,
    /// How it ended, or None where the witness did not want to be told more.
    pub end: Option<RunEnd>,
}

/// Runs the workers of a chip on one thread, in the order that a generator with this seed names, until a sweep in which none
/// moves. The witness is told each event as it is made. Where it does not want to be told more, no round is begun.
/// No memory is taken.
pub fn run_seen<W: Worker, N: Witness + Drop>(
    chip: &mut Chip,
    crew: &mut [W],
    seed: u64,
    witness: N,
) -> SeenRun<N>
    requires crew { IsCrew W.behaviour chip.old crew.old }
    requires some { 0 < length crew.old }
    requires seen { HasSeenAll (N.setup witness) (N.noted witness) chip.old }
    // It is the same chip, whole, with the same workers, each as it is after some turns and tied to its rank's events.
    ensures stands { CrewStands W.behaviour chip.old crew.old chip.new crew.new }
    // The witness was told the events of the chip: those of each rank in order, and all in one order.
    ensures seen { HasSeenAll (N.setup result.witness) (N.noted result.witness) chip.new }
    // Each worker rests, as in any run on one thread; or the witness did not want to be told more. At the start of each round
    // it did.
    ensures ends { RunsBy W.behaviour (N.listens result.witness) (N.wanted_after result.witness) seed result.end chip.old crew.old
        chip.new crew.new }
{
    let mut witness = witness;
    let mut picks = Pcg32::seed_from_u64(seed);
    loop {
        let listens = witness.listens();
        if !listens {
            return SeenRun { witness, end: None };
        }
        witness = round(chip, crew, &mut picks, witness);
        let (came, told) = sweep(chip, crew, witness);
        witness = told;
        if let Some(end) = came.end() {
            return SeenRun {
                witness,
                end: Some(end),
            };
        }
    }
}
