//! One turn of a worker whose rank is at home, with a witness.

ghost use Rattle.std.specs.Prelude.{◌<◌};
ghost use Rattle.chip_run.specs.Turns.{NoneElseHolds, OwnTurn, TurnedAtHome};
ghost use Rattle.scc_mesh.specs.Scenes.{IsWhole, about_in, events_in, records_in};
ghost use Rattle.trace_run.specs.Seen.{HasSeenAll, StillWanted};

use crate::ports::{Before, WitnessedPort};
use crate::witnesses::Witness;
use chip_run::{Rest, Worker};
use scc_base::{Rank, Turn};
use scc_mesh::{Chip, OnePort};
use std::marker::Brand;

/// One turn of a rank at home.
pub(crate) fn turn_at_home<W: Worker, N: Witness>(
    chip: &mut Chip,
    rank: Rank,
    worker: &mut W,
    witness: N,
) -> (Rest, N)
    requires whole { IsWhole chip.old }
    requires below { rank < (about_in chip.old).nue }
    requires free { NoneElseHolds (about_in chip.old) (records_in chip.old) rank }
    requires ties { W.behaviour.tied worker.old (about_in chip.old) rank (events_in chip.old rank) }
    requires seen { HasSeenAll (N.setup witness) (N.noted witness) chip.old }
    ensures turned { TurnedAtHome W.behaviour chip.old rank worker.old chip.new worker.new result.0 }
    ensures seen { HasSeenAll (N.setup result.1) (N.noted result.1) chip.new }
    ensures wanted { StillWanted (N.wanted_after witness) (N.wanted_after result.1) }
{
    let (answer, witness) = own_turn::<W, N, Brand>(chip, rank, worker, witness);
    chip.agrees();
    (Rest::of(&answer, worker.is_stopped()), witness)
}

/// The same, as its port sees it.
fn own_turn<W: Worker, N: Witness, B: Before>(
    chip: &mut Chip,
    rank: Rank,
    worker: &mut W,
    witness: N,
) -> (Turn, N)
    requires whole { IsWhole chip.old }
    requires below { rank < (about_in chip.old).nue }
    requires ties { W.behaviour.tied worker.old (about_in chip.old) rank (events_in chip.old rank) }
    requires seen { HasSeenAll (N.setup witness) (N.noted witness) chip.old }
    requires wanted { StillWanted B.wanted (N.wanted_after witness) }
    ensures turned { OwnTurn W.behaviour chip.old rank worker.old chip.new worker.new result.0 }
    ensures seen { HasSeenAll (N.setup result.1) (N.noted result.1) chip.new }
    ensures wanted { StillWanted B.wanted (N.wanted_after result.1) }
{
    let port: WitnessedPort<OnePort<'_>, N, B> = WitnessedPort::new(witness, chip.port(rank));
    let (answer, seen) = worker.turn(port);
    let (witness, port) = seen.apart();
    // The chip goes back here.
    let _chip = port.chip;
    (answer, witness)
}
