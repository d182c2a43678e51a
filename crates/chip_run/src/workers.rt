//! What one rank does in a run, a turn at a time.

ghost use Rattle.std.specs.Prelude.{◌<◌};
ghost use Rattle.chip_run.specs.Turns.{NoneElseHolds, TurnedAtHome};
ghost use Rattle.scc_mesh.specs.Scenes.{IsWhole, about_in, events_in, records_in};

use crate::rests::Rest;
use scc_base::{Rank, Turn};
use scc_mesh::Chip;
use scc_proto::Port;

/// What one rank does, a turn at a time.
pub trait Worker {
    ghost use Rattle.std.specs.Prelude.{◌≡◌, ℕ, List};
    ghost use Rattle.scc_base.specs.Setups.{SetupView};
    ghost use Rattle.scc_base.specs.declared.events.Event.{Event};
    ghost use Rattle.chip_run.specs.Behaves.{Behaviour};
    ghost use Rattle.chip_run.specs.Turns.{RankHoldsNone, TookBatch, Turned};

    // What a run knows of it.
    ghost behaviour: { Behaviour Self };

    /// One turn through a port, which comes back with the answer: Moved where it went on, Waiting where its one look was vain,
    /// and Done where the rank is over.
    fn turn<P: Port>(&mut self, port: P) -> (Turn, P)
        requires ties { behaviour.tied self.old (P.sight port).seat.setup (P.sight port).seat.rank (P.sight port).events }
        ensures ties { behaviour.tied self.new (P.sight result.1).seat.setup (P.sight result.1).seat.rank (P.sight result.1).events }
        ensures turned { Turned behaviour (P.stepped (P.sight port).seat) self.old (P.sight port) self.new (P.sight result.1) result.0 };

    /// One turn, whatever it comes to, or turns in a row, each of which moved.
    fn batch<P: Port>(&mut self, port: P) -> (Turn, P)
        requires ties { behaviour.tied self.old (P.sight port).seat.setup (P.sight port).seat.rank (P.sight port).events }
        ensures ties { behaviour.tied self.new (P.sight result.1).seat.setup (P.sight result.1).seat.rank (P.sight result.1).events }
        ensures took_batch { TookBatch behaviour (P.stepped (P.sight port).seat) self.old (P.sight port) self.new
            (P.sight result.1) result.0 };

    /// Whether a mismatch stopped it.
    fn is_stopped(&self) -> bool
        ensures tells { (s : SetupView) (rank : ℕ) → result ≡ (behaviour.seen s rank self.now).is_stopped };

    // Its rank holds no register between turns.
    ghost hands: { (x : Self) (s : SetupView) (rank : ℕ) (events : List Event) → behaviour.tied x s rank events
        → RankHoldsNone s rank events };
}

/// One turn of a rank at home.
pub(crate) fn turn_at_home<W: Worker>(chip: &mut Chip, rank: Rank, worker: &mut W) -> Rest
    requires whole { IsWhole chip.old }
    requires below { rank < (about_in chip.old).nue }
    requires free { NoneElseHolds (about_in chip.old) (records_in chip.old) rank }
    requires ties { W.behaviour.tied worker.old (about_in chip.old) rank (events_in chip.old rank) }
    ensures turned { TurnedAtHome W.behaviour chip.old rank worker.old chip.new worker.new result }
{
    let (answer, port) = worker.turn(chip.port(rank));
    // The chip goes back here.
    let _chip = port.chip;
    chip.agrees();
    Rest::of(&answer, worker.is_stopped())
}
