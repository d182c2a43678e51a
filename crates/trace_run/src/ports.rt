//! A port whose events a witness is told.

ghost use Rattle.trace_run.specs.Seen.{HasSeen, StillWanted};

use crate::witnesses::Witness;
use scc_base::{CoreId, Event, Place, Rank, Setup};
use scc_proto::Port;
use std::marker::{Brand, PhantomData};

/// A witness as it was before a port had it: after which events it had wanted to be told more.
pub trait Before {
    ghost use Rattle.std.specs.Prelude.{List};
    ghost use Rattle.scc_proto.specs.Words.{RankEvent};

    ghost wanted: { List RankEvent → Type 0 };
}

impl Before for Brand {
    ghost use Rattle.trace_run.specs.Seen.{nothing_told};

    ghost wanted = { nothing_told };
}

/// A port that is used as the one in it, with a witness who is told each event once it is made.
pub struct WitnessedPort<P: Port, N: Witness, B: Before> {
    pub witness: N,
    pub port: P,
    pub before: PhantomData<B>,
    ghost seen: { HasSeen (N.setup witness) (N.noted witness) (P.sight port) },
    ghost wanted: { StillWanted B.wanted (N.wanted_after witness) },
}

impl<P: Port, N: Witness, B: Before> WitnessedPort<P, N, B> {
    ghost use Rattle.std.specs.Prelude.{◌≡◌};

    /// The port, with a witness who was told the events of all ranks so far.
    pub fn new(witness: N, port: P) -> WitnessedPort<P, N, B>
        requires seen { HasSeen (N.setup witness) (N.noted witness) (P.sight port) }
        requires wanted { StillWanted B.wanted (N.wanted_after witness) }
        ensures witness { result.witness ≡ witness }
        ensures port { result.port ≡ port }
    {
        WitnessedPort {
            witness,
            port,
            before: PhantomData,
        }
    }

    /// The witness and the port.
    pub fn apart(self) -> (N, P)
        ensures witness { result.0 ≡ self.witness }
        ensures port { result.1 ≡ self.port }
        ensures seen { HasSeen (N.setup result.0) (N.noted result.0) (P.sight result.1) }
        ensures wanted { StillWanted B.wanted (N.wanted_after result.0) }
    {
        let WitnessedPort {
            witness,
            port,
            before: _,
        } = self;
        (witness, port)
    }
}

impl<P: Port, N: Witness, B: Before> Port for WitnessedPort<P, N, B> {
    ghost sight = { λ t. P.sight t.port };

    ghost stepped = { P.stepped };

    fn setup(&self) -> &Setup {
        self.port.setup()
    }

    fn rank(&self) -> Rank {
        self.port.rank()
    }

    fn load(&mut self, p: Place) -> u64 {
        let _line = p.line();
        let rank = self.port.rank();
        let value = self.port.load(p);
        self.witness.note(rank, Event::load(p, value));
        value
    }

    fn store(&mut self, p: Place, v: u64) {
        let _line = p.line();
        let rank = self.port.rank();
        self.port.store(p, v);
        self.witness.note(rank, Event::store(p, v));
    }

    fn take(&mut self, c: CoreId) -> bool {
        let _number = c.number();
        let rank = self.port.rank();
        let taken = self.port.take(c);
        self.witness.note(rank, Event::take(c, taken));
        taken
    }

    fn free(&mut self, c: CoreId) {
        let _number = c.number();
        let rank = self.port.rank();
        self.port.free(c);
        self.witness.note(rank, Event::free(c));
    }
}
