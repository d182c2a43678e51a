//! A port with a tap on it.

ghost use Rattle.call_tap.specs.Taps.{HasRead};

use crate::taps::Tap;
use scc_base::{CoreId, Event, Place, Rank, Setup};
use scc_proto::Port;

/// A port that is used as the one in it, with a tap that reads each access.
pub struct Tapped<P: Port> {
    pub tap: Tap,
    pub port: P,
    ghost read: { HasRead tap (P.sight port).seat.setup (P.sight port).seat.rank (P.sight port).events },
}

impl<P: Port> Tapped<P> {
    ghost use Rattle.std.specs.Prelude.{◌≡◌};

    /// The tap on a port whose accesses so far it has read.
    pub fn new(tap: Tap, port: P) -> Tapped<P>
        requires read { HasRead tap (P.sight port).seat.setup (P.sight port).seat.rank (P.sight port).events }
        ensures tap { result.tap ≡ tap }
        ensures port { result.port ≡ port }
    {
        Tapped { tap, port }
    }

    /// The tap and the port.
    pub fn apart(self) -> (Tap, P)
        ensures tap { result.0 ≡ self.tap }
        ensures port { result.1 ≡ self.port }
        ensures read { HasRead result.0 (P.sight result.1).seat.setup (P.sight result.1).seat.rank (P.sight result.1).events }
    {
        let Tapped { tap, port } = self;
        (tap, port)
    }
}

impl<P: Port> Port for Tapped<P> {
    ghost sight = { λ t. P.sight t.port };

    ghost stepped = { P.stepped };

    fn setup(&self) -> &Setup {
        self.port.setup()
    }

    fn rank(&self) -> Rank {
        self.port.rank()
    }

    fn load(&mut self, p: Place) -> u64 {
        let value = self.port.load(p);
        self.tap.read(&Event::load(p, value));
        value
    }

    fn store(&mut self, p: Place, v: u64) {
        self.port.store(p, v);
        self.tap.read(&Event::store(p, v));
    }

    fn take(&mut self, c: CoreId) -> bool {
        let taken = self.port.take(c);
        self.tap.read(&Event::take(c, taken));
        taken
    }

    fn free(&mut self, c: CoreId) {
        self.port.free(c);
        self.tap.read(&Event::free(c));
    }
}
