//! A port that counts the loads made through it.

use scc_base::{CoreId, Place, Rank, Setup};
use scc_proto::Port;

/// Another port, with a count of the loads made through this one. The count stops at the largest value of u64.
#[derive(Drop)]
pub struct CountingPort<P> {
    pub port: P,
    pub loads: u64,
}

impl<P: Port> CountingPort<P> {
    ghost use Rattle.std.specs.Prelude.{◌≡◌};

    pub fn new(port: P) -> CountingPort<P>
        ensures inner { result.port ≡ port }
        ensures none { result.loads ≡ 0 }
    {
        CountingPort { port, loads: 0 }
    }

    /// How many loads were made through this port.
    pub fn loads(&self) -> u64
        ensures gives { result ≡ self.now.loads }
    {
        self.loads
    }
}

impl<P: Port> Port for CountingPort<P> {
    ghost use Rattle.std.specs.Prelude.{◌≡◌, ◌+◌, ◌-◌, ◌^◌, min, false, [], ◌∷◌};
    ghost use Rattle.scc_base.specs.Events.{load_of, store_of, take_of, free_of};
    ghost use Rattle.scc_proto.specs.Ports.{Did, MayMake, IsSoundPort, record_in};

    ghost sight = { λ c. P.sight c.port };

    ghost stepped = { P.stepped };

    fn setup(&self) -> &Setup {
        self.port.setup()
    }

    fn rank(&self) -> Rank {
        self.port.rank()
    }

    fn load(&mut self, p: Place) -> u64
        ensures did { Did (P.sight self.old.port) (load_of p result ∷ []) (P.sight self.new.port) }
        ensures step { P.stepped (P.sight self.old.port).seat (P.sight self.old.port).events (load_of p result) }
        ensures sound { IsSoundPort (P.sight self.new.port) }
        ensures counts { self.new.loads ≡ min (self.old.loads + 1) (2 ^ 64 - 1) }
    {
        self.loads = self.loads.saturating_add(1);
        self.port.load(p)
    }

    fn store(&mut self, p: Place, v: u64)
        requires permitted { MayMake (P.sight self.old.port).seat (record_in (P.sight self.old.port)) (store_of p v) }
        ensures did { Did (P.sight self.old.port) (store_of p v ∷ []) (P.sight self.new.port) }
        ensures step { P.stepped (P.sight self.old.port).seat (P.sight self.old.port).events (store_of p v) }
        ensures sound { IsSoundPort (P.sight self.new.port) }
        ensures counts { self.new.loads ≡ self.old.loads }
    {
        self.port.store(p, v);
    }

    fn take(&mut self, c: CoreId) -> bool
        requires permitted { MayMake (P.sight self.old.port).seat (record_in (P.sight self.old.port)) (take_of c false) }
        ensures did { Did (P.sight self.old.port) (take_of c result ∷ []) (P.sight self.new.port) }
        ensures step { P.stepped (P.sight self.old.port).seat (P.sight self.old.port).events (take_of c result) }
        ensures sound { IsSoundPort (P.sight self.new.port) }
        ensures counts { self.new.loads ≡ self.old.loads }
    {
        self.port.take(c)
    }

    fn free(&mut self, c: CoreId)
        requires permitted { MayMake (P.sight self.old.port).seat (record_in (P.sight self.old.port)) (free_of c) }
        ensures did { Did (P.sight self.old.port) (free_of c ∷ []) (P.sight self.new.port) }
        ensures step { P.stepped (P.sight self.old.port).seat (P.sight self.old.port).events (free_of c) }
        ensures sound { IsSoundPort (P.sight self.new.port) }
        ensures counts { self.new.loads ≡ self.old.loads }
    {
        self.port.free(c);
    }
}
