//! One rank's way to the shared words.

use scc_base::{CoreId, Place, Rank, Setup};

/// The accesses of one rank to the shared words of the chip. Each load, store, take and free makes exactly
/// one event.
///
/// A contract sees a port as its `sight`: whose port it is, and the list of its events. `stepped` says of
/// an event of a seat that it was a step as the port tells it, made after these events of the seat's rank: on the chip's
/// ports and on `LonePort` a step of the chip's memory. The trait lays nothing on it, and it does not change while the
/// port lives.
pub trait Port {
    ghost use Rattle.std.specs.Prelude.{◌≡◌, ◌<◌, List, [], ◌∷◌, false};
    ghost use Rattle.scc_base.specs.Events.{load_of, store_of, take_of, free_of};
    ghost use Rattle.scc_base.specs.declared.events.Event.{Event};
    ghost use Rattle.scc_proto.specs.Ports.{Seat, Sight, Did, MayMake, IsSoundPort, record_in};

    ghost sight: { Self → Sight };

    ghost stepped: { Seat → List Event → Event → Type 0 };

    fn setup(&self) -> &Setup
        ensures gives { result.now ≡ (sight self.now).seat.setup };

    fn rank(&self) -> Rank
        ensures gives { result ≡ (sight self.now).seat.rank }
        ensures below { result < (sight self.now).seat.setup.nue }
        ensures sound { IsSoundPort (sight self.now) };

    fn load(&mut self, p: Place) -> u64
        ensures did { Did (sight self.old) (load_of p result ∷ []) (sight self.new) }
        ensures step { stepped (sight self.old).seat (sight self.old).events (load_of p result) }
        ensures sound { IsSoundPort (sight self.new) };

    fn store(&mut self, p: Place, v: u64)
        requires permitted { MayMake (sight self.old).seat (record_in (sight self.old)) (store_of p v) }
        ensures did { Did (sight self.old) (store_of p v ∷ []) (sight self.new) }
        ensures step { stepped (sight self.old).seat (sight self.old).events (store_of p v) }
        ensures sound { IsSoundPort (sight self.new) };

    /// Reads a core's test-and-set register: true where it took the register.
    fn take(&mut self, c: CoreId) -> bool
        requires permitted { MayMake (sight self.old).seat (record_in (sight self.old)) (take_of c false) }
        ensures did { Did (sight self.old) (take_of c result ∷ []) (sight self.new) }
        ensures step { stepped (sight self.old).seat (sight self.old).events (take_of c result) }
        ensures sound { IsSoundPort (sight self.new) };

    fn free(&mut self, c: CoreId)
        requires permitted { MayMake (sight self.old).seat (record_in (sight self.old)) (free_of c) }
        ensures did { Did (sight self.old) (free_of c ∷ []) (sight self.new) }
        ensures step { stepped (sight self.old).seat (sight self.old).events (free_of c) }
        ensures sound { IsSoundPort (sight self.new) };
}
