//! Accesses to the shared words of the chip, and what a call waits at.

use crate::names::CoreId;
use crate::places::Place;

/// How an event touches its word.
#[derive(Clone, Copy, PartialEq, Eq)]
pub enum Access {
    /// A load of a buffer word, with the value answered.
    Load,
    /// A store of a buffer word, with the value stored.
    Store,
    /// A read of a test-and-set register, which takes it where it was free.
    Take,
    /// A write of a test-and-set register, which frees it.
    Free,
}

/// One access to one shared word, the unit that no other core's access can split (SCC External Architecture
/// Specification; the word as the unit is this project's profile).
///
/// For a take and a free the place is line 0, word 0 of the register's core and means the register. A take
/// has the value 1 where it took the register and 0 where it found it taken. A free has the value 0.
#[derive(Drop, PartialEq, Eq)]
pub struct Event {
    pub access: Access,
    pub place: Place,
    pub value: u64,
}

impl Event {
    ghost use Rattle.std.specs.Prelude.{◌≡◌};
    ghost use Rattle.scc_base.specs.Events.{load_of, store_of, take_of, free_of};

    pub fn load(place: Place, value: u64) -> Event
        ensures gives { result ≡ load_of place value }
    {
        Event {
            access: Access::Load,
            place,
            value,
        }
    }

    pub fn store(place: Place, value: u64) -> Event
        ensures gives { result ≡ store_of place value }
    {
        Event {
            access: Access::Store,
            place,
            value,
        }
    }

    pub fn take(core: CoreId, taken: bool) -> Event
        ensures gives { result ≡ take_of core taken }
    {
        Event {
            access: Access::Take,
            place: Place::register(core),
            value: if taken { 1 } else { 0 },
        }
    }

    pub fn free(core: CoreId) -> Event
        ensures gives { result ≡ free_of core }
    {
        Event {
            access: Access::Free,
            place: Place::register(core),
            value: 0,
        }
    }
}

/// What a call can wait at.
#[derive(Debug, Drop, PartialEq, Eq)]
pub enum Spot {
    /// A flag: one bit of a word of a core's buffer.
    Flag { place: Place, bit: u8 },
    /// A core's test-and-set register.
    Register { core: CoreId },
}

impl Spot {
    ghost use Rattle.std.specs.Prelude.{◌≡◌};

    /// A copy of the spot.
    pub fn copy(&self) -> Spot
        ensures gives { result ≡ self.now }
    {
        match self {
            Spot::Flag { place, bit } => Spot::Flag {
                place: *place,
                bit: *bit,
            },
            Spot::Register { core } => Spot::Register { core: *core },
        }
    }
}

/// What one turn of an operation came to.
#[derive(Drop, PartialEq, Eq)]
pub enum Turn {
    /// It went on, and is not at its end.
    Moved,
    /// Its one try at this spot was vain.
    Waiting(Spot),
    /// It is at its end.
    Done,
}

impl Turn {
    ghost use Rattle.std.specs.Prelude.{◌≡◌};

    /// A copy of the answer.
    pub fn copy(&self) -> Turn
        ensures gives { result ≡ self.now }
    {
        match self {
            Turn::Moved => Turn::Moved,
            Turn::Waiting(spot) => Turn::Waiting(spot.copy()),
            Turn::Done => Turn::Done,
        }
    }
}

/// A call gave up at a spot after this many vain tries there.
#[derive(Debug, Drop, PartialEq, Eq)]
pub struct Stalled {
    pub spot: Spot,
    pub polls: u32,
}
