//! The numbers of ranks and of cores.

use std::marker::Model;

/// The number of a unit of execution, counted from 0. There is at most one on each of the chip's 48 cores
/// (RCCE specification 2.0).
#[derive(Clone, Copy, Debug, PartialEq, Eq, PartialOrd, Ord)]
pub struct Rank {
    number: u8,
}

impl Model for Rank {
    ghost use Rattle.std.specs.Prelude.{ℕ, ◌<◌};

    ghost Value = { ℕ };

    ghost view = { λ r. r.number };

    ghost invariant = { λ r. r.number < 48 };

    ghost inverse = { λ n. record { number = n } };
}

impl Rank {
    ghost use Rattle.std.specs.Prelude.{◌≡◌, ◌<◌, SomeIff};

    pub fn new(number: u8) -> Option<Rank>
        ensures gives { SomeIff result (number < 48) number }
    {
        if number < 48 {
            Some(Rank { number })
        } else {
            None
        }
    }

    /// The rank of a number that is known to be below 48.
    pub fn of(number: u8) -> Rank
        requires below { number < 48 }
        ensures gives { result ≡ number }
    {
        Rank { number }
    }

    pub fn number(self) -> u8
        ensures gives { result ≡ self }
        ensures below { result < 48 }
    {
        self.number
    }
}

/// The number of one of the chip's 48 cores: `2 * (x + 6 * y) + z` for column x and row y of its tile and
/// core z of the tile. This numbering is this project's own.
#[derive(Clone, Copy, Debug, PartialEq, Eq, PartialOrd, Ord)]
pub struct CoreId {
    number: u8,
}

impl Model for CoreId {
    ghost use Rattle.std.specs.Prelude.{ℕ, ◌<◌};

    ghost Value = { ℕ };

    ghost view = { λ r. r.number };

    ghost invariant = { λ r. r.number < 48 };

    ghost inverse = { λ n. record { number = n } };
}

impl CoreId {
    ghost use Rattle.std.specs.Prelude.{◌≡◌, ◌<◌, SomeIff};

    pub fn new(number: u8) -> Option<CoreId>
        ensures gives { SomeIff result (number < 48) number }
    {
        if number > 47 {
            None
        } else {
            Some(CoreId { number })
        }
    }

    /// The core of a number that is known to be below 48.
    pub fn of(number: u8) -> CoreId
        requires below { number < 48 }
        ensures gives { result ≡ number }
    {
        CoreId { number }
    }

    pub fn number(self) -> u8
        ensures gives { result ≡ self }
        ensures below { result < 48 }
    {
        self.number
    }
}
