//! The shared words as other threads see them, and the port of a rank that is away.

ghost use Rattle.std.specs.Prelude.{◌≡◌};

use crate::space::Space;
use crate::tokens::Token;
use scc_base::{Access, CoreId, Place, Rank, Setup};
use scc_proto::Port;
use std::marker::Model;

/// The words of an open chip, for as many threads as need them.
#[derive(Clone, Copy)]
pub struct Words<'w> {
    pub space: &'w Space,
}

impl<'w> Words<'w> {
    ghost use Rattle.std.specs.Prelude.{◌≡◌};

    /// The port of a rank of this chip that is away, which goes on with its list.
    pub fn port(self, mut token: Token) -> SeatPort<'w>
        requires of_chip { token.table ≡ self.space.now.table }
        ensures gives { result ≡ record { about = self.entry.space.now.about; ticket = token } }
    {
        token.look(self.space);
        SeatPort {
            space: self.space,
            token,
        }
    }
}

/// A port of one rank of a chip, beside those of other ranks in other threads. Each call is one step on the
/// chip's words.
#[derive(Drop)]
pub struct SeatPort<'w> {
    space: &'w Space,
    token: Token,
}

impl<'w> Model for SeatPort<'w> {
    ghost use Rattle.std.specs.Prelude.{◌≡◌};
    ghost use Rattle.scc_mesh.specs.AwayRanks.{Away, IsSoundAway};

    ghost Value = { Away };

    ghost view = { λ p. record { about = p.space.now.about; ticket = p.token } };

    ghost invariant = { λ p. (p.token.table ≡ p.space.now.table) × IsSoundAway p.space.now.about p.token };
}

impl<'w> SeatPort<'w> {
    ghost use Rattle.std.specs.Prelude.{◌≡◌};

    /// The rank's token, with the list of the port.
    pub fn into_token(self) -> Token
        ensures gives { result ≡ self.entry.ticket }
    {
        let SeatPort { space: _, token } = self;
        token
    }
}

impl<'w> Port for SeatPort<'w> {
    ghost use Rattle.scc_mesh.specs.Scenes.{WasSeatStep, sight_away};

    ghost sight = { λ p. sight_away p.about p.ticket };

    ghost stepped = { WasSeatStep };

    fn setup(&self) -> &Setup {
        self.space.setup()
    }

    fn rank(&self) -> Rank {
        self.token.rank()
    }

    fn load(&mut self, p: Place) -> u64 {
        self.token.make(self.space, Access::Load, p, 0)
    }

    fn store(&mut self, p: Place, v: u64) {
        self.token.make(self.space, Access::Store, p, v);
    }

    fn take(&mut self, c: CoreId) -> bool {
        self.token
            .make(self.space, Access::Take, Place::register(c), 0)
            == 0
    }

    fn free(&mut self, c: CoreId) {
        self.token
            .make(self.space, Access::Free, Place::register(c), 0);
    }
}
