//! A rank that is away from its chip.

ghost use Rattle.std.specs.Prelude.{◌≡◌, Some, []};
ghost use Rattle.scc_mesh.specs.SeatViews.{IsLoneSeat, lone_view, list_at};
ghost use Rattle.scc_mesh.specs.Keeping.{MayAccess, event_found};
ghost use Rattle.scc_mesh.specs.AwayRanks.{IsSoundAway, MadeAway};

use crate::rule::View;
use crate::space::Space;
use atomic_table::Seat;
use scc_base::{Access, Place, Rank};
use std::marker::Model;

/// The right to make the events of one rank of a chip. It has no lifetime, and may go to another thread. A
/// rank whose token is dropped stays away.
#[derive(Drop)]
pub struct Token {
    seat: Seat<(), View>,
    rank: Rank,
}

impl Model for Token {
    ghost use Rattle.scc_mesh.specs.SeatViews.{IsLoneSeat, list_at};
    ghost use Rattle.scc_mesh.specs.AwayRanks.{Ticket};

    ghost Value = { Ticket };

    ghost view = { λ t. record { table = t.seat.table_id; rank = t.rank; events = list_at t.seat.me.0 t.rank } };

    ghost invariant = { λ t. IsLoneSeat t.rank t.seat.me };
}

impl Token {
    pub(crate) fn new(seat: Seat<(), View>, rank: Rank) -> Token
        requires lone { IsLoneSeat rank seat.me }
        ensures gives { result ≡ record { table = seat.table_id; rank = rank; events = list_at seat.me.0 rank } }
    {
        Token { seat, rank }
    }

    pub(crate) fn into_seat(self) -> Seat<(), View>
        ensures table { result.table_id ≡ self.table }
        ensures lone { result.me ≡ (lone_view self.rank (Some self.events), []) }
    {
        let Token { seat, rank: _ } = self;
        seat
    }

    /// The rank that is away.
    pub fn rank(&self) -> Rank
        ensures gives { result ≡ self.now.rank }
    {
        self.rank
    }

    /// A load that is no event, and tells what the seat knows.
    pub(crate) fn look(&mut self, space: &Space)
        requires of_chip { self.old.table ≡ space.now.table }
        ensures same { self.new ≡ self.old }
        ensures knows { IsSoundAway space.now.about self.new }
    {
        space.look(&mut self.seat);
    }

    /// The one step that is an event of the rank. The answer is the number that a load or a take found.
    pub(crate) fn make(&mut self, space: &Space, access: Access, place: Place, value: u64) -> u64
        requires of_chip { self.old.table ≡ space.now.table }
        requires permitted { MayAccess space.now.about self.old.rank self.old.events access place value }
        ensures did { MadeAway space.now.about self.old (event_found access place value result) self.new }
    {
        space.make(&mut self.seat, self.rank, access, place, value)
    }
}
