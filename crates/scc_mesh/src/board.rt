//! An open chip: its words, and the seat of the ranks at home.

ghost use Rattle.std.specs.Prelude.{◌≡◌, ◌<◌, length, slice_set, Some, IfOk};
ghost use Rattle.scc_mesh.specs.SeatViews.{IsKnown, events_of_rank, list_at, newcomer, without};
ghost use Rattle.scc_mesh.specs.Keeping.{Knows, Made, MayAccess, event_found};

use crate::away::Words;
use crate::rule::View;
use crate::space::Space;
use crate::tokens::Token;
use atomic_table::Seat;
use scc_base::{Access, Place, Rank, Setup};
use std::alloc::{AllocError, Global};
use std::marker::Model;

#[derive(Drop)]
pub(crate) struct Board {
    space: Space,
    seat: Seat<(), View>,
}

impl Model for Board {
    ghost use Rattle.std.specs.Prelude.{◌≡◌, [], length};
    ghost use Rattle.scc_mesh.specs.Keeping.{Knows};
    ghost use Rattle.scc_mesh.specs.Scenes.{Scene};

    ghost Value = { Scene };

    ghost view = { λ b. record { about = b.space.about; table = b.space.table; home = b.seat.me.0 } };

    ghost invariant = { λ b. (b.seat.table_id ≡ b.space.table) × (b.seat.me.1 ≡ []) × Knows b.space.about b.seat.me.0
        × (length b.seat.me.0 ≡ b.space.about.nue) };
}

impl Board {
    pub(crate) fn new(alloc: Global, setup: Setup) -> Result<Board, AllocError>
        ensures made { IfOk result (λ board. (board.about ≡ setup) × (board.home ≡ newcomer setup)) }
    {
        let (space, mut seat) = Space::new(alloc, setup)?;
        space.look(&mut seat);
        Ok(Board { space, seat })
    }

    pub(crate) fn setup(&self) -> &Setup
        ensures gives { result.now ≡ self.now.about }
    {
        self.space.setup()
    }

    /// What the seat of the ranks at home knows.
    pub(crate) fn tells(&self)
        ensures knows { Knows self.now.about self.now.home }
        ensures ranks { length self.now.home ≡ self.now.about.nue }
    {
        let _seat = &self.seat;
    }

    /// The one step that is an event of a rank. The answer is the number that a load or a take found.
    pub(crate) fn make(&mut self, rank: Rank, access: Access, place: Place, value: u64) -> u64
        requires known { IsKnown self.old.home rank }
        requires permitted { MayAccess self.old.about rank (list_at self.old.home rank) access place value }
        ensures did { Made self.old.about rank self.old.home (event_found access place value result) self.new.home }
        ensures same { (self.new.about ≡ self.old.about) × (self.new.table ≡ self.old.table) }
    {
        let space = &self.space;
        space.make(&mut self.seat, rank, access, place, value)
    }

    /// The words of the chip.
    pub(crate) fn words(&self) -> Words<'_>
        ensures about { result.space.now.about ≡ self.now.about }
        ensures table { result.space.now.table ≡ self.now.table }
    {
        Words { space: &self.space }
    }

    pub(crate) fn spread(&mut self, rank: Rank) -> Token
        requires known { IsKnown self.old.home rank }
        ensures board { self.new ≡ record self.old { home = without self.old.home rank } }
        ensures token { result ≡ record { table = self.old.table; rank = rank; events = list_at self.old.home rank } }
    {
        let space = &self.space;
        let seat = space.split(&mut self.seat, rank);
        Token::new(seat, rank)
    }

    pub(crate) fn gather(&mut self, token: Token)
        requires of_chip { token.table ≡ self.old.table }
        ensures board { self.new ≡ record self.old { home = slice_set self.old.home token.rank (Some token.events) } }
        ensures below { token.rank < self.old.about.nue }
        ensures home { events_of_rank self.new.home token.rank ≡ Some token.events }
    {
        let space = &self.space;
        space.join(&mut self.seat, token.into_seat());
        space.look(&mut self.seat);
    }
}
