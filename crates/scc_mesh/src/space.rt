//! The shared words of an open chip, and the steps on them.

ghost use Rattle.std.specs.Prelude.{◌≡◌, [], IfOk};
ghost use Rattle.scc_mesh.specs.SeatViews.{IsKnown, list_at, events_of_rank, newcomer, without, lone_view, joined_seats};
ghost use Rattle.scc_mesh.specs.Keeping.{Made, Looked, MayAccess, event_found};

use crate::rule::{Agreement, Aim, Goes, HandsOut, Looks, TakesIn, View};
use atomic_table::{Seat, Table};
use scc_base::{Access, NUMBERS, Place, Rank, Setup, number_of_register, number_of_word, zeros};
use std::alloc::{AllocError, Global};
use std::marker::{Brand, Model};

/// The shared words of an open chip, with its setup. A word is read and written through a port alone.
#[derive(Drop)]
pub struct Space {
    table: Table<(), View, Setup, Agreement, Global>,
    about: Setup,
}

impl Model for Space {
    ghost use Rattle.std.specs.Prelude.{◌≡◌};
    ghost use Rattle.scc_mesh.specs.Spaces.{SpaceView};
    ghost use Rattle.scc_base.specs.Numbers.{number_count};

    ghost Value = { SpaceView };

    ghost view = { λ s. record { about = s.about; table = s.table.shared.table_id } };

    ghost invariant = { λ s. (s.table.shared.key ≡ s.about) × (s.table.shared.table_id.words ≡ number_count) };
}

impl Space {
    /// Words that are 0, and the seat of all ranks.
    pub(crate) fn new(alloc: Global, setup: Setup) -> Result<(Space, Seat<(), View>), AllocError>
        ensures about { IfOk result (λ made. made.0.about ≡ setup) }
        ensures seat { IfOk result (λ made. (made.1.table_id ≡ made.0.table) × (made.1.me ≡ (newcomer setup, []))) }
    {
        let _nue = setup.nue();
        let words = zeros(alloc, NUMBERS)?;
        let (table, seat) = Table::of_words(alloc, words.as_slice(), &setup)?;
        let space = Space {
            table,
            about: setup,
        };
        Ok((space, seat))
    }

    /// The setup with which the chip was opened.
    pub fn setup(&self) -> &Setup
        ensures gives { result.now ≡ self.now.about }
    {
        &self.about
    }

    fn make_as<N: Aim>(
        &self,
        seat: &mut Seat<(), View>,
        rank: Rank,
        access: Access,
        place: Place,
        value: u64,
    ) -> u64
        requires aim { (N.about ≡ self.now.about) × (N.rank ≡ rank) × (N.event ≡ (λ n. event_found access place value n)) }
        requires table { seat.old.table_id ≡ self.now.table }
        requires known { IsKnown seat.old.me.0 rank }
        requires permitted { MayAccess self.now.about rank (list_at seat.old.me.0 rank) access place value }
        ensures table { seat.new.table_id ≡ seat.old.table_id }
        ensures made { Made self.now.about rank seat.old.me.0 (event_found access place value result) seat.new.me.0 }
        ensures held { seat.new.me.1 ≡ seat.old.me.1 }
    {
        let shared = &self.table.shared;
        match access {
            Access::Load => shared.load::<Goes<N>>(seat, number_of_word(place)),
            Access::Store => {
                shared.store::<Goes<N>>(seat, number_of_word(place), value);
                value
            }
            Access::Take => shared.swap::<Goes<N>>(seat, number_of_register(place.core()), 1),
            Access::Free => {
                shared.store::<Goes<N>>(seat, number_of_register(place.core()), 0);
                0
            }
        }
    }

    /// The one step that is an event of a rank. The answer is the number that a load or a take found.
    pub(crate) fn make(
        &self,
        seat: &mut Seat<(), View>,
        rank: Rank,
        access: Access,
        place: Place,
        value: u64,
    ) -> u64
        requires table { seat.old.table_id ≡ self.now.table }
        requires known { IsKnown seat.old.me.0 rank }
        requires permitted { MayAccess self.now.about rank (list_at seat.old.me.0 rank) access place value }
        ensures table { seat.new.table_id ≡ seat.old.table_id }
        ensures made { Made self.now.about rank seat.old.me.0 (event_found access place value result) seat.new.me.0 }
        ensures held { seat.new.me.1 ≡ seat.old.me.1 }
    {
        self.make_as::<Brand>(seat, rank, access, place, value)
    }

    fn look_as<N: Aim>(&self, seat: &mut Seat<(), View>)
        requires aim { N.about ≡ self.now.about }
        requires table { seat.old.table_id ≡ self.now.table }
        ensures table { seat.new.table_id ≡ seat.old.table_id }
        ensures looked { Looked self.now.about seat.old.me.0 seat.new.me.0 }
        ensures held { seat.new.me.1 ≡ seat.old.me.1 }
    {
        self.table.shared.load::<Looks<N>>(seat, 0);
    }

    /// A load that is no event, and tells what the seat knows.
    pub(crate) fn look(&self, seat: &mut Seat<(), View>)
        requires table { seat.old.table_id ≡ self.now.table }
        ensures table { seat.new.table_id ≡ seat.old.table_id }
        ensures looked { Looked self.now.about seat.old.me.0 seat.new.me.0 }
        ensures held { seat.new.me.1 ≡ seat.old.me.1 }
    {
        self.look_as::<Brand>(seat);
    }

    fn split_as<N: Aim>(&self, seat: &mut Seat<(), View>, rank: Rank) -> Seat<(), View>
        requires aim { N.rank ≡ rank }
        requires table { seat.old.table_id ≡ self.now.table }
        requires known { IsKnown seat.old.me.0 rank }
        ensures table { (seat.new.table_id ≡ seat.old.table_id) × (result.table_id ≡ seat.old.table_id) }
        ensures left { seat.new.me ≡ (without seat.old.me.0 rank, seat.old.me.1) }
        ensures right { result.me ≡ (lone_view rank (events_of_rank seat.old.me.0 rank), []) }
    {
        self.table.shared.split_seat::<HandsOut<N>>(seat)
    }

    /// Gives a rank a seat of its own.
    pub(crate) fn split(&self, seat: &mut Seat<(), View>, rank: Rank) -> Seat<(), View>
        requires table { seat.old.table_id ≡ self.now.table }
        requires known { IsKnown seat.old.me.0 rank }
        ensures table { (seat.new.table_id ≡ seat.old.table_id) × (result.table_id ≡ seat.old.table_id) }
        ensures left { seat.new.me ≡ (without seat.old.me.0 rank, seat.old.me.1) }
        ensures right { result.me ≡ (lone_view rank (events_of_rank seat.old.me.0 rank), []) }
    {
        self.split_as::<Brand>(seat, rank)
    }

    /// Takes the ranks of another seat in.
    pub(crate) fn join(&self, seat: &mut Seat<(), View>, other: Seat<(), View>)
        requires table { (seat.old.table_id ≡ self.now.table) × (other.table_id ≡ self.now.table) }
        requires none { other.me.1 ≡ [] }
        ensures table { seat.new.table_id ≡ seat.old.table_id }
        ensures both { seat.new.me ≡ (joined_seats seat.old.me.0 other.me.0, seat.old.me.1) }
    {
        self.table.shared.join_seat::<TakesIn>(seat, other);
    }
}
