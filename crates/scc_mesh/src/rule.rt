//! The rule of the chip's table, and the kinds of step on it.

ghost use Rattle.std.specs.Prelude.{◌≡◌, ℕ, []};
ghost use Rattle.scc_base.specs.Setups.{SetupView};
ghost use Rattle.scc_base.specs.declared.events.Event.{Event};
ghost use Rattle.scc_mesh.specs.SeatViews.{newcomer, events_of_rank, without, lone_view, joined_seats};
ghost use Rattle.scc_mesh.specs.Scenes.{no_setup};
ghost use Rattle.scc_mesh.specs.Keeping.{KeepsRule, Made, Looked, no_event};

use atomic_table::{Join, Play, Split, TableRule};
use scc_base::{Event, Setup};
use std::collections::LinkedList;
use std::marker::{Brand, PhantomData};

/// What a seat of the table knows: by rank, the list of the events of each rank that it stands for. No value
/// of it is ever made.
pub(crate) type View = LinkedList<Option<LinkedList<Event>>>;

/// The words and the lists of all seats agree.
pub(crate) struct Agreement;

impl TableRule<(), View, Setup> for Agreement {
    ghost holds = { KeepsRule };

    ghost first = { newcomer };
}

/// Which event of which rank a step is, by the number that the step finds.
pub(crate) trait Aim {
    ghost about: { SetupView };

    ghost rank: { ℕ };

    ghost event: { ℕ → Event };
}

impl Aim for Brand {
    ghost about = { no_setup };

    ghost rank = { 0 };

    ghost event = { no_event };
}

/// A step that is one event.
pub(crate) struct Goes<N> {
    aim: PhantomData<N>,
}

impl<N: Aim> Play<(), View> for Goes<N> {
    ghost then = { λ step me n now. Made N.about N.rank me.0 (N.event n) now.0 × (now.1 ≡ me.1) };
}

/// A load that is no event.
pub(crate) struct Looks<N> {
    aim: PhantomData<N>,
}

impl<N: Aim> Play<(), View> for Looks<N> {
    ghost then = { λ step me n now. Looked N.about me.0 now.0 × (now.1 ≡ me.1) };
}

/// A rank goes into a seat of its own.
pub(crate) struct HandsOut<N> {
    aim: PhantomData<N>,
}

impl<N: Aim> Split<View> for HandsOut<N> {
    ghost left = { λ v. without v N.rank };

    ghost right = { λ v. lone_view N.rank (events_of_rank v N.rank) };
}

/// A seat's ranks go into another seat.
pub(crate) struct TakesIn;

impl Join<View> for TakesIn {
    ghost both = { joined_seats };

    ghost spent = { [] };
}
