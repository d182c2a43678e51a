//! Events of ranks, as a history keeps them.

use scc_base::{Event, Rank};
use std::marker::Model;

/// An event, and the rank that made it.
#[derive(Drop)]
pub struct Made {
    rank: Rank,
    event: Event,
}

impl Model for Made {
    ghost use Rattle.scc_proto.specs.Words.{RankEvent};

    ghost Value = { RankEvent };

    ghost view = { λ m. record { rank = m.rank; event = m.event } };
}

impl Made {
    ghost use Rattle.std.specs.Prelude.{◌≡◌};

    /// A copy of the event, with its rank.
    pub fn new(rank: Rank, event: &Event) -> Made
        ensures gives { result ≡ record { rank = rank; event = event.now } }
    {
        let event = Event {
            access: event.access,
            place: event.place,
            value: event.value,
        };
        Made { rank, event }
    }
}
