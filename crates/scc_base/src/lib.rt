//! The names of things on the chip and in a run: ranks, cores, places, heads, calls, the two layouts of
//! the message passing buffer, communicators and the setup of a run.
#![tactic(auto)]

mod bytes;
mod calls;
mod communicators;
mod events;
mod heads;
mod kinds;
mod laws;
mod layouts;
mod names;
mod numbers;
mod orders;
mod places;
mod setups;
mod signals;
mod worlds;

pub use bytes::byte_of;
pub use calls::Call;
pub use communicators::CommRule;
pub use events::{Access, Event, Spot, Stalled, Turn};
pub use heads::{Head, PostHead};
pub use kinds::Kind;
pub use laws::{groups_law, numbers_law, places_law, root_law};
pub use layouts::Layout;
pub use names::{CoreId, Rank};
pub use numbers::{NUMBERS, number_of_register, number_of_word, zeros};
pub use orders::{OwnedSteps, any_first, lowest_first, one_end};
pub use places::{Buf, FlagAt, Line, Place};
pub use setups::Setup;
pub use signals::Signal;
pub use worlds::{own_cores, world_alone, world_of};
