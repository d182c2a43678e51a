//! The record of a rank as a monitor: it takes the rank's events one after the other, says which of them the protocol does not
//! permit, and hands out each call at the event that finishes it.
#![tactic(auto)]

mod barriers;
mod bools;
mod changes;
mod chunks;
mod held;
mod lines;
mod looks;
mod monitors;
mod next;
mod next_laws;
mod receives;
mod sends;
mod signals;
mod steps;
mod uses;
mod works;

pub use chunks::NotedChunk;
pub use held::NotedFlags;
pub use lines::NotedLine;
pub use monitors::{RankMonitor, Refused};
pub use next::{NextEvent, NextStore};
pub use next_laws::{next_event_law, next_store_law};
pub use uses::{Use, use_of};
pub use works::{Posted, Standing, Work};
