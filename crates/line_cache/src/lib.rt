//! The private lines of a core: a cache of message passing lines, and the evictors that drop lines of it.
#![tactic(auto)]

mod cache;
mod evict;

pub use cache::{Cache, Entry};
pub use evict::{Always, Choice, Evict, Never, Seeded};
