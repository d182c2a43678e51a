//! Locks over the test-and-set registers of the cores.
#![tactic(auto)]

mod locks;

pub use locks::{Held, release, try_acquire};
