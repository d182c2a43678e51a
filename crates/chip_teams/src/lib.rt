//! Ranks that take turns on a chip with one seat, shared by the crates of tests.
#![tactic(auto)]

mod teams;

pub use teams::{Player, Team, opened, turn_of};
