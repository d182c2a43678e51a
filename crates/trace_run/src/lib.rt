//! A run on one thread with a witness, who is told each access to a shared word as it is made.
#![tactic(auto)]

mod crews;
mod ports;
mod runs;
mod turns;
mod witnesses;

pub use ports::{Before, WitnessedPort};
pub use runs::{SeenRun, run_seen};
pub use witnesses::Witness;
