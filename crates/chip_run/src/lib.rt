//! The engine of a run: workers, one a rank, take turns over a chip, in threads or on one, until all rest.
#![tactic(auto)]

mod crews;
mod ends;
mod gates;
mod laws;
mod marks;
mod members;
mod rests;
mod rolls;
mod runs;
mod slices;
mod sweeps;
mod threads;
mod together;
mod workers;

pub use ends::RunEnd;
pub use gates::{Gate, Open};
pub use laws::looks_stay_failed;
pub use members::Member;
pub use rests::Rest;
pub use runs::{Mode, run};
pub use sweeps::run_by_sweeps;
pub use workers::Worker;
