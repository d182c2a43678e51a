//! The trace of a run, written while the run goes: each event is judged, and then its line is written.
#![tactic(auto)]

mod desks;
mod lines;
mod writing;

pub use desks::TraceFault;
pub use writing::write_run;
