//! Runs labs step by step, by cores over a chip in memory.
#![tactic(auto)]

mod acting;
mod bench;
mod evictor;
pub mod laws;
mod making;
mod moves;
mod prints;
mod reads;
mod registers;
mod run;
mod setup;
mod singles;

pub use evictor::Named;
pub use run::{LabLeft, LabRun, run_lab};
