//! The run of a script: what its UEs come to over the chip is the plain meaning.
#![tactic(auto)]

pub mod examples;
mod laws;
mod ue_runs;

pub use chip_run::{Gate, Mode, Open, RunEnd};
pub use laws::sweep_law;
pub use ue_runs::{Crew, run};
