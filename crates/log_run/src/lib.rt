//! A run whose calls are kept: each rank's port has a tap on it, and the ranks are swept in their order until none moves.
#![tactic(auto)]

mod crew;
mod loggers;
mod rooms;
mod script_runs;
mod ue_runs;

pub use loggers::Logger;
pub use rooms::has_room;
pub use script_runs::{LogRun, run_script};
pub use ue_runs::log_run;
