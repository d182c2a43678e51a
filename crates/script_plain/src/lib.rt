//! The plain meaning of scripts, evaluated: the run of a script whose sends meet its receives.
#![tactic(auto)]

mod barriers;
mod decisions;
mod ends;
mod facing;
mod matches;
mod posts;
mod steps;
mod ues;

pub use barriers::{is_with, setup_of};
pub use ends::{End, have_finished};
pub use matches::{History, Match, Matches, plain_history, plain_matches};
pub use script_machine::{PrintedItem as Printed, UeEnd};
pub use script_rules::Form;
pub use steps::plain_run;
