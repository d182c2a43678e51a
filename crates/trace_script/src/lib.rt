//! A script is run, and its trace is written while it goes.
#![tactic(auto)]

mod endings;
mod launcher;
pub mod laws;

pub use endings::TraceEnd;
pub use launcher::trace_script;
