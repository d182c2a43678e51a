//! `rccetrace`: tells whether a trace of accesses to shared words is legal.
#![tactic(auto)]

mod command;
mod finished;
mod hearing;
mod judging;
mod launcher;
mod next_texts;
mod report;

pub use command::TraceJob;
pub use launcher::rccetrace;
