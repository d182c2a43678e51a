//! `rcceaudit`: tells whether the calls of a log are legal, and writes the log of a run.
#![tactic(auto)]

mod command;
mod launcher;
mod logged;
mod logging;
mod report;

pub use launcher::rcceaudit;
