//! `rccemesh`: says how many lines each link of the mesh carries for the messages of a script.
#![tactic(auto)]

mod command;
mod cores;
mod launcher;
mod lines;
mod report;

pub use launcher::rccemesh;
