//! `rccelab`: runs the steps of a lab, and prints their results.
#![tactic(auto)]

mod launcher;
mod report;

pub use launcher::rccelab;
