//! `rccecoll`: runs one gather, scatter, allgather or alltoall over the chip.
#![tactic(auto)]

mod command;
mod launcher;
mod lines;
mod report;
mod team;
mod writing;

pub use launcher::rccecoll;
