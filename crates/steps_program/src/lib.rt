//! `chip_steps`: makes accesses to the shared words, to a bare table or through a port.
#![tactic(auto)]

mod accesses;
mod bare;
mod jobs;
mod ports;

pub use accesses::Kind;
pub use jobs::{Case, Job, Made, Way, job_of, make};
