//! Units of execution: the script of one rank on one core, over the chip, a turn at a time.
#![tactic(auto)]

mod calls;
mod laws;
mod lines;
mod receiving;
mod ues;
mod workers;

pub use laws::{free_law, other_port_law};
pub use ues::Ue;
