//! The load of the mesh: how many lines each link of the chip carries, where each rank is on a core and the messages of a
//! run are known.
#![tactic(auto)]

mod adding;
mod links;
mod tables;

pub use adding::load;
pub use links::{Dir, Load};
