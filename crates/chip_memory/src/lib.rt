//! The words and registers of a chip in memory, and a chip whose ranks make their events one after the other.
#![tactic(auto)]

mod chip;
mod made;
mod words;

pub use chip::TurnChip;
pub use made::Made;
pub use words::ChipWords;
