//! Whether accesses to the shared words of a chip, one after another, are steps of its memory and permitted when they are made.
#![tactic(auto)]

mod judge;
mod laws;

pub use judge::{Judge, Refusal};
pub use laws::{event_law, legal_law, messages_law, ruling_law};
