//! A run of one collective call over a chip: all ranks make it by turns, in rank order, and all come to its end.
#![tactic(auto)]

mod laws;
mod members;
mod runs;
mod workers;

pub use laws::{order_law, rest_law};
pub use members::{Member, join};
pub use runs::run;
