//! Barriers of the groups of a communicator, one turn at a time, and as a whole call that looks a bounded number
//! of times.
#![tactic(auto)]

mod barriers;
mod flags;
mod laws;
mod ops;
mod parities;
mod stages;

pub use barriers::{BarStop, barrier};
pub use laws::{
    bar_bound_law, begins_law, done_law, ends_law, goes_on_law, other_port_law, start_law,
};
pub use ops::BarOp;
pub use parities::Parity;
