//! The chip: one table of shared words with the law of agreement as its rule, and the ports of its ranks.
#![tactic(auto)]

mod away;
mod board;
mod chip;
mod laws;
mod port;
mod rule;
mod space;
mod tokens;

pub use away::{SeatPort, Words};
pub use chip::Chip;
pub use laws::{look_law, saw_law, turn_law};
pub use port::OnePort;
pub use space::Space;
pub use tokens::Token;
