//! A tap on a port: it notes the calls that a rank has finished, with their bytes, from the accesses that it makes.
#![tactic(auto)]

mod kept;
mod laws;
mod ports;
mod taps;

pub use kept::Kept;
pub use laws::{bytes_law, kept_law, room_law};
pub use ports::Tapped;
pub use taps::Tap;
