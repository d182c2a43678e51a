//! Gather, scatter, allgather and alltoall over plain messages, one turn at a time.
#![tactic(auto)]

mod kinds;
mod laws;
mod ops;
mod seats;
mod slices;
mod tables;

pub use kinds::{More, PieceCall, Way};
pub use laws::{begins_law, other_port_law, pieces_law, turns_law};
pub use ops::MoreOp;
pub use tables::{call_at, dst_len, src_len};
