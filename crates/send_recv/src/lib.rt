//! Messages between ranks: what a send, a post and a receive are made of, one turn at a time.
#![tactic(auto)]

mod answers;
mod calls;
mod chunks;
mod deliveries;
mod flags;
mod heads;
mod laws;
mod places;
mod receives;
mod sends;
mod slices;
mod slots;
mod stages;

pub use answers::RecvTurn;
pub use calls::{RecvStop, recv, recv_test};
pub use deliveries::{SendStop, send};
pub use laws::{begins_law, done_law, ends_law, other_port_law, stalls_law, start_law, turns_law};
pub use receives::RecvOp;
pub use sends::SendOp;
pub use slots::Slot;
