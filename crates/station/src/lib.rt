//! The library in a program of one's own: a rank with all that it keeps between its calls.
#![tactic(auto)]

mod collectives;
mod flagging;
mod laws;
mod meetings;
mod memory;
mod messages;
mod patience;
mod ports;
mod posts;
mod reductions;
mod stations;
mod steps;
mod stops;
mod texts;

pub use laws::{bcast_law, group_law, other_port_law};
pub use stations::Station;
pub use steps::{Folding, GroupOp, Hand};
pub use stops::{
    BarStall, CollStall, CollStop, GroupStall, GroupStop, RecvStall, RecvStop, SendStall, Stop,
};
