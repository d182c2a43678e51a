//! One core's memory accesses: reads and writes of words and lines through its cache and its write-combining
//! buffer, and put and get of whole buffers.
#![tactic(auto)]

mod accesses;
mod cores;
pub mod laws;
mod transfers;

pub use cores::Core;
pub use transfers::RangeFault;
