//! A port that counts the loads made through another port.
#![tactic(auto)]

mod counting;

pub use counting::CountingPort;
