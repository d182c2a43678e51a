//! Laws of traces: what is written is read back.
#![tactic(auto)]

pub mod laws;
