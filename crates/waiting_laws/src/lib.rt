//! What a vain look of a send or a receive tells, and that a turn which made one has waited.
#![tactic(auto)]

mod laws;

pub use laws::failed_looks;
