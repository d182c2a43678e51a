//! What holds of several programs together, and of the premises that what they promise stands on.
#![tactic(auto)]

pub mod laws;
