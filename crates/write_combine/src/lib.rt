//! The write-combining buffer of a core: it gathers the words written to one line.
#![tactic(auto)]

mod combiner;

pub use combiner::{Combiner, Out};
