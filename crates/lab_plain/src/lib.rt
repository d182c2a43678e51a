//! The meaning of labs, and the lines that they print.
#![tactic(auto)]

mod accesses;
mod lines;
mod parts;
mod said;

pub use said::{Said, Source, Stopped};
