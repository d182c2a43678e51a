//! Traces of accesses to shared words: their text, and how it is read.
#![tactic(auto)]

mod faults;
mod heads;
mod hosts;
mod laws;
mod lines;
mod reader;
mod traces;
mod walks;
mod words;

pub use faults::{TraceFault, TraceKind};
pub use laws::{numbers_law, said_law};
pub use traces::TraceEvent;
pub use walks::{MOST_TRACE_BYTES, TraceWalk};
