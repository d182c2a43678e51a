//! Symmetric allocation of lines of the message passing buffer.
#![tactic(auto)]

mod heap;

pub use heap::{Heap, MallocFault, Run};
