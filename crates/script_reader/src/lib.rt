//! Reads a script: returns a file of bytes as a list of statements, or the first fault in it.
#![tactic(auto)]

mod fault;
mod laws;
mod reader;
mod reading;
mod said;
mod said_groups;
mod said_locals;
mod taking;
mod words;

pub use fault::{ReadFault, ReadStop};
pub use laws::{script_law, version_law};
pub use reading::{MOST_SCRIPT_BYTES, read_script};
pub use script_rules::{FaultKind, Form, Item, Peer, Scripts, Stmt, Who};
