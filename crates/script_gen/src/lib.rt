//! The generator of scripts: a ring of messages and sums over all ranks, by one number.
#![tactic(auto)]

mod generate;
mod laws;

pub use generate::gen_script;
pub use laws::{generated_scripts_are_read, generated_scripts_are_short, sent_messages_came};
