//! Flags in the message passing buffers: read, waited for and written, as whole words and as single bits.
#![tactic(auto)]

mod flags;
mod laws;
mod looks;
mod writes;

pub use flags::{flag_alloc, flag_free};
pub use laws::{heap_law, tries_law};
pub use looks::{flag_read, look_flag, look_word, wait_until};
pub use scc_base::FlagAt as Flag;
pub use writes::{change_flag, flag_write, store_word};
