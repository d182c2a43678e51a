//! How a program ends: its status and the texts on its two sinks, from its words, its files and what it ran.
#![tactic(auto)]

mod complaint;
mod delivery;
mod reading;
mod report;
mod status;
mod words;

pub use complaint::Complaint;
pub use delivery::deliver;
pub use reading::read_file;
pub use report::Report;
pub use status::Status;
pub use words::{file_named, is_option, ue_count};
