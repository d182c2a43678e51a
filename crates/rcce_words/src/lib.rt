//! What programs are told: the launcher's words and host file, and the words and the file of a script.
#![tactic(auto)]

mod command;
mod cores;
mod flags;
mod host_file;
mod said;
mod script_files;
mod script_words;
mod words;

pub use command::{Job, WordFault, Work, complaint, parse_words, word_at};
pub use host_file::{HostFault, HostKind, MOST_HOST_BYTES, default_hosts, read_hosts};
pub use script_files::read_script_file;
pub use script_words::{ScriptJob, parse_script_words, script_job};
pub use words::arguments;
