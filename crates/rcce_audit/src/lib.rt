//! Logs of calls: their text, how it is read, and whether the calls of a log are legal.
#![tactic(auto)]

mod faults;
mod held;
mod judging;
mod laws;
mod lines;
mod lists;
mod logs;
mod progress;
mod reader;
mod reading;
mod steps;
mod verdicts;
pub mod words;
mod writing;

pub use faults::{LogFault, LogKind, LogStop};
pub use held::{CallList, HeldLog};
pub use judging::audit;
pub use laws::{numbers_law, size_law, text_law, verdict_law};
pub use lines::{CommSplit, begins_comm, comm_said, rank_said};
pub use lists::{no_calls, push_call};
pub use logs::{Log, LogCall};
pub use reading::{MOST_LOG_BYTES, read_log};
pub use verdicts::Verdict;
pub use writing::write_lists;
