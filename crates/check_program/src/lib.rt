//! `rccecheck`: says which messages of a script come, and who waits for whom where it does not finish.
#![tactic(auto)]

mod causes;
mod launcher;
mod lines;
mod report;
mod trouble;
mod waiting;
mod walking;

pub use causes::Cause;
pub use launcher::rccecheck;
pub use waiting::waits_for;
pub use walking::cause;
