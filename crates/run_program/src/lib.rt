//! `rccerun`: runs a script of messages between units of execution, and prints what they print.
#![tactic(auto)]

mod counts;
mod crew;
mod endings;
mod items;
mod launcher;
mod lines;
mod loaded;
mod loading;
mod report;
mod run;
mod values;

pub use crew::crew_of;
pub use endings::Endings;
pub use launcher::rccerun;
pub use lines::write_end;
pub use loaded::Loaded;
pub use loading::load;
pub use report::{write_printed, write_unfinished};
pub use run::Run;
