//! Events of the cores, the record of a list of events, which event a record permits next, and the law
//! that permitted events keep words and records in agreement.
#![tactic(auto)]

pub mod examples;
mod history;
pub mod laws;
pub mod legal_examples;
pub mod permission_laws;
pub mod permits;
mod ports;
pub mod refusals;

pub use history::History;
pub use ports::Port;
