//! `rccetrace`: a trace is judged, or a script is run and its trace is written.
#![tactic(auto)]

mod launcher;
mod laws;

pub use launcher::rccetrace;
pub use laws::refusal_law;
