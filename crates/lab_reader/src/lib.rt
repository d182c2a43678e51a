//! Labs and their reader: a lab is a list of raw steps of several cores.
#![tactic(auto)]

mod faults;
mod places;
mod reading;
mod said;
mod steps;
mod words;

pub use faults::{LabFault, LabKind, LabStop};
pub use places::{HeapLine, HeapWord};
pub use reading::{MOST_LAB_BYTES, read_lab};
pub use steps::{Action, Step};
