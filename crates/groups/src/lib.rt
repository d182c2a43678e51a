//! Collective calls as sends, receives and folds.
#![tactic(auto)]

mod collectives;
mod expansion;
mod folds;
mod laws;
mod operations;

pub use collectives::{Coll, Step};
pub use expansion::{step, steps};
pub use folds::{Shape, fold_into};
pub use laws::{fold_law, peers_law};
pub use operations::{Op, Ty};
