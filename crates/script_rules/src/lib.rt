//! The rules of scripts: what a statement is, what it needs and does, and the checks of a statement against those before it.
#![tactic(auto)]

mod checks;
mod effect;
mod ends;
mod fault;
mod laws;
mod name;
mod repeats;
mod run;
mod script;
mod tally;
mod uses;
mod version;

pub use checks::{has_no_parent, is_new_split, is_unknown, refuses_by};
pub use effect::{
    At, Cost, Effect, Fit, Group, Nesting, Size, Target, Use, Uses, effect_of, parent_of,
};
pub use ends::tell_ends;
pub use fault::FaultKind;
pub use laws::numbers_law;
pub use name::Name;
pub use repeats::{
    MOST_OPEN, Open, innermost, is_stray, is_too_deep, note_repeat, turns_in, turns_too_often,
};
pub use run::Run;
pub use script::{Form, Item, OwnStmt, Peer, Scripts, Stmt, Who, rules_of};
pub use tally::{MOST_OPERATIONS, Tally, no_tallies, note_item};
pub use uses::{is_too_long, reads};
pub use version::Version;
