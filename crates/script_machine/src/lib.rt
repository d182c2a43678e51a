//! The machine of a rank: its primitives, what it holds, its next action, and its state after that.
#![tactic(auto)]

mod calls;
mod course;
mod ends;
mod facing;
mod held;
mod machines;
mod nestings;
mod posts;
mod prims;
mod prints;
mod reckoning;
mod registers;
mod rooms;
mod statements;
mod trials;
mod walk;

pub use ends::UeEnd;
pub use facing::Facing;
pub use machines::Machine;
pub use posts::{InFlight, Posted};
pub use prims::{Action, Content, Primitive, Source, Standing};
pub use prints::{PrintedItem, Prints};
pub use reckoning::Lengths;
pub use registers::Register;
pub use walk::Walk;
