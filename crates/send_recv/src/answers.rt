//! What a turn of a receive comes to.

use scc_base::{Head, Spot};

/// What one turn of a receive came to.
#[derive(Drop)]
pub enum RecvTurn {
    /// It went on, and is not at its end.
    Moved,
    /// Its one try at this spot was vain.
    Waiting(Spot),
    /// The message is received.
    Done,
    /// The message that was sent has this head, and not the one that was asked for. It stays untaken.
    Mismatch(Head),
}
