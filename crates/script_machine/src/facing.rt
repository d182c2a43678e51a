//! Whom a rank's next call is with.

use scc_base::Rank;

/// Whom a rank's next call is with.
#[derive(Clone, Copy)]
pub enum Facing {
    Nobody,
    /// The rank at the other end of a message.
    One { rank: Rank },
    /// The group of a barrier.
    Group,
}
