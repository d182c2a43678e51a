//! Why a rank waits.

use scc_base::Rank;

/// What is found behind a rank that waits, from rank to rank.
#[derive(Clone, Copy)]
pub enum Cause {
    /// A rank that has finished.
    Finished(Rank),
    /// A rank that refused a message.
    Mismatch(Rank),
    /// Ranks that wait for each other in a ring: the least of them.
    Cycle(Rank),
}
