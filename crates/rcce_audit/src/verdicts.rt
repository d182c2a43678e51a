//! What an audit says.

use scc_base::Rank;

/// Whether the calls of a log are legal.
#[derive(Clone, Copy)]
pub enum Verdict {
    Yes,
    /// The lowest rank whose list the steps of legality do not use up, and its first call left, counted from 1.
    No { rank: Rank, call: u32 },
}
