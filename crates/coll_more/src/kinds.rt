//! The kinds of collective calls, and the calls that they are made of.

use scc_base::Rank;

/// A collective call of all ranks of the world, with root 0 (this project's profile: RCCE itself has neither).
#[derive(Clone, Copy)]
pub enum More {
    /// The pieces of all ranks come to the root.
    Gather,
    /// Each rank gets its piece of the root's.
    Scatter,
    /// The pieces of all ranks come to each rank.
    Allgather,
    /// Each rank gets its piece of every rank's.
    Alltoall,
}

/// What a message of a collective call does at a rank.
#[derive(Clone, Copy)]
pub enum Way {
    /// It sends bytes of `src`.
    Gives,
    /// It sends bytes of `dst`.
    Shares,
    /// It is received into `dst`.
    Takes,
}

/// One message of a collective call at a rank: with whom, which way, the first byte of its piece, and its length.
#[derive(Clone, Copy)]
pub struct PieceCall {
    pub peer: Rank,
    pub way: Way,
    pub first: usize,
    pub len: u32,
}
