//! A posted message, with its bytes and without them.

use crate::registers::Register;
use scc_base::{PostHead, Rank};

/// A message that was posted and not taken yet: its target rank, its head and bytes, and the line of the statement that posted
/// it.
#[derive(Drop)]
pub struct Posted {
    pub to: Rank,
    pub head: PostHead,
    pub bytes: Register,
    pub line: u32,
}

/// A message that was posted and not taken yet, without its bytes.
#[derive(Clone, Copy)]
pub struct InFlight {
    pub line: u32,
    pub to: Rank,
    pub head: PostHead,
}
