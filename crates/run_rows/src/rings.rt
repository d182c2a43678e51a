//! A worker that a user writes: ranks that pass a number round a ring, by sends and receives alone. `ring_turns` has their turns.

use line_cache::Never;
use put_get::Core;
use scc_base::{Head, Rank};
use send_recv::{RecvOp, SendOp, Slot};

/// The unfinished message of a rank of the ring.
#[derive(Drop)]
pub(crate) enum Message {
    Sending(SendOp),
    Receiving(RecvOp),
    Over,
}

/// A rank of the ring. The first one sends its number on, and gets it back last. Each other one receives it, and sends it on. Whoever
/// receives it adds one.
#[derive(Drop)]
pub(crate) struct Passer {
    pub(crate) core: Core<Never>,
    pub(crate) slot: Slot,
    pub(crate) head: Head,
    pub(crate) from: Rank,
    pub(crate) to: Rank,
    pub(crate) is_first: bool,
    pub(crate) number: [u8; 1],
    pub(crate) message: Message,
    // Whether it has met a message with another head.
    pub(crate) stopped: bool,
}
