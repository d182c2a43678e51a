//! Where the operations stand in their messages.

/// What a receive does next.
#[derive(Clone, Copy)]
pub enum RecvStage {
    /// It looks whether a chunk was sent.
    Look,
    /// It reads the sender's header line.
    Header,
    /// It lowers the `sent` flag, and so takes the chunk.
    Lower,
    /// It reads this line of the chunk.
    Lines(u8),
    /// It raises the `ready` flag.
    Raise,
    /// The message is received.
    Finished,
}

/// What a send or a post does next.
#[derive(Clone, Copy)]
pub enum SendStage {
    /// It writes its header line, once the slot is empty.
    Header,
    /// It writes this line of the chunk.
    Lines(u8),
    /// It stores what still waits in the write-combining buffer, with bit flags.
    Flush,
    /// It raises the `sent` flag.
    Raise,
    /// It looks whether the chunk was taken.
    Look,
    /// It lowers the `ready` flag.
    Lower,
    /// The message is sent, or is on its way where it is posted.
    Finished,
}
