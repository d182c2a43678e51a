//! The two layouts of the message passing buffer.

use crate::names::Rank;
use crate::places::FlagAt;
use crate::signals::Signal;

/// How the 256 lines of a core's message passing buffer are used. This is this project's profile; the
/// library of RCCE has the same two kinds of flags.
///
/// With line flags each flag is word 0 of a line of its own: `sent` flags in lines 1 to 48 by the
/// sender's rank, `ready` flags in lines 49 to 96 by the receiver's rank, gather flags from line 97 and
/// release flags from line 105 by communicator, and a chunk buffer of 112 lines from line 113.
///
/// With bit flags line 1 holds the `sent` flags as the bits of word 0 and the `ready` flags as the bits of
/// word 1; gather flags are in lines 2 to 9, release flags in lines 10 to 17, and the chunk buffer has 207
/// lines from line 18.
///
/// In both, line 0 is the header, lines 225 to 255 are the heap, and the gather and release flags of
/// communicators 8 to 15 stand in word 1 of the lines of communicators 0 to 7.
#[derive(Clone, Copy, PartialEq, Eq)]
pub enum Layout {
    LineFlags,
    BitFlags,
}

impl Layout {
    ghost use Rattle.std.specs.Prelude.{◌≡◌, ◌<◌, ◌↔◌, IsTrue};
    ghost use Rattle.scc_base.specs.declared.layouts.Layout.TheVariants.{LineFlags, BitFlags};
    ghost use Rattle.scc_base.specs.declared.signals.Signal.TheVariants.{Sent, Ready};
    ghost use Rattle.scc_base.specs.Layouts.{chunk_size, first_chunk, signal_at, gather_at, release_at};

    /// The bytes of a chunk with line flags.
    pub const LINE_CHUNK: u32 = 3_584;

    /// The bytes of a chunk with bit flags.
    pub const BIT_CHUNK: u32 = 6_624;

    pub const fn lines() -> Layout
        ensures gives { result ≡ LineFlags }
    {
        Layout::LineFlags
    }

    pub const fn bits() -> Layout
        ensures gives { result ≡ BitFlags }
    {
        Layout::BitFlags
    }

    /// Whether `sent` and `ready` flags are bits of one word, changed under a core's register.
    pub fn is_bits(self) -> bool
        ensures tells { IsTrue result ↔ (self ≡ BitFlags) }
    {
        match self {
            Layout::LineFlags => false,
            Layout::BitFlags => true,
        }
    }

    /// The bytes of the chunk buffer.
    pub fn chunk_bytes(self) -> u32
        ensures gives { result ≡ chunk_size self }
    {
        match self {
            Layout::LineFlags => Layout::LINE_CHUNK,
            Layout::BitFlags => Layout::BIT_CHUNK,
        }
    }

    /// The first line of the chunk buffer.
    pub fn first_chunk_line(self) -> u8
        ensures gives { result ≡ first_chunk self }
    {
        match self {
            Layout::LineFlags => 113,
            Layout::BitFlags => 18,
        }
    }

    /// The flag of a signal that this rank raises, at the core of the rank that waits for it.
    #[inline]
    pub fn signal(self, signal: Signal, by: Rank) -> FlagAt
        ensures gives { result ≡ signal_at self signal by }
    {
        match self {
            Layout::LineFlags => FlagAt::new(signal.first_line() + by.number(), 0, None),
            Layout::BitFlags => FlagAt::new(1, signal.word(), Some(by.number())),
        }
    }

    /// The flag that a sender raises at the receiver's core when a chunk is in the sender's buffer.
    pub fn sent(self, from: Rank) -> FlagAt
        ensures gives { result ≡ signal_at self Sent from }
    {
        self.signal(Signal::Sent, from)
    }

    /// The flag that a receiver raises at the sender's core when it has taken the chunk.
    pub fn ready(self, by: Rank) -> FlagAt
        ensures gives { result ≡ signal_at self Ready by }
    {
        self.signal(Signal::Ready, by)
    }

    /// The gather flag of a communicator, at a member's core: it tells that the member has entered a barrier.
    pub fn gather(self, comm: u8) -> FlagAt
        requires below { comm < 16 }
        ensures gives { result ≡ gather_at self comm }
    {
        match self {
            Layout::LineFlags => FlagAt::new(97 + comm % 8, comm / 8, None),
            Layout::BitFlags => FlagAt::new(2 + comm % 8, comm / 8, None),
        }
    }

    /// The release flag of a communicator, at a member's core: it tells that the member may leave the barrier.
    pub fn release(self, comm: u8) -> FlagAt
        requires below { comm < 16 }
        ensures gives { result ≡ release_at self comm }
    {
        match self {
            Layout::LineFlags => FlagAt::new(105 + comm % 8, comm / 8, None),
            Layout::BitFlags => FlagAt::new(10 + comm % 8, comm / 8, None),
        }
    }
}
