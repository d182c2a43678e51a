//! What a rank is in the midst of.

ghost use Rattle.std.specs.Prelude.{◌≤◌, vec_capacity};
ghost use Rattle.scc_base.specs.Heads.{most_message};
ghost use Rattle.scc_base.specs.Layouts.{most_chunk};

use crate::chunks::{MOST, NotedChunk};
use crate::lines::NotedLine;
use crate::steps::Step;
use scc_base::{Call, Head, Rank};
use std::alloc::{AllocError, Global};

/// What a rank is in the midst of; one thing at a time.
#[derive(Clone, Copy)]
pub enum Standing {
    /// No call is unfinished.
    Idle,
    /// A header line and a first chunk are half written.
    Drafting,
    /// A later chunk of a message is half written; the earlier chunks are through.
    Filling { to: Rank, head: Head },
    /// A chunk is raised.
    Raised { to: Rank, head: Head },
    /// The raised chunk is taken, and the sender has seen it.
    Answered { to: Rank, head: Head },
    /// Chunks of a message were taken, and none is being taken.
    Between { from: Rank, head: Head },
    /// A chunk is being taken.
    Taking { from: Rank, head: Head },
    /// A barrier was entered. At its root: how many members it has seen, and how many it has released.
    Meeting { comm: u8, seen: u8, released: u8 },
}

impl Standing {
    ghost use Rattle.std.specs.Prelude.{◌≡◌};
    ghost use Rattle.rank_monitor.specs.Standing.{is_at_rest, is_sending, leaves_words, opens_chunk, opens_header};

    /// Whether no call is unfinished.
    pub(crate) fn is_at_rest(self) -> bool
        ensures tells { result ≡ is_at_rest self }
    {
        match self {
            Standing::Idle => true,
            Standing::Drafting
            | Standing::Filling { .. }
            | Standing::Raised { .. }
            | Standing::Answered { .. }
            | Standing::Between { .. }
            | Standing::Taking { .. }
            | Standing::Meeting { .. } => false,
        }
    }

    /// Whether a message is being sent that is not posted.
    pub(crate) fn is_sending(self) -> bool
        ensures tells { result ≡ is_sending self }
    {
        match self {
            Standing::Filling { .. } | Standing::Raised { .. } | Standing::Answered { .. } => true,
            Standing::Idle
            | Standing::Drafting
            | Standing::Between { .. }
            | Standing::Taking { .. }
            | Standing::Meeting { .. } => false,
        }
    }

    /// Whether nothing is half written or being taken, and no barrier is unfinished.
    pub(crate) fn leaves_words(self) -> bool
        ensures tells { result ≡ leaves_words self }
    {
        match self {
            Standing::Idle | Standing::Between { .. } => true,
            Standing::Drafting
            | Standing::Filling { .. }
            | Standing::Raised { .. }
            | Standing::Answered { .. }
            | Standing::Taking { .. }
            | Standing::Meeting { .. } => false,
        }
    }

    /// Whether the rank may write words of a header line.
    pub(crate) fn opens_header(self) -> bool
        ensures tells { result ≡ opens_header self }
    {
        match self {
            Standing::Idle | Standing::Drafting => true,
            Standing::Filling { .. }
            | Standing::Raised { .. }
            | Standing::Answered { .. }
            | Standing::Between { .. }
            | Standing::Taking { .. }
            | Standing::Meeting { .. } => false,
        }
    }

    /// Whether the rank may write words of a chunk.
    pub(crate) fn opens_chunk(self) -> bool
        ensures tells { result ≡ opens_chunk self }
    {
        match self {
            Standing::Idle | Standing::Drafting | Standing::Filling { .. } => true,
            Standing::Raised { .. }
            | Standing::Answered { .. }
            | Standing::Between { .. }
            | Standing::Taking { .. }
            | Standing::Meeting { .. } => false,
        }
    }
}

/// A posted message in flight.
#[derive(Clone, Copy)]
pub struct Posted {
    pub to: Rank,
    pub is_answered: bool,
}

/// The state of a rank's messages and barriers. It has the bytes of a full chunk, and the noted words of its header line and
/// of the chunk in hand. It has the header line noted of each rank whose `sent` was seen, what the rank is in the midst of, its posted
/// message, the values of its gather flags by communicator, and the bytes that are through of its unfinished message.
#[derive(Drop)]
pub struct Work {
    pub size: u32,
    pub header: NotedLine,
    pub chunk: NotedChunk,
    pub said: [Option<NotedLine>; 48],
    pub standing: Standing,
    pub post: Option<Posted>,
    pub flags: [u64; 16],
    pub bytes: Vec<u8>,
    ghost within: { size ≤ most_chunk },
    ghost room: { most_message ≤ vec_capacity bytes },
}

impl Work {
    ghost use Rattle.std.specs.Prelude.{◌≡◌, ◌≤◌, ◌<◌, IfOk};
    ghost use Rattle.scc_proto.specs.Messages.{Notes, Progress, chunk_bytes, is_last, is_whole};
    ghost use Rattle.scc_proto.specs.Permission.{is_drafted};
    ghost use Rattle.scc_proto.specs.Stages.{blank};
    ghost use Rattle.rank_monitor.specs.Following.{Decides, MovesOn};
    ghost use Rattle.rank_monitor.specs.Noted.{IsChunkOf};
    ghost use Rattle.rank_monitor.specs.Standing.{IsInHand, StandsFor};
    ghost use Rattle.rank_monitor.specs.Steps.{IsStepWithin, move_of};
    ghost use Rattle.scc_base.specs.Layouts.{most_chunk};

    /// The work of a rank that has done nothing, if a full chunk has `size` bytes.
    pub fn new(alloc: Global, size: u32) -> Result<Work, AllocError>
        requires within { size ≤ most_chunk }
        ensures size { IfOk result (λ w. w.size ≡ size) }
        ensures stands { IfOk result (λ w. StandsFor w blank) }
    {
        let bytes = Vec::with_capacity(alloc, MOST)?;
        Ok(Work {
            size,
            header: NotedLine::new(),
            chunk: NotedChunk::new(),
            said: [None; 48],
            standing: Standing::Idle,
            post: None,
            flags: [0; 16],
            bytes,
        })
    }

    /// The bytes of the chunk in hand.
    pub(crate) fn left(&self, head: Head) -> usize
        ensures gives { (message : Progress) → IsInHand self.now.size head self.now.bytes.items message
            → result ≡ chunk_bytes self.now.size message }
        ensures within { result ≤ most_chunk }
    {
        let left = (head.len() as usize).saturating_sub(self.bytes.len());
        left.min(self.size as usize)
    }

    /// Whether the chunk in hand, of `count` bytes, has all its words noted.
    pub(crate) fn is_whole(&self, count: usize) -> bool
        requires within { count ≤ most_chunk }
        ensures tells { (message : Progress) (notes : Notes) → IsChunkOf self.now.chunk notes → count ≡ chunk_bytes self.now.size message
            → result ≡ is_whole self.now.size message notes }
    {
        self.chunk.has_all(4 * ((count + 31) / 32))
    }

    /// Whether the chunk in hand, of `count` bytes, has all its words noted, with zeros past its end.
    pub(crate) fn is_drafted(&self, count: usize) -> bool
        requires within { count ≤ most_chunk }
        ensures tells { (message : Progress) (notes : Notes) → IsChunkOf self.now.chunk notes → count ≡ chunk_bytes self.now.size message
            → result ≡ is_drafted self.now.size message notes }
    {
        let whole = 32 * ((count + 31) / 32);
        self.is_whole(count) && self.chunk.is_zero_from(count, whole - count)
    }

    /// Whether no chunk comes after the one in hand.
    pub(crate) fn is_last(&self, head: Head) -> bool
        ensures tells { (message : Progress) → IsInHand self.now.size head self.now.bytes.items message
            → result ≡ is_last self.now.size message }
    {
        (head.len() as usize).saturating_sub(self.bytes.len()) <= self.size as usize
    }

    /// Whether the record permits the move next.
    pub(crate) fn permits(&self, step: &Step) -> bool
        requires within { IsStepWithin step.now }
        ensures decides { Decides self.now (move_of step.now) result }
    {
        match step {
            Step::DraftHeader { .. } => self.may_draft_header(),
            Step::DraftChunk { .. } => self.may_draft_chunk(),
            Step::RaiseSignal { signal, to } => self.permits_raise(*signal, *to),
            Step::LowerSignal { signal, by } => self.permits_lower(*signal, *by),
            Step::FlipGather { comm, value, .. } => self.may_flip(*comm, *value),
            Step::WriteRelease {
                comm,
                place,
                value,
                last,
                ..
            } => self.may_release(*comm, *place, *value, *last),
            Step::StoreHeap { .. } => self.leaves_heap(),
            Step::LookSignal { .. }
            | Step::ReadHeader { .. }
            | Step::ReadChunk { .. }
            | Step::LookGather { .. }
            | Step::LookRelease { .. }
            | Step::Nothing => true,
            Step::Misplaced => false,
        }
    }

    /// Makes one move more, which the record permits, and returns the call that it finishes.
    pub(crate) fn make(&mut self, step: &Step) -> Option<Call>
        requires within { IsStepWithin step.now }
        ensures size { self.new.size ≡ self.old.size }
        ensures moves { MovesOn self.old self.new (move_of step.now) result }
    {
        match step {
            Step::DraftHeader { word, value } => {
                self.draft_header(*word, *value);
                None
            }
            Step::DraftChunk { word, value } => {
                self.draft_chunk(*word, *value);
                None
            }
            Step::RaiseSignal { signal, to } => self.raise(*signal, *to),
            Step::LookSignal { signal, look } => {
                self.look(*signal, look);
                None
            }
            Step::ReadHeader { from, word, value } => {
                self.read_header(*from, *word, *value);
                None
            }
            Step::ReadChunk { from, word, value } => {
                self.read_chunk(*from, *word, *value);
                None
            }
            Step::LowerSignal { signal, by } => self.lower(*signal, *by),
            Step::FlipGather { comm, value, last } => self.flip_gather(*comm, *value, *last),
            Step::LookGather {
                comm,
                place,
                value,
                ..
            } => {
                self.look_gather(*comm, *place, *value);
                None
            }
            Step::WriteRelease { place, last, .. } => self.write_release(*place, *last),
            Step::LookRelease { comm, value } => self.look_release(*comm, *value),
            Step::StoreHeap { .. } | Step::Nothing | Step::Misplaced => None,
        }
    }
}
