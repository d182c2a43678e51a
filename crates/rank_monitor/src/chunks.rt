//! The noted words of a chunk buffer.

ghost use Rattle.std.specs.Prelude.{◌≡◌};

use scc_base::{Head, Layout, byte_of};

/// The longest message, in bytes.
pub(crate) const MOST: usize = Head::MOST as usize;

/// The most words of a chunk in either layout.
pub(crate) const WORDS: usize = Layout::BIT_CHUNK as usize / 8;

/// The words of a chunk buffer, each where it is noted, and whether any is.
#[derive(Drop)]
pub struct NotedChunk {
    pub words: [Option<u64>; WORDS],
    pub some: bool,
}

impl NotedChunk {
    ghost use Rattle.std.specs.Prelude.{◌≡◌, ◌+◌, ◌*◌, ◌<◌, ◌≤◌, ◌++◌, [], vec_capacity, vec_len};
    ghost use Rattle.scc_proto.specs.Messages.{Notes, byte_at, bytes_from, has_all, is_zero_from, note_word};
    ghost use Rattle.scc_proto.specs.Permission.{is_empty};
    ghost use Rattle.rank_monitor.specs.Noted.{IsChunkOf};
    ghost use Rattle.scc_base.specs.Heads.{most_message};
    ghost use Rattle.scc_base.specs.Layouts.{most_chunk, most_chunk_words};

    /// No word is noted.
    pub(crate) fn new() -> NotedChunk
        ensures none { IsChunkOf result [] }
    {
        NotedChunk {
            words: [None; WORDS],
            some: false,
        }
    }

    /// No word is noted any more.
    pub(crate) fn clear(&mut self)
        ensures none { IsChunkOf self.new [] }
    {
        self.words = [None; WORDS];
        self.some = false;
    }

    /// Notes one word more; its new value replaces the one noted before.
    pub(crate) fn note(&mut self, word: u16, value: u64)
        requires below { word < most_chunk_words }
        ensures notes { (notes : Notes) → IsChunkOf self.old notes → IsChunkOf self.new (note_word word value notes) }
    {
        self.words[word as usize] = Some(value);
        self.some = true;
    }

    /// Whether the first words are all noted.
    pub(crate) fn has_all(&self, count: usize) -> bool
        requires within { count ≤ most_chunk_words }
        ensures tells { (notes : Notes) → IsChunkOf self.now notes → result ≡ has_all notes count }
    {
        for at in 0..count {
            if self.words[at].is_none() {
                return false;
            }
        }
        true
    }

    /// A byte of the noted words, 0 where its word is not noted.
    fn byte(&self, at: usize) -> u8
        requires below { at < most_chunk }
        ensures gives { (notes : Notes) → IsChunkOf self.now notes → result ≡ byte_at notes at }
    {
        byte_of(self.words[at / 8].unwrap_or(0), at % 8)
    }

    /// Whether the `count` bytes from byte `start` on are zero.
    pub(crate) fn is_zero_from(&self, start: usize, count: usize) -> bool
        requires within { start + count ≤ most_chunk }
        ensures tells { (notes : Notes) → IsChunkOf self.now notes → result ≡ is_zero_from notes start count }
    {
        let mut at = start;
        let mut left = count;
        while left > 0 {
            if self.byte(at) != 0 {
                return false;
            }
            at += 1;
            left -= 1;
        }
        true
    }

    /// Appends the first bytes, as far as a message may have them.
    pub(crate) fn push_bytes(&self, bytes: &mut Vec<u8>, count: usize)
        requires room { most_message ≤ vec_capacity bytes.old }
        requires within { count ≤ most_chunk }
        ensures room { vec_capacity bytes.new ≡ vec_capacity bytes.old }
        ensures items { (notes : Notes) → IsChunkOf self.now notes → vec_len bytes.old + count ≤ most_message
            → bytes.new.items ≡ bytes.old.items ++ bytes_from notes 0 count }
    {
        let mut at = 0;
        while at < count {
            if bytes.len() >= MOST {
                return;
            }
            bytes.push_reserved(self.byte(at));
            at += 1;
        }
    }
}
