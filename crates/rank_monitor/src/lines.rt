//! The noted words of a header line.

ghost use Rattle.std.specs.Prelude.{◌≡◌, SomeIff};
ghost use Rattle.scc_base.specs.Heads.{IsHead};

use scc_base::{Head, Kind, PostHead};

/// The noted words of a header line.
#[derive(Clone, Copy)]
pub struct NotedLine {
    pub words: [Option<u64>; 4],
}

/// The head that three words encode, if a message may have it.
fn head_said(kind: u64, comm: u64, len: u64) -> Option<Head>
    ensures says { SomeIff result
        (IsHead (record { kind = kind; comm = comm; len = len }))
        (record { kind = kind; comm = comm; len = len }) }
{
    let kind = Kind::from_number(u8::try_from(kind).ok()?)?;
    Head::new(kind, u8::try_from(comm).ok()?, u32::try_from(len).ok()?)
}

impl NotedLine {
    ghost use Rattle.std.specs.Prelude.{◌≡◌, ◌<◌, []};
    ghost use Rattle.scc_proto.specs.Messages.{Notes, note_word};
    ghost use Rattle.scc_proto.specs.Moves.{is_posted};
    ghost use Rattle.scc_proto.specs.Permission.{is_whole_header};
    ghost use Rattle.rank_monitor.specs.Noted.{IsLineOf, TellsHead};

    /// No word is noted.
    pub(crate) fn new() -> NotedLine
        ensures none { IsLineOf result [] }
    {
        NotedLine { words: [None; 4] }
    }

    /// The line after one word is noted: the new value replaces the old one.
    pub(crate) fn with(self, word: u8, value: u64) -> NotedLine
        requires below { word < 4 }
        ensures notes { (notes : Notes) → IsLineOf self notes → IsLineOf result (note_word word value notes) }
    {
        let mut words = self.words;
        words[word as usize] = Some(value);
        NotedLine { words }
    }

    /// The head that the first three words encode, if a message may have it.
    pub(crate) fn head(&self) -> Option<Head>
        ensures says { (notes : Notes) → IsLineOf self.now notes → TellsHead notes result }
    {
        let first = self.words[0];
        let Some(kind) = first else {
            return None;
        };
        let second = self.words[1];
        let Some(comm) = second else {
            return None;
        };
        let third = self.words[2];
        let Some(len) = third else {
            return None;
        };
        head_said(kind, comm, len)
    }

    /// Whether the sender posts the message.
    pub(crate) fn is_posted(&self) -> bool
        ensures tells { (notes : Notes) → IsLineOf self.now notes → result ≡ is_posted notes }
    {
        self.words[3].unwrap_or(0) == 1
    }

    /// Whether all four words are those of a header line that a message may have.
    pub(crate) fn is_whole(&self) -> bool
        ensures tells { (notes : Notes) → IsLineOf self.now notes → result ≡ is_whole_header notes }
    {
        let Some(head) = self.head() else {
            return false;
        };
        let Some(word) = self.words[3] else {
            return false;
        };
        if word == 1 {
            return PostHead::new(head).is_some();
        }
        word == 0
    }
}
