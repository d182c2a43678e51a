//! The moves of a receiver.

ghost use Rattle.std.specs.Prelude.{ℕ, if◌then◌else◌, Option, Some, []};
ghost use Rattle.scc_base.specs.declared.signals.Signal.TheVariants.{Sent, Ready};
ghost use Rattle.scc_proto.specs.Messages.{Notes};
ghost use Rattle.rank_monitor.specs.Standing.{KeepsSaid};
ghost use Rattle.rank_monitor.specs.Steps.{look_of};

use crate::bools::both;
use crate::lines::NotedLine;
use crate::looks::Look;
use crate::works::{Standing, Work};
use scc_base::{Call, Rank};

/// The ranks whose `sent` flag is seen: no header word of them is loaded since.
fn see(said: &mut [Option<NotedLine>; 48], look: &Look)
    ensures sees { (notes : ℕ → Option Notes) → KeepsSaid said.old notes
        → KeepsSaid said.new (λ j. if look_of look.now j then Some [] else notes j) }
{
    for at in 0..48 {
        if !look.sees(Rank::of(at as u8)) {
            continue;
        }
        said[at] = Some(NotedLine::new());
    }
}

impl Work {
    ghost use Rattle.std.specs.Prelude.{◌≡◌, ◌<◌, true, ℕ, None, Some};
    ghost use Rattle.scc_proto.specs.Messages.{Notes};
    ghost use Rattle.scc_proto.specs.Moves.{LookSignal, LowerSignal, RaiseSignal, ReadChunk, ReadHeader, lower_sent};
    ghost use Rattle.scc_proto.specs.Permission.{may_take};
    ghost use Rattle.scc_proto.specs.Stages.{Record};
    ghost use Rattle.rank_monitor.specs.Noted.{IsLineOf};
    ghost use Rattle.rank_monitor.specs.Standing.{StandsFor};
    ghost use Rattle.rank_monitor.specs.Following.{Decides, MovesOn};
    ghost use Rattle.rank_monitor.specs.Steps.{look_of};
    ghost use Rattle.scc_base.specs.Layouts.{most_chunk_words};

    /// Whether `sent` may be lowered.
    pub(crate) fn may_take(&self, from: Rank) -> bool
        ensures decides { Decides self.now (LowerSignal Sent from) result }
    {
        let Some(line) = self.said[from.number() as usize] else {
            return false;
        };
        if let Standing::Between { from: sender, .. } = self.standing {
            return sender == from;
        }
        if !self.standing.is_at_rest() {
            return false;
        }
        line.head().is_some()
    }

    /// Whether `ready` may be raised.
    pub(crate) fn has_taken(&self, to: Rank) -> bool
        ensures decides { Decides self.now (RaiseSignal Ready to) result }
    {
        let Standing::Taking { from, head } = self.standing else {
            return false;
        };
        let whole = self.is_whole(self.left(head));
        both(from == to, whole)
    }

    pub(crate) fn look_sent(&mut self, look: &Look)
        ensures size { self.new.size ≡ self.old.size }
        ensures moves { MovesOn self.old self.new (LookSignal Sent (look_of look.now)) None }
    {
        see(&mut self.said, look);
    }

    pub(crate) fn read_header(&mut self, from: Rank, word: u8, value: u64)
        requires below { word < 4 }
        ensures size { self.new.size ≡ self.old.size }
        ensures moves { MovesOn self.old self.new (ReadHeader from word value) None }
    {
        let at = from.number() as usize;
        let Some(line) = self.said[at] else {
            return;
        };
        self.said[at] = Some(line.with(word, value));
    }

    pub(crate) fn read_chunk(&mut self, from: Rank, word: u16, value: u64)
        requires below { word < most_chunk_words }
        ensures size { self.new.size ≡ self.old.size }
        ensures moves { MovesOn self.old self.new (ReadChunk from word value) None }
    {
        let Standing::Taking { from: sender, .. } = &self.standing else {
            return;
        };
        if sender.number() != from.number() {
            return;
        }
        self.chunk.note(word, value);
    }

    pub(crate) fn lower_sent(&mut self, from: Rank)
        ensures size { self.new.size ≡ self.old.size }
        ensures moves { MovesOn self.old self.new (LowerSignal Sent from) None }
    {
        let at = from.number() as usize;
        let Some(line) = self.said[at] else {
            return;
        };
        self.begin_chunk(from, line);
        self.said[at] = None;
    }

    /// The receiver takes a first chunk after it loaded the header, and a later one after the chunk before it.
    fn begin_chunk(&mut self, from: Rank, line: NotedLine)
        ensures size { self.new.size ≡ self.old.size }
        ensures stands { (rec : Record) (words : Notes) → StandsFor self.old rec → IsLineOf line words
            → may_take from (Some words) rec.stage ≡ true → StandsFor self.new (record rec { stage = lower_sent from words rec.stage }) }
    {
        if let Standing::Between { from: sender, head } = &self.standing {
            self.standing = Standing::Taking {
                from: *sender,
                head: *head,
            };
            self.chunk.clear();
            return;
        }
        let Some(head) = line.head() else {
            return;
        };
        self.bytes.clear();
        self.chunk.clear();
        self.standing = Standing::Taking { from, head };
    }

    pub(crate) fn raise_ready(&mut self) -> Option<Call>
        ensures size { self.new.size ≡ self.old.size }
        ensures moves { (to : ℕ) → MovesOn self.old self.new (RaiseSignal Ready to) result }
    {
        let Standing::Taking { from, head } = &self.standing else {
            return None;
        };
        let from = *from;
        let head = *head;
        let last = self.is_last(head);
        let count = self.left(head);
        self.chunk.push_bytes(&mut self.bytes, count);
        if last {
            self.standing = Standing::Idle;
            return Some(Call::Recv { from, head });
        }
        self.standing = Standing::Between { from, head };
        None
    }
}
