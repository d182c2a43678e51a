//! The moves of a sender.

use crate::bools::both;
use crate::lines::NotedLine;
use crate::looks::Look;
use crate::works::{Posted, Standing, Work};
use scc_base::{Call, PostHead, Rank};

impl Work {
    ghost use Rattle.std.specs.Prelude.{◌≡◌, ◌<◌, ℕ, None, option_map};
    ghost use Rattle.scc_base.specs.declared.signals.Signal.TheVariants.{Sent, Ready};
    ghost use Rattle.scc_proto.specs.Moves.{DraftChunk, DraftHeader, LookSignal, LowerSignal, RaiseSignal, StoreHeap, look_ready, post_answered};
    ghost use Rattle.scc_proto.specs.Permission.{is_answered_by, may_raise};
    ghost use Rattle.scc_proto.specs.Stages.{Record};
    ghost use Rattle.scc_base.specs.Places.{WordAt};
    ghost use Rattle.rank_monitor.specs.Following.{Decides, MovesOn, OpensDraft};
    ghost use Rattle.rank_monitor.specs.Standing.{StandsFor};
    ghost use Rattle.rank_monitor.specs.Steps.{look_of};
    ghost use Rattle.scc_base.specs.Layouts.{most_chunk_words};

    /// Whether the sender may write a header word: before it raises the first chunk, with no post in flight.
    pub(crate) fn may_draft_header(&self) -> bool
        ensures decides { (k v : ℕ) → Decides self.now (DraftHeader k v) result }
    {
        let free = self.post.is_none();
        let open = self.standing.opens_header();
        free && open
    }

    /// Whether the sender may write a chunk word: while no chunk is raised, with no post in flight.
    pub(crate) fn may_draft_chunk(&self) -> bool
        ensures decides { (k v : ℕ) → Decides self.now (DraftChunk k v) result }
    {
        let free = self.post.is_none();
        let open = self.standing.opens_chunk();
        free && open
    }

    /// Whether `sent` may be raised at a rank.
    pub(crate) fn may_raise(&self, to: Rank) -> bool
        ensures decides { Decides self.now (RaiseSignal Sent to) result }
    {
        let free = self.post.is_none();
        let ready = self.is_ready_for(to);
        free && ready
    }

    /// Whether a complete chunk for it is written.
    pub(crate) fn is_ready_for(&self, to: Rank) -> bool
        ensures tells { (rec : Record) → StandsFor self.now rec → result ≡ may_raise self.now.size to rec.stage }
    {
        if let Standing::Filling { to: receiver, head } = self.standing {
            let drafted = self.is_drafted(self.left(head));
            return both(receiver == to, drafted);
        }
        let Standing::Drafting = self.standing else {
            return false;
        };
        let Some(head) = self.header.head() else {
            return false;
        };
        let count = (head.len() as usize).min(self.size as usize);
        let line = self.header.is_whole();
        let drafted = self.is_drafted(count);
        both(line, drafted)
    }

    /// Whether `ready` may be lowered: of the message that is being sent, or else of the posted one.
    pub(crate) fn may_go_on(&self, by: Rank) -> bool
        ensures decides { Decides self.now (LowerSignal Ready by) result }
    {
        if let Standing::Answered { to, .. } = self.standing {
            return to == by;
        }
        if self.standing.is_sending() {
            return false;
        }
        self.is_answered_by(by)
    }

    fn is_answered_by(&self, by: Rank) -> bool
        ensures tells { (rec : Record) → StandsFor self.now rec → result ≡ is_answered_by by rec.post }
    {
        let Some(post) = self.post else {
            return false;
        };
        post.to == by && post.is_answered
    }

    /// Whether a heap word may be stored.
    pub(crate) fn leaves_heap(&self) -> bool
        ensures decides { (place : WordAt) (v : ℕ) → Decides self.now (StoreHeap place v) result }
    {
        if let Standing::Filling { .. } = self.standing {
            return !self.chunk.some;
        }
        self.standing.leaves_words()
    }

    /// Forgets the words of an earlier half-written message.
    fn begin_draft(&mut self)
        ensures size { self.new.size ≡ self.old.size }
        ensures opens { OpensDraft self.old self.new }
    {
        if !self.standing.is_at_rest() {
            return;
        }
        self.header = NotedLine::new();
        self.chunk.clear();
        self.standing = Standing::Drafting;
    }

    pub(crate) fn draft_header(&mut self, word: u8, value: u64)
        requires below { word < 4 }
        ensures size { self.new.size ≡ self.old.size }
        ensures moves { MovesOn self.old self.new (DraftHeader word value) None }
    {
        self.begin_draft();
        self.header = self.header.with(word, value);
    }

    pub(crate) fn draft_chunk(&mut self, word: u16, value: u64)
        requires below { word < most_chunk_words }
        ensures size { self.new.size ≡ self.old.size }
        ensures moves { MovesOn self.old self.new (DraftChunk word value) None }
    {
        self.begin_draft();
        self.chunk.note(word, value);
    }

    /// A later chunk is raised, or a first one with its header line; a message that is posted is finished by it.
    pub(crate) fn raise_sent(&mut self, to: Rank) -> Option<Call>
        ensures size { self.new.size ≡ self.old.size }
        ensures moves { MovesOn self.old self.new (RaiseSignal Sent to) result }
    {
        if let Standing::Filling { to: receiver, head } = &self.standing {
            self.standing = Standing::Raised {
                to: *receiver,
                head: *head,
            };
            return None;
        }
        let Some(head) = self.header.head() else {
            return None;
        };
        self.bytes.clear();
        if !self.header.is_posted() {
            self.standing = Standing::Raised { to, head };
            return None;
        }
        let Some(post) = PostHead::new(head) else {
            return None;
        };
        let count = self.left(head);
        self.chunk.push_bytes(&mut self.bytes, count);
        self.standing = Standing::Idle;
        self.post = Some(Posted {
            to,
            is_answered: false,
        });
        Some(Call::Post { to, head: post })
    }

    pub(crate) fn look_ready(&mut self, look: &Look)
        ensures size { self.new.size ≡ self.old.size }
        ensures moves { MovesOn self.old self.new (LookSignal Ready (look_of look.now)) None }
    {
        self.answer_chunk(look);
        self.answer_post(look);
    }

    /// The sender sees that the raised chunk was taken.
    fn answer_chunk(&mut self, look: &Look)
        ensures size { self.new.size ≡ self.old.size }
        ensures stands { (rec : Record) → StandsFor self.old rec
            → StandsFor self.new (record rec { stage = look_ready (look_of look.now) rec.stage }) }
    {
        let Standing::Raised { to, head } = &self.standing else {
            return;
        };
        if !look.sees(*to) {
            return;
        }
        self.standing = Standing::Answered {
            to: *to,
            head: *head,
        };
    }

    /// The sender of a posted message sees that it was taken.
    fn answer_post(&mut self, look: &Look)
        ensures size { self.new.size ≡ self.old.size }
        ensures stands { (rec : Record) → StandsFor self.old rec
            → StandsFor self.new (record rec { post = option_map (post_answered (look_of look.now)) rec.post }) }
    {
        let Some(post) = self.post else {
            return;
        };
        if !look.sees(post.to) {
            return;
        }
        self.post = Some(Posted {
            to: post.to,
            is_answered: true,
        });
    }

    pub(crate) fn lower_ready(&mut self) -> Option<Call>
        ensures size { self.new.size ≡ self.old.size }
        ensures moves { (by : ℕ) → MovesOn self.old self.new (LowerSignal Ready by) result }
    {
        self.post = None;
        let Standing::Answered { to, head } = &self.standing else {
            return None;
        };
        let to = *to;
        let head = *head;
        let last = self.is_last(head);
        let count = self.left(head);
        self.chunk.push_bytes(&mut self.bytes, count);
        if last {
            self.standing = Standing::Idle;
            return Some(Call::Send { to, head });
        }
        self.chunk.clear();
        self.standing = Standing::Filling { to, head };
        None
    }
}
