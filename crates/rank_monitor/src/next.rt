//! What the record of a rank allows next, in kinds for error messages.

ghost use Rattle.std.specs.Prelude.{◌≡◌};
ghost use Rattle.scc_proto.specs.Stages.{Record};
ghost use Rattle.rank_monitor.specs.Held.{KeepsHeld};
ghost use Rattle.rank_monitor.specs.Next.{lacks_flags};
ghost use Rattle.rank_monitor.specs.Uses.{role_meant};

use crate::held::{NotedFlags, noted_of};
use crate::monitors::RankMonitor;
use crate::uses::{Use, use_of};
use crate::works::{Standing, Work};
use scc_base::{Access, CoreId, Event, Head, Rank};

/// What the messages and barriers of a rank allow it to store next. A rank is told where the flag is between it and this one.
#[derive(Clone, Copy)]
pub enum NextStore {
    /// No call is unfinished: words of a message, a lowered `sent` whose header is read, a barrier, the heap.
    Begin,
    /// A post is in flight to a rank, so no other message may be written.
    BesidePost { to: Rank },
    /// Words of a header line and of a first chunk, until both are complete.
    Draft,
    /// Both are complete: a raised `sent`.
    Raise,
    /// Words of a later chunk of a message to a rank, of which none is stored yet, or the heap.
    FillFirst { to: Rank },
    /// Words of a later chunk, until it is complete.
    Fill { to: Rank },
    /// It is complete: a raised `sent`.
    RaiseMore { to: Rank },
    /// Nothing, until `ready` is seen.
    SeeReady { by: Rank },
    /// A lowered `ready`.
    LowerReady { by: Rank },
    /// The heap, until `sent` is seen of the rank of which the last chunk came.
    SeeSent { from: Rank },
    /// That `sent`, lowered, or the heap.
    LowerSent { from: Rank },
    /// Nothing, until the chunk is read that is being taken.
    ReadChunk { from: Rank },
    /// It is read: a raised `ready`.
    RaiseReady { to: Rank },
    /// The releases of a barrier, by its root once it has seen all gathers.
    Meet { comm: u8 },
}

/// What a record allows instead of an event that it does not permit.
#[derive(Clone, Copy)]
pub enum NextEvent {
    /// A free, of a register that is held already.
    FreeRegister,
    /// A take, of a register that is not held.
    TakeRegister,
    /// A load of the word of bit flags, under the hold of its core's register.
    LoadFlags,
    /// These stores, and beside them the lowering of this rank's `ready` for a post that it has taken.
    Stores {
        store: NextStore,
        ready: Option<Rank>,
    },
}

impl Work {
    ghost use Rattle.std.specs.Prelude.{◌≡◌, ℕ, Option};
    ghost use Rattle.scc_proto.specs.Messages.{Notes, Progress};
    ghost use Rattle.scc_proto.specs.Stages.{Filling, Idle, Between, InFlight, Record, Sending, Taking};
    ghost use Rattle.rank_monitor.specs.Next.{ready_allowed, store_allowed};
    ghost use Rattle.rank_monitor.specs.Noted.{IsChunkOf};
    ghost use Rattle.rank_monitor.specs.Standing.{IsInHand, KeepsPost, KeepsSaid, StandsFor};

    /// If no call is unfinished.
    fn idle_allowed(&self) -> NextStore
        ensures gives { (size : ℕ) (post : Option InFlight) (notes : ℕ → Option Notes) → KeepsPost self.now.post post
            → result ≡ store_allowed size Idle post notes }
    {
        match self.post {
            None => NextStore::Begin,
            Some(post) => NextStore::BesidePost { to: post.to },
        }
    }

    /// While a later chunk is half written.
    fn filling_allowed(&self, to: Rank, head: Head) -> NextStore
        ensures gives { (message : Progress) (chunk : Notes) (post : Option InFlight) (notes : ℕ → Option Notes)
            → IsInHand self.now.size head self.now.bytes.items message → IsChunkOf self.now.chunk chunk
            → result ≡ store_allowed self.now.size (Sending to Filling message chunk) post notes }
    {
        if !self.chunk.some {
            return NextStore::FillFirst { to };
        }
        if self.is_drafted(self.left(head)) {
            NextStore::RaiseMore { to }
        } else {
            NextStore::Fill { to }
        }
    }

    /// Between two chunks that are taken.
    fn pause_allowed(&self, from: Rank) -> NextStore
        ensures gives { (size : ℕ) (message : Progress) (post : Option InFlight) (notes : ℕ → Option Notes) → KeepsSaid self.now.said notes
            → result ≡ store_allowed size (Between from message) post notes }
    {
        let line = self.said[from.number() as usize];
        if line.is_some() {
            NextStore::LowerSent { from }
        } else {
            NextStore::SeeSent { from }
        }
    }

    /// While a chunk is being taken.
    fn taking_allowed(&self, from: Rank, head: Head) -> NextStore
        ensures gives { (message : Progress) (chunk : Notes) (post : Option InFlight) (notes : ℕ → Option Notes)
            → IsInHand self.now.size head self.now.bytes.items message → IsChunkOf self.now.chunk chunk
            → result ≡ store_allowed self.now.size (Taking from message chunk) post notes }
    {
        if self.is_whole(self.left(head)) {
            NextStore::RaiseReady { to: from }
        } else {
            NextStore::ReadChunk { from }
        }
    }

    /// The stores that messages and barriers allow next.
    fn store_allowed(&self) -> NextStore
        ensures gives { (rec : Record) → StandsFor self.now rec → result ≡ store_allowed self.now.size rec.stage rec.post rec.notes }
    {
        match self.standing {
            Standing::Idle => self.idle_allowed(),
            Standing::Drafting => {
                if self.is_ready_for(Rank::of(0)) {
                    NextStore::Raise
                } else {
                    NextStore::Draft
                }
            }
            Standing::Filling { to, head } => self.filling_allowed(to, head),
            Standing::Raised { to, .. } => NextStore::SeeReady { by: to },
            Standing::Answered { to, .. } => NextStore::LowerReady { by: to },
            Standing::Between { from, .. } => self.pause_allowed(from),
            Standing::Taking { from, head } => self.taking_allowed(from, head),
            Standing::Meeting { comm, .. } => NextStore::Meet { comm },
        }
    }

    /// Whose `ready` may be lowered beside these, for a post that is taken.
    fn ready_allowed(&self) -> Option<Rank>
        ensures gives { (rec : Record) → StandsFor self.now rec → result ≡ ready_allowed rec.stage rec.post }
    {
        if self.standing.is_sending() {
            return None;
        }
        let Some(post) = self.post else {
            return None;
        };
        if post.is_answered {
            Some(post.to)
        } else {
            None
        }
    }
}

/// Whether a word has bit flags, and the rank has not noted it while holding the core's register.
fn lacks_flags(held: &[Option<NotedFlags>; 48], of: &Use, core: CoreId) -> bool
    ensures tells { (rec : Record) → KeepsHeld held.now rec.held → result ≡ lacks_flags rec core (role_meant of.now) }
{
    let slot = held[core.number() as usize];
    match of {
        Use::SignalFlags { signal, .. } => noted_of(slot, *signal).is_none(),
        Use::Header { .. }
        | Use::Chunk { .. }
        | Use::SignalFlag { .. }
        | Use::Gather { .. }
        | Use::Release { .. }
        | Use::Heap
        | Use::Idle => false,
    }
}

impl RankMonitor {
    ghost use Rattle.std.specs.Prelude.{◌≡◌};
    ghost use Rattle.scc_proto.specs.Stages.{Record};
    ghost use Rattle.rank_monitor.specs.Following.{FollowsRecord};
    ghost use Rattle.rank_monitor.specs.Next.{allowed_for, stores_allowed};

    fn stores_allowed(&self) -> NextEvent
        ensures gives { (rec : Record) → FollowsRecord self.now rec → result ≡ stores_allowed self.now.setup rec }
    {
        NextEvent::Stores {
            store: self.work.store_allowed(),
            ready: self.work.ready_allowed(),
        }
    }

    /// What the record allows next, instead of an event that it does not permit.
    pub fn allowed_for(&self, event: &Event) -> NextEvent
        ensures gives { (rec : Record) → FollowsRecord self.now rec → result ≡ allowed_for self.now.setup rec event.now }
    {
        match event.access {
            Access::Load => self.stores_allowed(),
            Access::Store => {
                let of = use_of(&self.setup, event.place);
                if lacks_flags(&self.held, &of, event.place.core()) {
                    NextEvent::LoadFlags
                } else {
                    self.stores_allowed()
                }
            }
            Access::Take => NextEvent::FreeRegister,
            Access::Free => NextEvent::TakeRegister,
        }
    }
}
