//! The record of a rank as a monitor.

ghost use Rattle.std.specs.Prelude.{◌≡◌, ◌<◌};
ghost use Rattle.scc_proto.specs.Records.{chunk_of};

use crate::held::{NotedFlags, forget_flags, note_flags};
use crate::steps::{load_step, store_step};
use crate::uses::use_of;
use crate::works::Work;
use scc_base::{Access, Call, Event, Place, Rank, Setup};
use std::alloc::{AllocError, Global};

/// The record does not permit this event next.
#[derive(Drop)]
pub struct Refused;

/// What decides which events a rank's record permits next and which calls they finish. The monitor takes all its memory
/// in `new`.
#[derive(Drop)]
pub struct RankMonitor {
    pub setup: Setup,
    pub rank: Rank,
    pub work: Work,
    pub held: [Option<NotedFlags>; 48],
    ghost below: { rank < setup.nue },
    ghost size: { work.size ≡ chunk_of setup },
}

impl RankMonitor {
    ghost use Rattle.std.specs.Prelude.{◌≡◌, ◌<◌, ◌↔◌, IfOk, IsOk, OnErr};
    ghost use Rattle.scc_base.specs.declared.events.Access.TheVariants.{Load, Store, Take, Free};
    ghost use Rattle.scc_proto.specs.Records.{IsPermitted, record_after};
    ghost use Rattle.scc_proto.specs.Stages.{Record, blank};
    ghost use Rattle.rank_monitor.specs.Following.{FinishesCall, FollowsRecord, Takes, event_of};

    /// The monitor of a rank that has made no event.
    pub fn new(alloc: Global, setup: Setup, rank: Rank) -> Result<RankMonitor, AllocError>
        requires below { rank < setup.nue }
        ensures setup { IfOk result (λ m. (m.setup ≡ setup) × (m.rank ≡ rank)) }
        ensures follows { IfOk result (λ m. FollowsRecord m blank) }
    {
        let work = Work::new(alloc, setup.layout().chunk_bytes())?;
        Ok(RankMonitor {
            setup,
            rank,
            work,
            held: [None; 48],
        })
    }

    /// The bytes of the call that the last event finished.
    pub fn bytes(&self) -> &[u8]
        ensures gives { result.now ≡ self.now.work.bytes.items }
    {
        self.work.bytes.as_slice()
    }

    fn load(&mut self, place: Place, value: u64) -> Result<Option<Call>, Refused>
        ensures takes { Takes self.old (event_of Load place value) self.new result }
        ensures unchanged { OnErr result (self.new ≡ self.old) }
    {
        let of = use_of(&self.setup, place);
        if note_flags(&mut self.held, &of, place.core(), value) {
            return Ok(None);
        }
        let step = load_step(&self.setup, self.rank, &of, value);
        Ok(self.work.make(&step))
    }

    fn store(&mut self, place: Place, value: u64) -> Result<Option<Call>, Refused>
        ensures takes { Takes self.old (event_of Store place value) self.new result }
        ensures unchanged { OnErr result (self.new ≡ self.old) }
    {
        let of = use_of(&self.setup, place);
        let flags = self.held[place.core().number() as usize];
        let step = store_step(&self.setup, self.rank, flags, &of, place, value);
        if !self.work.permits(&step) {
            return Err(Refused);
        }
        let call = self.work.make(&step);
        forget_flags(&mut self.held, &of, place.core());
        Ok(call)
    }

    fn hold(&mut self, place: Place, value: u64) -> Result<Option<Call>, Refused>
        ensures takes { Takes self.old (event_of Take place value) self.new result }
        ensures unchanged { OnErr result (self.new ≡ self.old) }
    {
        let at = place.core().number() as usize;
        let slot = self.held[at];
        if slot.is_some() {
            return Err(Refused);
        }
        if value != 1 {
            return Ok(None);
        }
        self.held[at] = Some(NotedFlags {
            sent: None,
            ready: None,
        });
        Ok(None)
    }

    fn free(&mut self, place: Place, value: u64) -> Result<Option<Call>, Refused>
        ensures takes { Takes self.old (event_of Free place value) self.new result }
        ensures unchanged { OnErr result (self.new ≡ self.old) }
    {
        let at = place.core().number() as usize;
        let slot = self.held[at];
        if slot.is_none() {
            return Err(Refused);
        }
        self.held[at] = None;
        Ok(None)
    }

    /// Takes one event more of the rank if its record permits it, and returns the call that it finishes; `bytes()` has its bytes until
    /// the next event. A refused event changes nothing.
    pub fn take(&mut self, event: &Event) -> Result<Option<Call>, Refused>
        ensures same { (self.new.setup ≡ self.old.setup) × (self.new.rank ≡ self.old.rank) }
        ensures permitted { (rec : Record) → FollowsRecord self.old rec
            → IsOk result ↔ IsPermitted self.old.setup self.old.rank rec event.now }
        ensures follows { (rec : Record) → FollowsRecord self.old rec
            → FollowsRecord self.new (record_after self.old.setup self.old.rank rec event.now) }
        ensures finishes { (rec : Record) → FollowsRecord self.old rec
            → FinishesCall result self.new.work.bytes.items rec.calls (record_after self.old.setup self.old.rank rec event.now).calls }
        ensures unchanged { OnErr result (self.new ≡ self.old) }
    {
        match event.access {
            Access::Load => self.load(event.place, event.value),
            Access::Store => self.store(event.place, event.value),
            Access::Take => self.hold(event.place, event.value),
            Access::Free => self.free(event.place, event.value),
        }
    }
}
