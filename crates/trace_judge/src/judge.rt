//! The judge of events.

ghost use Rattle.std.specs.Prelude.{◌≡◌, ◌<◌, ℕ, IfOk, length, slice_get};
ghost use Rattle.rank_monitor.specs.Following.{FollowsRecord};
ghost use Rattle.rank_monitor.specs.Next.{allowed_for};
ghost use Rattle.scc_proto.specs.Stages.{Record, blank};
ghost use Rattle.trace_judge.specs.Followed.{FollowsAt};

use chip_memory::ChipWords;
use rank_monitor::{NextEvent, RankMonitor};
use scc_base::{Access, Call, Event, Rank, Setup};
use std::alloc::{AllocError, Global};
use std::marker::Model;

/// Why an event is refused.
#[derive(Drop)]
pub enum Refusal {
    /// It is no step: its word, or its core's register, has this value. With it, how the event touches them.
    OtherValue { access: Access, found: u64 },
    /// It is a step, but the record of its rank does not permit it next, and allows this.
    NotPermitted { next: NextEvent },
}

/// The whole memory of a chip and the record of each of its ranks, which take the ranks' events one after the other. Memory is
/// taken in `new` alone.
#[derive(Drop)]
pub struct Judge {
    setup: Setup,
    words: ChipWords,
    monitors: Vec<RankMonitor>,
}

// Why an event is refused that the monitor of its rank does not permit.
fn not_permitted(monitor: &RankMonitor, event: &Event) -> Refusal
    ensures gives { (rec : Record) → FollowsRecord monitor.now rec
        → result ≡ Refusal.NotPermitted (allowed_for monitor.now.setup rec event.now) }
{
    Refusal::NotPermitted {
        next: monitor.allowed_for(event),
    }
}

impl Model for Judge {
    ghost use Rattle.trace_judge.specs.Followed.{IsFollowed, bytes_shown};
    ghost use Rattle.trace_judge.specs.Judged.{JudgeView};

    ghost Value = { JudgeView };

    ghost view = { λ j. record { setup = j.setup; run = j.words; bytes = bytes_shown j.monitors.items } };

    ghost invariant = { λ j. IsFollowed j.setup j.monitors.items j.words };
}

// A monitor for each rank.
fn new_monitors(alloc: Global, setup: &Setup) -> Result<Vec<RankMonitor>, AllocError>
    ensures count { IfOk result (λ monitors. length monitors.items ≡ setup.now.nue) }
    ensures follows { IfOk result (λ monitors. (r : ℕ) → r < setup.now.nue → FollowsAt setup.now r blank (slice_get monitors.items r)) }
{
    let mut monitors = Vec::new(alloc);
    for number in 0..setup.nue() {
        let monitor = RankMonitor::new(alloc, setup.copy(), Rank::of(number))?;
        monitors.push(monitor)?;
    }
    Ok(monitors)
}

impl Judge {
    ghost use Rattle.std.specs.Prelude.{◌≡◌, ◌<◌, ◌∷◌, ◌++◌, [], IfOk, OnErr, OnOk};
    ghost use Rattle.std.specs.Result.{result_err};
    ghost use Rattle.trace_judge.specs.Judged.{bytes_at, chip_of};
    ghost use Rattle.trace_judge.specs.Rulings.{HandsOutCall, refusal_of};

    /// A chip on which no event was made: all its words and registers are 0.
    pub fn new(alloc: Global, setup: Setup) -> Result<Judge, AllocError>
        ensures setup { IfOk result (λ judge. judge.setup ≡ setup) }
        ensures run { IfOk result (λ judge. judge.run ≡ []) }
    {
        let _nue = setup.nue();
        let words = ChipWords::new(alloc)?;
        let monitors = new_monitors(alloc, &setup)?;
        Ok(Judge {
            setup,
            words,
            monitors,
        })
    }

    /// The setup of the chip.
    pub fn setup(&self) -> &Setup
        ensures gives { result.now ≡ self.now.setup }
    {
        &self.setup
    }

    /// The bytes of the call that a rank's last event finished.
    pub fn bytes(&self, rank: Rank) -> &[u8]
        requires below { rank < self.now.setup.nue }
        ensures gives { result.now ≡ bytes_at self.now rank }
    {
        self.monitors[rank.number() as usize].bytes()
    }

    /// Takes the next event if it is a step of the words and its rank's record permits it. Returns the call that is finished by
    /// it, whose bytes are `bytes(rank)` until the rank's next event. A refused event changes nothing.
    pub fn take(&mut self, rank: Rank, event: &Event) -> Result<Option<Call>, Refusal>
        requires below { rank < self.old.setup.nue }
        ensures refused { result_err result ≡ refusal_of (chip_of self.old) (record { rank = rank; event = event.now }) }
        ensures takes { OnOk result (self.new.run ≡ self.old.run ++ (record { rank = rank; event = event.now }) ∷ []) }
        ensures finishes { HandsOutCall rank self.old self.new result }
        ensures setup { self.new.setup ≡ self.old.setup }
        ensures unchanged { OnErr result (self.new ≡ self.old) }
    {
        if !self.words.is_step(event) {
            let found = self.words.stands_at(event.access, event.place);
            let access = event.access;
            return Err(Refusal::OtherValue { access, found });
        }
        let monitor = &mut self.monitors[rank.number() as usize];
        let taken = monitor.take(event);
        match taken {
            Ok(call) => {
                self.words.make(rank, event);
                Ok(call)
            }
            Err(_) => Err(not_permitted(monitor, event)),
        }
    }
}
