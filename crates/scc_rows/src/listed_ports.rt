//! A port that keeps its events in a list.

ghost use Rattle.std.specs.Prelude.{◌≡◌, ◌<◌, ◌≤◌, true, [], ◌∷◌, ◌++◌};
ghost use Rattle.scc_rows.specs.Quiet.{are_quiet, is_quiet_access};

use crate::fixtures::world_of;
use scc_base::{Buf, CoreId, Event, Layout, Place, Rank, Setup};
use scc_proto::Port;
use std::alloc::Global;
use std::process::Abort;

/// A port of rank 0 to a chip with the registers and one core's heap. It ends the test if it cannot keep an event.
#[derive(Drop)]
pub(crate) struct ListedPort<'a, R: Abort> {
    pub rt: &'a R,
    pub setup: Setup,
    pub taken: [bool; 48],
    pub words: [u64; 124],
    pub events: Vec<Event>,
    ghost quiet: { are_quiet events.items ≡ true },
}

fn index_of(p: Place) -> usize
    requires { 225 ≤ p.line }
    ensures { result < 124 }
{
    usize::from(p.line() - Buf::FIRST) * 4 + usize::from(p.word())
}

// Keeps one more event. It ends the test if memory runs out.
fn keep<R: Abort>(rt: &R, events: &mut Vec<Event>, event: Event)
    requires events { are_quiet events.old.items ≡ true }
    requires event { is_quiet_access event.access event.place ≡ true }
    ensures kept { events.new.items ≡ events.old.items ++ event ∷ [] }
    ensures quiet { are_quiet events.new.items ≡ true }
{
    events.push(event).expect(rt, "memory");
}

impl<R: Abort> Port for ListedPort<'_, R> {
    ghost use base.Stored.{gnil};

    ghost sight = { λ p. record {
      seat = record { setup = p.setup; rank = 0; mark = gnil; rest = gnil; hold = 0 };
      events = p.events.items;
    } };

    ghost stepped = { λ seat es e. Unit {0} };

    fn setup(&self) -> &Setup {
        &self.setup
    }

    fn rank(&self) -> Rank {
        let _ = self.setup.nue();
        Rank::of(0)
    }

    fn load(&mut self, p: Place) -> u64 {
        assert!(self.rt; p.line() >= Buf::FIRST);
        let value = self.words[index_of(p)];
        keep(self.rt, &mut self.events, Event::load(p, value));
        value
    }

    fn store(&mut self, p: Place, v: u64) {
        assert!(self.rt; p.line() >= Buf::FIRST);
        self.words[index_of(p)] = v;
        keep(self.rt, &mut self.events, Event::store(p, v));
    }

    fn take(&mut self, c: CoreId) -> bool {
        let core = usize::from(c.number());
        let taken = !self.taken[core];
        self.taken[core] = true;
        keep(self.rt, &mut self.events, Event::take(c, taken));
        taken
    }

    fn free(&mut self, c: CoreId) {
        self.taken[usize::from(c.number())] = false;
        keep(self.rt, &mut self.events, Event::free(c));
    }
}

pub(crate) fn listed_port<R: Abort>(rt: &R, alloc: Global) -> ListedPort<'_, R>
    ensures { result.events.items ≡ [] }
{
    ListedPort {
        rt,
        setup: world_of(1, Layout::lines()).expect(rt, "a setup"),
        taken: [false; 48],
        words: [0; 124],
        events: Vec::new(alloc),
    }
}
