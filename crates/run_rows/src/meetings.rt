//! What no clause states: the ranks take their turns at the same time, and each passes its gate once in a round, before them.

ghost use Rattle.std.specs.Prelude.{None, []};

use crate::evictors::PerRank;
use crate::runs::{ALL_IDLE, NO_MESSAGES, ONE_TO_FIVE, Row, THREE_PAIRS, TWO_PAIRS, comes_to};
use chip_run::{Gate, Mode, Open};
use line_cache::{Evict, Never};
use scc_base::{Layout, Rank};
use std::alloc::Global;
use std::sync::atomic::{AtomicU64, Ordering};
use std::thread::Threads;

/// How many ranks there are.
const RANKS: usize = 4;

/// How often a rank polls for the others.
pub(crate) const LOOKS: u64 = 5_000_000_000;

/// A place where the threads of so many ranks meet: how many have arrived, and how many gave up waiting.
#[derive(Drop)]
pub(crate) struct Meeting {
    wanted: u64,
    came: AtomicU64,
    missed: AtomicU64,
}

impl Meeting {
    pub(crate) fn of(wanted: u64) -> Meeting {
        Meeting {
            wanted,
            came: AtomicU64::new(0),
            missed: AtomicU64::new(0),
        }
    }

    /// Whether all have arrived.
    fn is_full(&self) -> bool {
        self.came.load(Ordering::SeqCst) >= self.wanted
    }

    /// Arrives, and waits until all have arrived.
    pub(crate) fn wait(&self) {
        self.came.fetch_add(1, Ordering::SeqCst);
        for _ in 0..LOOKS {
            if self.is_full() {
                return;
            }
        }
        self.missed.fetch_add(1, Ordering::SeqCst);
    }

    /// Whether all have arrived, and none gave up waiting.
    pub(crate) fn was_held(&self) -> bool {
        self.is_full() && self.missed.load(Ordering::SeqCst) == 0
    }
}

impl Gate for Meeting {
    fn pass(&self, rank: Rank) {
        let _ = rank;
        self.wait();
    }
}

/// An evictor that drops nothing, and that waits for those of the other ranks at its first question.
#[derive(Drop)]
struct Meets<'a> {
    meeting: &'a Meeting,
    was_asked: bool,
}

impl<'a> Evict for Meets<'a> {
    ghost count = { λ _. 0 };

    ghost asked = { λ _. None };

    ghost answers = { λ _. [] };

    fn drop_one(&mut self, held: usize) -> Option<usize> {
        let _ = held;
        if !self.was_asked {
            self.was_asked = true;
            self.meeting.wait();
        }
        None
    }
}

impl<'a> PerRank for Meets<'a> {
    fn for_rank(&self, rank: u8) -> Meets<'a> {
        let _ = rank;
        Meets {
            meeting: self.meeting,
            was_asked: false,
        }
    }
}

/// Whether a script has the result that its row states, with its ranks in threads.
fn comes<V: PerRank + Send, G: Gate + Sync, R: Threads + Sync>(
    rt: &R,
    alloc: Global,
    row: &Row<'_>,
    like: &V,
    gate: &G,
) -> bool {
    let layout = Layout::LineFlags;
    comes_to(rt, alloc, layout, row, like, Mode::Threads, gate)
}

/// Whether so many ranks of a script wait for each other at the gate.
fn meet_at_the_gate<R: Threads + Sync>(rt: &R, alloc: Global, row: &Row<'_>, wanted: u64) -> bool {
    let meeting = Meeting::of(wanted);
    comes(rt, alloc, row, &Never, &meeting) && meeting.was_held()
}

/// Whether so many ranks of a script wait for each other inside their turns.
fn meet_inside<R: Threads + Sync>(rt: &R, alloc: Global, row: &Row<'_>, wanted: u64) -> bool {
    let meeting = Meeting::of(wanted);
    let meets = Meets {
        meeting: &meeting,
        was_asked: false,
    };
    comes(rt, alloc, row, &meets, &Open) && meeting.was_held()
}

#[test]
fn four_ranks_wait_for_each_other_at_the_gate(rt: HostRuntime) {
    assert!(rt; meet_at_the_gate(&rt, rt.alloc(), TWO_PAIRS, 4));
}

#[test]
fn six_ranks_wait_for_each_other_at_the_gate(rt: HostRuntime) {
    assert!(rt; meet_at_the_gate(&rt, rt.alloc(), THREE_PAIRS, 6));
}

#[test]
fn two_of_forty_eight_ranks_wait_for_each_other_at_the_gate(rt: HostRuntime) {
    assert!(rt; meet_at_the_gate(&rt, rt.alloc(), ALL_IDLE, 2));
}

#[test]
fn four_ranks_wait_for_each_other_inside_their_turns(rt: HostRuntime) {
    assert!(rt; meet_inside(&rt, rt.alloc(), TWO_PAIRS, 4));
}

#[test]
fn six_ranks_wait_for_each_other_inside_their_turns(rt: HostRuntime) {
    assert!(rt; meet_inside(&rt, rt.alloc(), THREE_PAIRS, 6));
}

/// How often each rank has passed the gate, and how often one's evictor was asked before that.
#[derive(Drop)]
struct Passes {
    counts: [AtomicU64; RANKS],
    early: AtomicU64,
}

impl Passes {
    fn new() -> Passes {
        Passes {
            counts: [
                AtomicU64::new(0),
                AtomicU64::new(0),
                AtomicU64::new(0),
                AtomicU64::new(0),
            ],
            early: AtomicU64::new(0),
        }
    }

    /// Whether each rank has passed this many times.
    fn are_all(&self, wanted: u64) -> bool {
        for at in 0..RANKS {
            if self.counts[at].load(Ordering::SeqCst) != wanted {
                return false;
            }
        }
        true
    }

    /// Notes if a rank's evictor is asked before the rank has passed.
    fn ask(&self, rank: u8) {
        let at = rank as usize;
        if at >= RANKS || self.counts[at].load(Ordering::SeqCst) == 0 {
            self.early.fetch_add(1, Ordering::SeqCst);
        }
    }

    /// Whether no rank took turns before it passed.
    fn came_first(&self) -> bool {
        self.early.load(Ordering::SeqCst) == 0
    }
}

impl Gate for Passes {
    fn pass(&self, rank: Rank) {
        let at = rank.number() as usize;
        if at < RANKS {
            self.counts[at].fetch_add(1, Ordering::SeqCst);
        }
    }
}

/// An evictor that drops nothing, and that checks at its questions whether its rank has passed.
#[derive(Drop)]
struct Looks<'a> {
    passes: &'a Passes,
    rank: u8,
}

impl<'a> Evict for Looks<'a> {
    ghost count = { λ _. 0 };

    ghost asked = { λ _. None };

    ghost answers = { λ _. [] };

    fn drop_one(&mut self, held: usize) -> Option<usize> {
        let _ = held;
        self.passes.ask(self.rank);
        None
    }
}

impl<'a> PerRank for Looks<'a> {
    fn for_rank(&self, rank: u8) -> Looks<'a> {
        Looks {
            passes: self.passes,
            rank,
        }
    }
}

/// A script without messages ends in one round.
#[test]
fn each_rank_passes_the_gate_once_in_a_round(rt: HostRuntime) {
    let passes = Passes::new();
    assert!(rt; comes(&rt, rt.alloc(), NO_MESSAGES, &Never, &passes) && passes.are_all(1));
}

#[test]
fn each_rank_passes_the_gate_before_its_turns(rt: HostRuntime) {
    let passes = Passes::new();
    let looks = Looks {
        passes: &passes,
        rank: 0,
    };
    assert!(rt; comes(&rt, rt.alloc(), TWO_PAIRS, &looks, &passes) && passes.came_first());
}
