//! The ranks take their turns at the same time in the second round too, if one of them was held in the first.

ghost use Rattle.std.specs.Prelude.{None, []};

use crate::evictors::PerRank;
use crate::meetings::{LOOKS, Meeting};
use crate::runs::{ONE_TO_FIVE, comes_to};
use chip_run::{Gate, Mode};
use line_cache::Evict;
use scc_base::{Layout, Rank};
use std::sync::atomic::{AtomicU64, Ordering};

/// How many ranks there are.
const RANKS: usize = 6;

/// After so many failed polls in a row a rank's round ends.
const LAST_LOOK: u64 = 1000;

/// A gate where all ranks meet in the first round, and again in the second. After the first meeting the gate holds rank 0 until the others,
/// which wait for it, have ended their round: their evictors count how often they polled.
#[derive(Drop)]
struct Rounds {
    first: Meeting,
    second: Meeting,
    passes: [AtomicU64; RANKS],
    looks: [AtomicU64; RANKS],
}

/// A count for each rank.
fn no_counts() -> [AtomicU64; RANKS] {
    [
        AtomicU64::new(0),
        AtomicU64::new(0),
        AtomicU64::new(0),
        AtomicU64::new(0),
        AtomicU64::new(0),
        AtomicU64::new(0),
    ]
}

impl Rounds {
    fn new() -> Rounds {
        Rounds {
            first: Meeting::of(RANKS as u64),
            second: Meeting::of(RANKS as u64),
            passes: no_counts(),
            looks: no_counts(),
        }
    }

    /// Whether each rank except rank 0 has polled as often as it may in a round.
    fn have_looked(&self) -> bool {
        for at in 1..RANKS {
            if self.looks[at].load(Ordering::SeqCst) < LAST_LOOK {
                return false;
            }
        }
        true
    }

    /// Counts a poll of a rank.
    fn note_look(&self, at: usize) {
        if at < RANKS {
            self.looks[at].fetch_add(1, Ordering::SeqCst);
        }
    }

    /// Holds a rank until the others have polled.
    fn hold(&self) {
        for _ in 0..LOOKS {
            if self.have_looked() {
                return;
            }
        }
    }
}

impl Gate for Rounds {
    fn pass(&self, rank: Rank) {
        let at = rank.number() as usize;
        if at >= RANKS {
            return;
        }
        match self.passes[at].fetch_add(1, Ordering::SeqCst) {
            0 => {
                self.first.wait();
                if at == 0 {
                    self.hold();
                }
            }
            1 => self.second.wait(),
            _ => {}
        }
    }
}

/// An evictor that drops nothing, and counts its questions.
#[derive(Drop)]
struct Counts<'a> {
    rounds: &'a Rounds,
    rank: u8,
}

impl<'a> Evict for Counts<'a> {
    ghost count = { λ _. 0 };

    ghost asked = { λ _. None };

    ghost answers = { λ _. [] };

    fn drop_one(&mut self, held: usize) -> Option<usize> {
        let _ = held;
        self.rounds.note_look(self.rank as usize);
        None
    }
}

impl<'a> PerRank for Counts<'a> {
    fn for_rank(&self, rank: u8) -> Counts<'a> {
        Counts {
            rounds: self.rounds,
            rank,
        }
    }
}

#[test]
fn six_ranks_wait_for_each_other_in_the_second_round(rt: HostRuntime) {
    let rounds = Rounds::new();
    let counts = Counts {
        rounds: &rounds,
        rank: 0,
    };
    let (layout, mode) = (Layout::LineFlags, Mode::Threads);
    let comes = comes_to(&rt, rt.alloc(), layout, ONE_TO_FIVE, &counts, mode, &rounds);
    assert!(rt; comes && rounds.first.was_held());
    assert!(rt; rounds.have_looked() && rounds.second.was_held());
}
