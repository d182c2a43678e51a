//! What the threads of a round mark, so that a later one knows how many there were.

use std::sync::atomic::{AtomicU64, Ordering};
use std::thread;

/// The marks of one round. Code over any marks learns what its ghost member says by calls of these methods alone, so what
/// ensures it has made the call.
pub(crate) trait Marks {
    ghost use Rattle.std.specs.Prelude.{ℕ};
    ghost use Rattle.chip_run.specs.Marks.{MarkFacts};

    // What calls show.
    ghost shown: { MarkFacts };

    /// No thread has begun.
    fn new() -> Self;

    /// Marks that a thread has begun, whose first row is that of this rank.
    fn begin(&self, rank: usize)
        ensures began { shown.began rank };

    /// How many threads have begun.
    fn begun(&self) -> u64
        ensures counted { shown.counted result };

    /// Marks that only so many had begun, unless this is marked already.
    fn mark_short(&self, begun: u64)
        ensures marked { shown.marked begun };

    /// How many had begun where a thread marked that some were missing; 0 where none did.
    fn short(&self) -> u64
        ensures found { shown.found result };

    /// Lets another thread run.
    fn let_others_run(&self)
        ensures yielded { shown.yielded };
}

/// Marks in two counters.
#[derive(Drop)]
pub(crate) struct Counters {
    begun: AtomicU64,
    /// How many had begun where a rank was the first to give up before all had; 0 where none was.
    short: AtomicU64,
}

impl Marks for Counters {
    ghost shown = { record {
      began = λ _. Unit {0};
      counted = λ _. Unit {0};
      marked = λ _. Unit {0};
      found = λ _. Unit {0};
      yielded = Unit {0};
    } };

    fn new() -> Counters {
        Counters {
            begun: AtomicU64::new(0),
            short: AtomicU64::new(0),
        }
    }

    fn begin(&self, _rank: usize) {
        self.begun.fetch_add(1, Ordering::SeqCst);
    }

    fn begun(&self) -> u64 {
        self.begun.load(Ordering::SeqCst)
    }

    fn mark_short(&self, begun: u64) {
        let _ = self
            .short
            .compare_exchange(0, begun, Ordering::SeqCst, Ordering::SeqCst);
    }

    fn short(&self) -> u64 {
        self.short.load(Ordering::SeqCst)
    }

    fn let_others_run(&self) {
        thread::yield_now();
    }
}
