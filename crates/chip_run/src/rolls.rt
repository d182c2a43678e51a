//! The roll of a round in threads: how many of its threads have begun.

ghost use Rattle.std.specs.Prelude.{◌≡◌, ◌<◌, ◌≤◌, ◌⊎◌, ℕ, Bool, true, false, Option};
ghost use Rattle.chip_run.specs.Marks.{AsksNext, FoundShort, Yields, MarksShort, spin_limit_by};

use crate::marks::Marks;
use std::thread;
use std::thread::Threads;

/// From this many vain turns in a row on, another thread runs behind each, where threads share processors.
const SPIN_LIMIT: usize = 16;

/// The same where each thread can have a processor of its own: what a rank waits for is mostly under way then.
const LONG_SPIN_LIMIT: usize = 64;

/// After this many vain turns in a row, a rank is about to give up.
const LAST: usize = 999;

/// How many of the threads that a round asks for have begun. Where the system refuses one, its rows wait until those of another
/// thread are over.
#[derive(Drop)]
pub(crate) struct Roll<M> {
    asked: usize,
    spin_limit: usize,
    marks: M,
}

impl<M: Marks> Roll<M> {
    /// The roll of a round that asks for this number of threads.
    pub(crate) fn new<R: Threads>(rt: &R, asked: usize) -> Roll<M>
        ensures asked { result.asked ≡ asked }
        ensures spin_limit { (processors : Option ℕ) × (result.spin_limit ≡ spin_limit_by asked processors) }
    {
        Roll {
            asked,
            spin_limit: spin_limit(rt, asked),
            marks: M::new(),
        }
    }

    /// Notes that one more thread of the round has begun, whose first row is that of this rank.
    pub(crate) fn begin(&self, rank: usize)
        ensures began { M.shown.began rank }
    {
        self.marks.begin(rank);
    }

    /// Lets another thread run behind a vain turn, once several were vain: the rank that is waited for may have no processor.
    /// Where threads are missing it need not: that rank may have to wait until this row is over.
    pub(crate) fn yield_after(&self, failed: usize)
        ensures yields { Yields M.shown self.now.asked self.now.spin_limit failed }
    {
        if failed < self.spin_limit || self.asked < 2 {
            return;
        }
        if self.is_short() {
            return;
        }
        self.marks.let_others_run();
        if failed == LAST {
            self.give_up();
        }
    }

    /// How many threads the next round asks for: as many as had begun, where some were missing.
    pub(crate) fn next(&self) -> usize
        ensures some { 0 < result }
        ensures next { AsksNext M.shown self.now.asked result }
    {
        let short = self.marks.short() as usize;
        let threads = if short > 0 { short } else { self.asked };
        threads.max(1)
    }

    /// Notes how many threads have begun, where some have not.
    fn give_up(&self)
        ensures marks { MarksShort M.shown self.now.asked }
    {
        let begun = self.marks.begun();
        if begun < self.asked as u64 {
            self.marks.mark_short(begun);
        }
    }

    /// Whether some threads were missing where a rank gave up.
    fn is_short(&self) -> bool
        ensures short { result ≡ true → FoundShort M.shown }
        ensures full { result ≡ false → M.shown.found 0 }
    {
        self.marks.short() > 0
    }
}

/// How many vain turns in a row a thread takes before another runs, where a round asks for this number of threads.
fn spin_limit<R: Threads>(rt: &R, asked: usize) -> usize
    ensures gives { (processors : Option ℕ) × (result ≡ spin_limit_by asked processors) }
{
    let processors = match thread::available_parallelism(rt) {
        Ok(processors) => Some(processors.get()),
        Err(_) => None,
    };
    spin_limit_for(asked, processors)
}

/// The same on a machine with this number of processors; None where it is not known.
fn spin_limit_for(asked: usize, processors: Option<usize>) -> usize
    ensures gives { result ≡ spin_limit_by asked processors }
{
    match processors {
        Some(processors) if asked <= processors => LONG_SPIN_LIMIT,
        Some(_) | None => SPIN_LIMIT,
    }
}
