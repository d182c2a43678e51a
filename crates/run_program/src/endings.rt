//! What the ranks of a run came to, as a report is written from it.

use scc_base::Rank;
use script_machine::{PrintedItem, UeEnd};
use script_plain::End;

/// A run that is over: who ended how, and printed what.
pub trait Endings {
    ghost use Rattle.std.specs.Prelude.{◌≡◌, ◌<◌, length, slice_get, List, Some};
    ghost use Rattle.plain_meaning.specs.Ends.{Ended, ended_at};

    // What each rank came to, by rank.
    ghost ended: { Self → List Ended };

    /// How the run of a rank ended.
    fn end(&self, rank: Rank) -> UeEnd
        requires { rank < length (ended self.now) }
        ensures { result ≡ (ended_at (ended self.now) rank).end };

    /// How many items a rank printed.
    fn items(&self, rank: Rank) -> usize
        requires { rank < length (ended self.now) }
        ensures { result ≡ length (ended_at (ended self.now) rank).printed };

    /// An item that a rank printed, in the order of printing.
    fn item(&self, rank: Rank, i: usize) -> PrintedItem<'_>
        requires known { rank < length (ended self.now) }
        requires within { i < length (ended_at (ended self.now) rank).printed }
        ensures { slice_get (ended_at (ended self.now) rank).printed i ≡ Some result };
}

// The end of a plain run.
impl Endings for End {
    ghost ended = { λ end. end };

    fn end(&self, rank: Rank) -> UeEnd {
        self.ue(rank)
    }

    fn items(&self, rank: Rank) -> usize {
        End::items(self, rank)
    }

    fn item(&self, rank: Rank, i: usize) -> PrintedItem<'_> {
        End::item(self, rank, i)
    }
}
