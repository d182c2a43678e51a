//! What each rank passes at the start of a round in threads.

use scc_base::Rank;

/// A place that each rank passes once in each round, in the thread that makes its events. It may let a rank wait for
/// another one.
pub trait Gate {
    ghost use Rattle.std.specs.Prelude.{ℕ};

    // A rank has passed. Code over any gate makes this true by a call of `pass` alone, so what ensures it has called `pass`.
    ghost passed: { Self → ℕ → Type 0 } = { λ _ _. Unit {0} };

    fn pass(&self, rank: Rank)
        ensures passes { passed self.now rank };
}

/// The gate that lets every rank pass at once.
#[derive(Drop)]
pub struct Open;

impl Gate for Open {
    fn pass(&self, _rank: Rank) {}
}
