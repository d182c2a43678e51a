//! Who is told the events of a run.

use scc_base::{Event, Rank};

/// Who is told each event of a run as it is made, by its rank. A witness of one run belongs to one thread.
pub trait Witness {
    ghost use Rattle.std.specs.Prelude.{◌≡◌, ◌<◌, [], ◌∷◌, ◌++◌, Bool, true, List};
    ghost use Rattle.scc_base.specs.Events.{IsEvent};
    ghost use Rattle.scc_base.specs.Setups.{SetupView};
    ghost use Rattle.scc_proto.specs.Words.{RankEvent};

    /// The setup of the chip whose events it is told.
    ghost setup: { Self → SetupView };

    /// It was told these events, in the order in which they were made.
    ghost noted: { Self → List RankEvent → Type 0 };

    /// It wants to be told more. Where it does not, a run may end before its time.
    ghost listens: { Self → Bool };

    /// After these events it wanted to be told more, whatever it wants now.
    ghost wanted_after: { Self → List RankEvent → Type 0 };

    /// One event more of a rank.
    fn note(&mut self, rank: Rank, event: Event)
        requires below { rank < (setup self.old).nue }
        requires made { IsEvent event }
        ensures setup { setup self.new ≡ setup self.old }
        ensures noted { (run : List RankEvent) → noted self.old run
            → noted self.new (run ++ record { rank = rank; event = event } ∷ []) }
        ensures wanted { (run : List RankEvent) → wanted_after self.old run → wanted_after self.new run };

    /// Whether it wants to be told more.
    fn listens(&self) -> bool
        ensures tells { result ≡ listens self.now }
        ensures wanted { result ≡ true → (run : List RankEvent) → noted self.now run → wanted_after self.now run };
}
