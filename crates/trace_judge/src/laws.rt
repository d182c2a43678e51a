//! Laws of judged lists of events, each a function whose contract is the law.

ghost use Rattle.std.specs.Prelude.{◌≡◌, ◌<◌, ◌↔◌, ◌∷◌, ◌++◌, [], ℕ, IsOk, List, None, Ok};
ghost use Rattle.scc_base.specs.Events.{IsEvent};
ghost use Rattle.scc_base.specs.Setups.{SetupView, IsSetup};
ghost use Rattle.scc_proto.specs.Agreement.{Agrees};
ghost use Rattle.scc_proto.specs.Histories.{IsPermittedRun, memory_from, records_of};
ghost use Rattle.scc_proto.specs.PairMessages.{PairMessages};
ghost use Rattle.scc_proto.specs.Records.{IsPermitted};
ghost use Rattle.scc_proto.specs.Stages.{blank};
ghost use Rattle.scc_proto.specs.Words.{IsRun, IsStep, RankEvent, zeros};
ghost use Rattle.trace_judge.specs.Judged.{Judged, judged_after, judged_by, new_judged};
ghost use Rattle.trace_judge.specs.Rulings.{AreRankEvents, refusal_of, ruling_from};

/// An event is taken if and only if it is a step of the words and the record of its rank permits it.
pub fn ruling_law()
    ensures law { (j : Judged) (e : RankEvent)
        → (refusal_of j e ≡ None) ↔ (IsStep j.memory e.event × IsPermitted j.setup e.rank (j.records e.rank) e.event) }
{}

/// One event more is the chip after it.
pub fn event_law()
    ensures law { (s : SetupView) (run : List RankEvent) (e : RankEvent) → judged_by s (run ++ e ∷ []) ≡ judged_after (judged_by s run) e }
{}

/// A list of events of a chip's ranks is taken as a whole if and only if it is a run from the blank memory of which each event is
/// permitted when it is made. The words and records are then those of the list.
pub fn legal_law()
    ensures law { (s : SetupView) (run : List RankEvent) → AreRankEvents s run
        → IsOk (ruling_from 0 (new_judged s) run) ↔ (IsRun zeros run × IsPermittedRun s (λ r. blank) run) }
    ensures chip { (s : SetupView) (run : List RankEvent) (j : Judged) → ruling_from 0 (new_judged s) run ≡ Ok j → j ≡ judged_by s run }
{}

/// If a list of events is taken as a whole, words and records agree, by the law of agreement. So what a rank has received from
/// another one is what that one has sent it, whole, once and in order, except a message that is unfinished or in flight.
pub fn messages_law()
    ensures agrees { (s : SetupView) (run : List RankEvent) → IsSetup s → AreRankEvents s run → IsOk (ruling_from 0 (new_judged s) run)
        → Agrees s (memory_from zeros run) (records_of s run) }
    ensures messages { (s : SetupView) (run : List RankEvent) (from to : ℕ) → IsSetup s → AreRankEvents s run
        → IsOk (ruling_from 0 (new_judged s) run)
        → from < s.nue → PairMessages s from to (records_of s run) }
{}
