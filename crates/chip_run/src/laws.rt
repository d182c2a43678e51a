//! How the looks of turns are carried to the end of a sweep, as laws: functions that do nothing and ensure them.

ghost use Rattle.std.specs.Prelude.{◌≡◌, ◌≢◌, ◌<◌, ◌++◌, ◌⊎◌, ℕ, List, true};
ghost use Rattle.std.specs.List.{list_all};
ghost use Rattle.scc_base.specs.declared.events.Event.{Event};
ghost use Rattle.scc_base.specs.Heads.{MessageHead};
ghost use Rattle.scc_base.specs.Setups.{SetupView};
ghost use Rattle.scc_base.specs.declared.signals.Signal.TheVariants.{Ready};
ghost use Rattle.scc_proto.specs.Agreement.{Agrees};
ghost use Rattle.scc_proto.specs.Like.{Like};
ghost use Rattle.scc_proto.specs.Messages.{Notes, Progress};
ghost use Rattle.scc_proto.specs.Records.{record_from};
ghost use Rattle.scc_proto.specs.Resting.{is_resting};
ghost use Rattle.scc_proto.specs.Stages.{Answered, Part, Raised, Record, Sending};
ghost use Rattle.scc_proto.specs.Views.{View, view_of};
ghost use Rattle.scc_proto.specs.Words.{Memory, are_peers};
ghost use Rattle.chip_run.specs.Waiting.{RaiseWaits, Waits};
ghost use Rattle.chip_run.specs.Wants.{Want};

/// A look that was vain stays vain while ranks only look.
pub fn looks_stay_failed()
    // Where words and records agree, and so do other words with records that are alike, the same looks are vain in both.
    ensures alike { (s : SetupView) (one other : Memory) (records recs : ℕ → Record)
        → Agrees s one records → Agrees s other recs → ((k : ℕ) → Like (records k) (recs k))
        → (k : ℕ) (want : Want) → k < s.nue → Waits s (view_of s one) k (records k) want → Waits s (view_of s other) k (recs k) want }
    // A look among the events of a turn that waited is vain after the sweep: the turn left the record alike, and so did all
    // turns behind it.
    ensures carried { (s : SetupView) (at now : Memory) (seen records : ℕ → Record) (me : ℕ) (rec : Record) (before rest : List Event)
        (want : Want)
        → Agrees s at seen → Agrees s now records → me < s.nue → seen me ≡ record_from s me rec before
        → list_all is_resting before ≡ true → list_all is_resting rest ≡ true
        → Like rec (record_from s me rec (before ++ rest)) → Like rec (records me) → ((j : ℕ) → j ≢ me → Like (seen j) (records j))
        → Waits s (view_of s at) me (seen me) want → Waits s (view_of s now) me (records me) want }
    // A rank waits for the same by the same words where its record is alike.
    ensures same { (s : SetupView) (view : View) (me : ℕ) (rec now : Record) (want : Want)
        → Like rec now → Waits s view me rec want → Waits s view me now want }
    // A send whose chunk is up waits where its `ready` is not set: it cannot have seen it set.
    ensures raised { (s : SetupView) (memory : Memory) (records : ℕ → Record) (me to : ℕ) (head : MessageHead) (part : Part)
        (message : Progress) (chunk : Notes)
        → Agrees s memory records → are_peers s me to ≡ true → (records me).stage ≡ Sending to part message chunk
        → (part ≡ Raised) ⊎ (part ≡ Answered)
        → message.head ≡ head → (view_of s memory).signal Ready to me ≢ 1 → RaiseWaits s (view_of s memory) me to head (records me) }
{}
