//! Laws of what a record allows next, each a function whose contract is the law.

ghost use Rattle.std.specs.Prelude.{◌≡◌, ◌⊎◌, ℕ, Bool, false, true, None, Some};
ghost use Rattle.scc_base.specs.Events.{free_of, store_of, take_of};
ghost use Rattle.scc_base.specs.Places.{WordAt};
ghost use Rattle.scc_base.specs.Setups.{SetupView};
ghost use Rattle.scc_base.specs.declared.signals.Signal.TheVariants.{Ready};
ghost use Rattle.scc_proto.specs.Moves.{LowerSignal, Move};
ghost use Rattle.scc_proto.specs.Permission.{permits};
ghost use Rattle.scc_proto.specs.Records.{IsPermitted};
ghost use Rattle.scc_proto.specs.Singles.{is_free};
ghost use Rattle.scc_proto.specs.Stages.{Record};
ghost use Rattle.rank_monitor.specs.Next.{allowed_for, is_load_move, names_move, offers, ready_allowed, store_allowed};
ghost use Rattle.rank_monitor.specs.declared.next.NextEvent.TheVariants.{LoadFlags};

/// A store that a record permits is of a named kind, and a kind named without a condition is permitted, at a record
/// that has no half-written message beside a post in flight.
pub fn next_store_law()
    ensures others { (size : ℕ) (rec : Record) (move : Move) → permits size move rec ≡ true → is_load_move move ≡ false
        → names_move (store_allowed size rec.stage rec.post rec.notes) (ready_allowed rec.stage rec.post) move ≡ true }
    ensures offered { (size : ℕ) (rec : Record) (move : Move) → (rec.post ≡ None) ⊎ (is_free rec.stage ≡ true)
        → offers (store_allowed size rec.stage rec.post rec.notes) move ≡ true → permits size move rec ≡ true }
    ensures beside { (size by : ℕ) (rec : Record) → ready_allowed rec.stage rec.post ≡ Some by
        → permits size (LowerSignal Ready by) rec ≡ true }
{}

/// A register that may not be taken may be freed, and the other way round. If a word of bit flags must be loaded first,
/// no store to it is permitted.
pub fn next_event_law()
    ensures free { (s : SetupView) (me core : ℕ) (rec : Record) (taken : Bool) → (IsPermitted s me rec (take_of core taken) → ⊥)
        → IsPermitted s me rec (free_of core) }
    ensures take { (s : SetupView) (me core : ℕ) (rec : Record) (taken : Bool) → (IsPermitted s me rec (free_of core) → ⊥)
        → IsPermitted s me rec (take_of core taken) }
    ensures flags { (s : SetupView) (me value other : ℕ) (rec : Record) (place : WordAt)
        → allowed_for s rec (store_of place value) ≡ LoadFlags
        → IsPermitted s me rec (store_of place other) → ⊥ }
{}
