//! The law of a sweep in which no UE moves.

ghost use Rattle.std.specs.Prelude.{◌≡◌, ◌<◌, ℕ, Option, None, Some, option_map};
ghost use Rattle.chip_run.specs.Waiting.{NoneDrafts, SlotWaits};
ghost use Rattle.rcce_run.specs.Scripts.{IsOpenCall, IsSwept};
ghost use Rattle.rcce_run.specs.Sweep.{HoldsStates, outgoing, slots_by};
ghost use Rattle.scc_base.specs.Runs.{IsStill};
ghost use Rattle.scc_base.specs.Setups.{SetupView};
ghost use Rattle.scc_proto.specs.Passed.{slot_of};
ghost use Rattle.scc_proto.specs.Stages.{Record};
ghost use Rattle.scc_proto.specs.Views.{view_of};
ghost use Rattle.scc_proto.specs.Words.{Memory};
ghost use Rattle.script_machine.specs.declared.posts.Posted.{Posted};
ghost use Rattle.plain_meaning.specs.Meaning.{IsPlainStep, State, keys_of, plain_end};
ghost use Rattle.script_rules.specs.Script.{Script};

/// Where a sweep has found every UE waiting, the script has come to its plain end: whatever the order of turns was, and
/// whatever the threads did.
pub fn sweep_law()
    // The UEs' states are those of the plain end, and so are the messages in the slots.
    ensures ends { (script : Script) (s : SetupView) (memory : Memory) (records : ℕ → Record) (states : ℕ → State)
        (lasts : ℕ → Option Posted)
        → IsSwept script s memory records states lasts → HoldsStates script.nue (plain_end script) states (slots_by s records lasts) }
    // No plain step is enabled there.
    ensures still { (script : Script) (s : SetupView) (memory : Memory) (records : ℕ → Record) (states : ℕ → State)
        (lasts : ℕ → Option Posted)
        → IsSwept script s memory records states lasts → IsStill (IsPlainStep (keys_of script)) (plain_end script) }
    // A message in a slot is the one that the rank's record has on its way and that is not received.
    ensures slots { (script : Script) (s : SetupView) (memory : Memory) (records : ℕ → Record) (states : ℕ → State)
        (lasts : ℕ → Option Posted)
        → IsSwept script s memory records states lasts → (k : ℕ) → option_map outgoing (slots_by s records lasts k) ≡ slot_of s records k }
    // A rank that waits for its slot has its last message there, and one with no message on its way has an empty slot.
    ensures waiting { (script : Script) (s : SetupView) (memory : Memory) (records : ℕ → Record) (states : ℕ → State)
        (lasts : ℕ → Option Posted)
        → IsSwept script s memory records states lasts → (k : ℕ) → k < s.nue → SlotWaits (view_of s memory) k (records k)
        → (message : Posted) × (lasts k ≡ Some message) × (slots_by s records lasts k ≡ Some message) }
    ensures empty { (script : Script) (s : SetupView) (memory : Memory) (records : ℕ → Record) (states : ℕ → State)
        (lasts : ℕ → Option Posted)
        → IsSwept script s memory records states lasts → (k : ℕ) → (records k).post ≡ None → slots_by s records lasts k ≡ None }
    // The finished calls of a rank's record, with their bytes, are those that the plain meaning did for the rank, in order.
    ensures calls { (script : Script) (s : SetupView) (memory : Memory) (records : ℕ → Record) (states : ℕ → State)
        (lasts : ℕ → Option Posted)
        → IsSwept script s memory records states lasts → (k : ℕ) → k < s.nue → (records k).calls ≡ (states k).matched }
    // A call that is open in a record is the one that the plain meaning leaves the rank waiting in.
    ensures opened { (script : Script) (s : SetupView) (memory : Memory) (records : ℕ → Record) (states : ℕ → State)
        (lasts : ℕ → Option Posted)
        → IsSwept script s memory records states lasts → IsOpenCall s records states }
    // A rank that has no call open is in the midst of nothing: it has no message in draft.
    ensures no_draft { (script : Script) (s : SetupView) (memory : Memory) (records : ℕ → Record) (states : ℕ → State)
        (lasts : ℕ → Option Posted)
        → IsSwept script s memory records states lasts → NoneDrafts s records }
{}
