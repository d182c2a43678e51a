//! Exactly where a record permits what it does not always permit, one kind of move or event a function.

ghost use Rattle.std.specs.Prelude.{◌≡◌, ◌≢◌, ◌⊎◌, ◌↔◌, ℕ, Bool, suc, ◌-◌, ◌%◌, true, [], Option, Some, None, is_some};
ghost use Rattle.scc_base.specs.Events.{load_of, store_of, take_of, free_of};
ghost use Rattle.scc_base.specs.Places.{WordAt};
ghost use Rattle.scc_base.specs.Setups.{SetupView};
ghost use Rattle.scc_base.specs.declared.signals.Signal.{Signal};
ghost use Rattle.scc_base.specs.declared.signals.Signal.TheVariants.{Sent, Ready};
ghost use Rattle.scc_proto.specs.Messages.{Notes, Progress, fresh_message, head_of};
ghost use Rattle.scc_proto.specs.Stages.{Part, Filling, Answered, Stage, Idle, Drafting, Sending, Between, Taking, Barrier, InFlight, Record};
ghost use Rattle.scc_proto.specs.Moves.{DraftHeader, DraftChunk, RaiseSignal, LowerSignal, FlipGather, WriteRelease};
ghost use Rattle.scc_proto.specs.Permission.{is_whole_header, says_head, is_drafted, permits};
ghost use Rattle.scc_proto.specs.Messages.{is_whole};
ghost use Rattle.scc_proto.specs.Words.{HeapWord, IdleWord, SignalFlags, role_of};
ghost use Rattle.scc_proto.specs.Records.{IsPermitted, chunk_of, lowered_below, raises_bit, flags_noted};

/// A heap word is stored exactly where nothing is drafted, no chunk is being taken and no barrier is open.
pub fn heap_store_law()
    ensures law { (s : SetupView) (me : ℕ) (rec : Record) (place : WordAt) (value : ℕ) → role_of s place ≡ HeapWord
        → (IsPermitted s me rec (store_of place value)) ↔ ((rec.stage ≡ Idle)
        ⊎ ((to : ℕ) × (message : Progress) × (rec.stage ≡ Sending to Filling message []))
        ⊎ ((from : ℕ) × (message : Progress) × (rec.stage ≡ Between from message))) }
{}

/// A word that is nobody's is never stored; a load is always permitted.
pub fn plain_words_law()
    ensures idle { (s : SetupView) (me : ℕ) (rec : Record) (place : WordAt) (value : ℕ) → role_of s place ≡ IdleWord
        → IsPermitted s me rec (store_of place value) → ⊥ }
    ensures load { (s : SetupView) (me : ℕ) (rec : Record) (place : WordAt) (value : ℕ) → IsPermitted s me rec (load_of place value) }
{}

/// A register is taken exactly where the rank does not hold it, and freed exactly where it does.
pub fn register_law()
    ensures take { (s : SetupView) (me core : ℕ) (rec : Record) (taken : Bool)
        → (IsPermitted s me rec (take_of core taken)) ↔ (rec.held core ≡ None) }
    ensures free { (s : SetupView) (me core : ℕ) (rec : Record) → (IsPermitted s me rec (free_of core)) ↔ (is_some (rec.held core) ≡ true) }
{}

/// A word of bit flags is stored exactly where the rank has loaded it under its hold of the core's register, and changes one
/// bit of it: at its own core a set bit of another rank is lowered, at another core its own bit is raised, and the move is
/// permitted.
pub fn bits_law()
    ensures stored { (signal : Signal) (s : SetupView) (me owner value : ℕ) (rec : Record) (place : WordAt)
        → role_of s place ≡ SignalFlags signal owner
        → (IsPermitted s me rec (store_of place value)) ↔ ((old : ℕ) × (flags_noted signal rec place.core ≡ Some old)
        × (((owner ≡ me) × (j : ℕ) × (lowered_below me old value s.nue ≡ Some j)
        × (permits (chunk_of s) (LowerSignal signal j) rec ≡ true))
        ⊎ ((owner ≢ me) × (raises_bit me old value ≡ true) × (permits (chunk_of s) (RaiseSignal signal owner) rec ≡ true)))) }
{}

/// A word is drafted exactly where no post is on its way, and a header word before the first raise, a chunk word while no chunk is raised.
pub fn draft_law()
    ensures header { (size k v : ℕ) (rec : Record) → (permits size (DraftHeader k v) rec ≡ true) ↔ ((rec.post ≡ None)
        × ((rec.stage ≡ Idle) ⊎ ((header chunk : Notes) × (rec.stage ≡ Drafting header chunk)))) }
    ensures chunk { (size k v : ℕ) (rec : Record) → (permits size (DraftChunk k v) rec ≡ true) ↔ ((rec.post ≡ None)
        × ((rec.stage ≡ Idle) ⊎ ((header chunk : Notes) × (rec.stage ≡ Drafting header chunk))
        ⊎ ((to : ℕ) × (message : Progress) × (chunk : Notes) × (rec.stage ≡ Sending to Filling message chunk)))) }
{}

/// `sent` is raised exactly where no post is on its way and a whole chunk is drafted: the first one beside a whole header line, a
/// later one at the rank of the first.
pub fn raise_sent_law()
    ensures law { (size to : ℕ) (rec : Record) → (permits size (RaiseSignal Sent to) rec ≡ true) ↔ ((rec.post ≡ None)
        × (((header chunk : Notes) × (rec.stage ≡ Drafting header chunk) × (is_whole_header header ≡ true)
        × (is_drafted size (fresh_message (head_of header)) chunk ≡ true))
        ⊎ ((message : Progress) × (chunk : Notes) × (rec.stage ≡ Sending to Filling message chunk)
        × (is_drafted size message chunk ≡ true)))) }
{}

/// `sent` is lowered exactly where it was seen: of a first chunk once a head was read and nothing is open, of a later one
/// between the chunks of the same rank.
pub fn lower_sent_law()
    ensures law { (size from : ℕ) (rec : Record)
        → (permits size (LowerSignal Sent from) rec ≡ true) ↔ ((header : Notes) × (rec.notes from ≡ Some header)
        × (((rec.stage ≡ Idle) × (says_head header ≡ true)) ⊎ ((message : Progress) × (rec.stage ≡ Between from message)))) }
{}

/// `ready` is raised exactly where all words of the chunk that is being taken of that rank were loaded.
pub fn raise_ready_law()
    ensures law { (size to : ℕ) (rec : Record) → (permits size (RaiseSignal Ready to) rec ≡ true) ↔ ((message : Progress) × (chunk : Notes)
        × (rec.stage ≡ Taking to message chunk) × (is_whole size message chunk ≡ true)) }
{}

/// `ready` is lowered exactly where it was seen: for the chunk of the message that is being sent to that rank, or in no send
/// for the post to it.
pub fn lower_ready_law()
    ensures law { (size by : ℕ) (rec : Record) → (permits size (LowerSignal Ready by) rec ≡ true) ↔
        (((message : Progress) × (chunk : Notes) × (rec.stage ≡ Sending by Answered message chunk))
        ⊎ (((to : ℕ) (part : Part) (message : Progress) (chunk : Notes) → rec.stage ≢ Sending to part message chunk)
        × (post : InFlight) × (rec.post ≡ Some post) × (post.to ≡ by) × (post.is_answered ≡ true))) }
{}

/// A barrier is entered exactly where nothing is open, by the flip of the gather flag.
pub fn flip_gather_law()
    ensures law { (size comm value last : ℕ) (rec : Record) → (permits size (FlipGather comm value last) rec ≡ true) ↔ ((rec.stage ≡ Idle)
        × (value ≡ 1 - rec.flips comm % 2)) }
{}

/// A release flag is written exactly by a root that has seen all its members, to the next of them, with the barrier's value.
pub fn write_release_law()
    ensures law { (size comm to place value last : ℕ) (rec : Record)
        → (permits size (WriteRelease comm to place value last) rec ≡ true) ↔ ((released : ℕ)
        × (rec.stage ≡ Barrier comm last released) × (place ≡ suc released) × (value ≡ rec.flips comm % 2)) }
{}
