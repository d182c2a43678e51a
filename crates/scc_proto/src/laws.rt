//! Laws of legal lists of calls, and of words and records, each a function whose contract is the law.

ghost use Rattle.std.specs.Prelude.{◌≡◌, ◌↔◌, ℕ, ◌<◌, ◌≤◌, true, false, List, ◌++◌, Option, None, is_some, Some, ◌⊎◌, Contains, All};
ghost use Rattle.std.specs.Int.{bit_at};
ghost use Rattle.std.specs.List.{list_all};
ghost use Rattle.scc_base.specs.declared.events.Event.{Event};
ghost use Rattle.scc_base.specs.Events.{IsEvent, load_of, store_of, take_of};
ghost use Rattle.scc_base.specs.Heads.{MessageHead, IsHead, IsPostHead};
ghost use Rattle.scc_base.specs.Places.{WordAt, IsPlace};
ghost use Rattle.scc_base.specs.Setups.{SetupView, IsSetup, setup_key};
ghost use Rattle.scc_base.specs.declared.signals.Signal.{Signal};
ghost use Rattle.scc_proto.specs.Stages.{Part, Record, Idle, Drafting, Sending, Between, Taking, Barrier, blank};
ghost use Rattle.scc_proto.specs.Words.{Memory, zeros, IsStep, memory_after, RankEvent, IsRun, HeapWord, IdleWord, SignalFlags, are_peers, role_of, word_at};
ghost use Rattle.scc_proto.specs.Records.{chunk_of, IsPermitted, IsHonest, record_after, record_from, record_of};
ghost use Rattle.scc_proto.specs.Like.{Like};
ghost use Rattle.scc_proto.specs.Resting.{is_resting};
ghost use Rattle.scc_proto.specs.Tables.{table_with};
ghost use Rattle.scc_proto.specs.Histories.{records_of, memory_from, IsPermittedRun};
ghost use Rattle.scc_proto.specs.Passed.{in_hand, IsPassed, open_call, passed_calls, slot_of};
ghost use Rattle.scc_proto.specs.Views.{view_of, SameFlagWords};
ghost use Rattle.scc_proto.specs.Singles.{IsWholeCall};
ghost use Rattle.scc_proto.specs.Soundness.{IsSound};
ghost use Rattle.scc_proto.specs.PairMessages.{PairMessages};
ghost use Rattle.scc_proto.specs.Agreement.{Agrees};
ghost use Rattle.scc_base.specs.Calls.{DataCall, Bar};
ghost use Rattle.scc_base.specs.Runs.{Runs, EndsAt};
ghost use Rattle.scc_proto.specs.Legality.{Outgoing, Standing, OwnStep, IsUsedUp, IsLegal, UsesUp, Grows, no_slots, slot_message};
ghost use Rattle.scc_proto.specs.Messages.{Notes, Progress, message_of, send_to, recv_from, is_head, is_post_head, sent_messages, received_messages, barriers_of};

/// Whether lists of calls are legal does not depend on the order in which their steps are taken.
pub fn order_law()
    ensures law { (nue : ℕ) (keys : ℕ → ℕ → ℕ) (calls : ℕ → List DataCall) (slots : ℕ → Option Outgoing)
        → (IsLegal nue keys calls slots) ↔ (UsesUp nue keys no_slots calls slots) }
{}

/// Legal lists leave one family of slots.
pub fn slots_law()
    ensures law { (nue : ℕ) (keys : ℕ → ℕ → ℕ) (calls : ℕ → List DataCall) (slots others : ℕ → Option Outgoing)
        → IsLegal nue keys calls slots → IsLegal nue keys calls others → (k : ℕ) → slots k ≡ others k }
{}

/// Legal lists that have grown by nothing, or by the calls of one step at their ends, are legal.
pub fn growth_law()
    ensures law { (nue : ℕ) (keys : ℕ → ℕ → ℕ) (old new : ℕ → List DataCall) (old_slots new_slots : ℕ → Option Outgoing)
        → IsLegal nue keys old old_slots → Grows nue keys old old_slots new new_slots → IsLegal nue keys new new_slots }
{}

/// All ways to go on from a standing until nobody has a step take as many steps and come to one standing.
pub fn end_law()
    ensures law { (nue : ℕ) (keys : ℕ → ℕ → ℕ) (n m : ℕ) (s e f : Standing)
        → Runs (OwnStep nue keys) (EndsAt (OwnStep nue keys) e) n s
        → Runs (OwnStep nue keys) (EndsAt (OwnStep nue keys) f) m s
        → (n ≡ m) × (e ≡ f) }
{}

/// Where the steps of lists have come to a standing at which nobody has a step, the lists are legal exactly where that
/// standing has used them up.
pub fn verdict_law()
    ensures law { (nue : ℕ) (keys : ℕ → ℕ → ℕ) (n : ℕ) (calls : ℕ → List DataCall) (slots : ℕ → Option Outgoing) (e : Standing)
        → Runs (OwnStep nue keys) (EndsAt (OwnStep nue keys) e) n (record { calls = calls; slots = no_slots })
        → (IsLegal nue keys calls slots) ↔ (IsUsedUp slots e) }
{}

/// What a rank has received from another in legal lists is what the other has sent and posted to it, in that order, but for
/// a message that stands in the other's slot.
pub fn messages_law()
    ensures law { (nue : ℕ) (keys : ℕ → ℕ → ℕ) (calls : ℕ → List DataCall) (slots : ℕ → Option Outgoing)
        → IsLegal nue keys calls slots → (from to : ℕ)
        → sent_messages to (calls from) ≡ received_messages from (calls to) ++ slot_message to (slots from) }
{}

/// The members of a group have equally many barriers of its communicator in legal lists.
pub fn barriers_law()
    ensures law { (nue : ℕ) (keys : ℕ → ℕ → ℕ) (calls : ℕ → List DataCall) (slots : ℕ → Option Outgoing)
        → IsLegal nue keys calls slots → (comm a b : ℕ) → a < nue → b < nue → keys comm a ≡ keys comm b
        → barriers_of comm (calls a) ≡ barriers_of comm (calls b) }
{}

/// Where words and records agree, each rank's record is sound, and a load answers what is noted.
pub fn sound_law()
    ensures sound { (s : SetupView) (memory : Memory) (records : ℕ → Record) (me : ℕ)
        → Agrees s memory records → me < s.nue → IsSound s me (records me) }
    ensures told { (s : SetupView) (memory : Memory) (records : ℕ → Record) (me : ℕ) (e : Event)
        → Agrees s memory records → me < s.nue → IsEvent e → IsStep memory e → IsHonest s me (records me) e }
{}

/// The messages of a pair: what was received is what was sent, or that and the one open message, or that
/// without its last, which was posted and is on its way.
pub fn pair_law()
    ensures law { (s : SetupView) (memory : Memory) (records : ℕ → Record) (from to : ℕ)
        → Agrees s memory records → from < s.nue → PairMessages s from to records }
{}

/// Who has finished n barriers of a communicator has in its group only members that entered n.
pub fn barrier_law()
    ensures law { (s : SetupView) (memory : Memory) (records : ℕ → Record) (comm r k : ℕ)
        → Agrees s memory records → r < s.nue → k < s.nue → setup_key s comm r ≡ setup_key s comm k
        → barriers_of comm (records r).calls ≤ (records k).flips comm }
{}

/// The records tell every flag and every register.
pub fn flags_law()
    ensures flags { (s : SetupView) (one other : Memory) (records : ℕ → Record)
        → Agrees s one records → Agrees s other records → SameFlagWords s (view_of s one) (view_of s other) }
    ensures registers { (s : SetupView) (one other : Memory) (records : ℕ → Record)
        → Agrees s one records → Agrees s other records → (core : ℕ) → one.register core ≡ other.register core }
{}

/// Records that are alike tell the same flags.
pub fn likeness_law()
    ensures flags { (s : SetupView) (one other : Memory) (records recs : ℕ → Record)
        → Agrees s one records → Agrees s other recs → ((k : ℕ) → Like (records k) (recs k))
        → SameFlagWords s (view_of s one) (view_of s other) }
{}

/// Looks are never undone: where a list of events that store nothing leaves a record alike, each front of it does.
pub fn resting_law()
    ensures law { (s : SetupView) (me : ℕ) (rec : Record) (before rest : List Event)
        → list_all is_resting before ≡ true → list_all is_resting rest ≡ true
        → Like rec (record_from s me rec (before ++ rest)) → Like rec (record_from s me rec before) }
{}

/// The law of agreement. Words and records agree at the start; where they agree, and an event is a step of
/// the memory and permitted by its rank's record, they agree after it, and the passed calls have grown by
/// nothing or by the calls of one step at their ends. So they agree after every list of such events.
pub fn agreement_law()
    ensures start { (s : SetupView) → Agrees s zeros (λ r. blank) }
    ensures event { (s : SetupView) (memory : Memory) (records : ℕ → Record) (me : ℕ) (e : Event)
        → IsSetup s → Agrees s memory records → me < s.nue → IsEvent e → IsStep memory e → IsPermitted s me (records me) e
        → Agrees s (memory_after memory e) (table_with records me (record_after s me (records me) e)) }
    ensures grows { (s : SetupView) (memory : Memory) (records : ℕ → Record) (me : ℕ) (e : Event)
        → IsSetup s → Agrees s memory records → me < s.nue → IsEvent e → IsStep memory e → IsPermitted s me (records me) e
        → Grows s.nue (setup_key s) (passed_calls s records) (slot_of s records)
        (passed_calls s (table_with records me (record_after s me (records me) e)))
        (slot_of s (table_with records me (record_after s me (records me) e))) }
    ensures lists { (s : SetupView) (run : List RankEvent)
        → IsSetup s → IsRun zeros run → IsPermittedRun s (λ r. blank) run → Agrees s (memory_from zeros run) (records_of s run) }
{}

/// A value that is loaded from a heap word is 0, or some rank's list has it as stored there.
pub fn heap_law()
    ensures law { (s : SetupView) (memory : Memory) (lists : ℕ → List Event) (place : WordAt) (value : ℕ)
        → Agrees s memory (λ r. record_of s r (lists r))
        → IsEvent (load_of place value) → IsStep memory (load_of place value) → role_of s place ≡ HeapWord
        → (value ≡ 0) ⊎ ((r : ℕ) × (r < s.nue) × Contains (lists r) (store_of place value)) }
{}

/// The passed calls of a rank are its finished calls, or these and its open call. Each stage has its open call: a send, a
/// receive, between two chunks too, and a barrier; words that are drafted and not raised are no call yet.
pub fn open_call_law()
    ensures passed { (s : SetupView) (records : ℕ → Record) (me : ℕ)
        → IsPassed (records me).calls (open_call s (records me)) (passed_calls s records me) }
    ensures idle { (s : SetupView) (rec : Record) → rec.stage ≡ Idle → open_call s rec ≡ None }
    ensures drafting { (s : SetupView) (rec : Record) (header chunk : Notes) → rec.stage ≡ Drafting header chunk → open_call s rec ≡ None }
    ensures sending { (s : SetupView) (rec : Record) (to : ℕ) (part : Part) (message : Progress) (chunk : Notes)
        → rec.stage ≡ Sending to part message chunk
        → open_call s rec ≡ Some (send_to to (message_of (in_hand (chunk_of s) part message chunk))) }
    ensures between { (s : SetupView) (rec : Record) (from : ℕ) (message : Progress) → rec.stage ≡ Between from message
        → open_call s rec ≡ Some (recv_from from (message_of message)) }
    ensures taking { (s : SetupView) (rec : Record) (from : ℕ) (message : Progress) (chunk : Notes) → rec.stage ≡ Taking from message chunk
        → open_call s rec ≡ Some (recv_from from (message_of message)) }
    ensures barrier { (s : SetupView) (rec : Record) (comm seen released : ℕ) → rec.stage ≡ Barrier comm seen released
        → open_call s rec ≡ Some (Bar comm) }
{}

/// Each finished call of a rank is one that it can make, with all its bytes.
pub fn calls_law()
    ensures law { (s : SetupView) (memory : Memory) (records : ℕ → Record) (me : ℕ)
        → Agrees s memory records → me < s.nue → All (IsWholeCall s me) (records me).calls }
{}

/// The test of a head says what a head is.
pub fn head_law()
    ensures head { (head : MessageHead) → (is_head head ≡ true) ↔ (IsHead head) }
    ensures post { (head : MessageHead) → (is_post_head head ≡ true) ↔ (IsPostHead head) }
{}

/// Where words and records agree, a take that finds a register taken tells that some rank holds it, one that takes it that nobody does.
pub fn registers_law()
    ensures taken { (s : SetupView) (memory : Memory) (records : ℕ → Record) (core : ℕ)
        → Agrees s memory records → IsStep memory (take_of core false)
        → (holder : ℕ) × (holder < s.nue) × (is_some ((records holder).held core) ≡ true) }
    ensures free { (s : SetupView) (memory : Memory) (records : ℕ → Record) (core k : ℕ)
        → Agrees s memory records → IsStep memory (take_of core true) → k < s.nue → (records k).held core ≡ None }
{}

/// Where words and records agree, a word that is nobody's is 0, and so is each bit of a word of bit flags that is nobody's.
pub fn idle_law()
    ensures word { (s : SetupView) (memory : Memory) (records : ℕ → Record) (place : WordAt)
        → Agrees s memory records → IsPlace place → role_of s place ≡ IdleWord → word_at memory place ≡ 0 }
    ensures flags { (s : SetupView) (memory : Memory) (records : ℕ → Record) (place : WordAt) (signal : Signal) (owner b : ℕ)
        → Agrees s memory records → IsPlace place → role_of s place ≡ SignalFlags signal owner → are_peers s owner b ≡ false
        → bit_at (word_at memory place) b ≡ 0 }
{}
