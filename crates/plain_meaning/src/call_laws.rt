//! The laws of the calls of a rank.

ghost use Rattle.std.specs.Prelude.{◌≡◌, ◌<◌, ◌≤◌, ◌++◌, ℕ, List, Option, None, length, map, reverse};
ghost use Rattle.script_rules.specs.Checks.{operations};
ghost use Rattle.script_rules.specs.Closed.{IsClosed};
ghost use Rattle.script_rules.specs.Script.{Script};
ghost use Rattle.script_rules.specs.Settled.{IsWholeScript};
ghost use Rattle.script_machine.specs.declared.posts.Posted.{Posted};
ghost use Rattle.plain_meaning.specs.Collectives.{start_of_rank};
ghost use Rattle.scc_base.specs.Calls.{DataCall, call_of};
ghost use Rattle.script_machine.specs.CallLists.{calls_from, calls_of};
ghost use Rattle.script_machine.specs.Lengths.{lengths_of};
ghost use Rattle.script_machine.specs.Local.{Local, local_next, local_start};
ghost use Rattle.plain_meaning.specs.Meaning.{State, next_of};
ghost use Rattle.plain_meaning.specs.Paths.{Came, DidCalls};
ghost use Rattle.script_machine.specs.Program.{marks_in, prims_in, program_of};
ghost use Rattle.plain_meaning.specs.Ready.{CanMakeNext};
ghost use Rattle.script_rules.specs.Limits.{most_operations};

/// Wherever a rank of a script that was read comes by itself, the call that stands next can be made.
pub fn calls_can_be_made()
    ensures law { (script : Script) → IsWholeScript script.nue script.items → (rank : ℕ) → rank < script.nue
        → (u : State) (last : Option Posted)
        → Came next_of (start_of_rank script rank) u last → CanMakeNext script rank (local_next u.local) }
{}

/// The calls that a rank has done by itself are the first of those that its program names before it runs, with the heads
/// that these have; the others are those that are left.
pub fn calls_are_known_before()
    ensures law { (script : Script) → (rank : ℕ) → (u : Local) (last : Option Posted) (calls : List DataCall)
        → DidCalls local_next u last (local_start script rank) None calls
        → calls_of script rank ≡ map call_of calls ++ calls_from (lengths_of u) u.left }
{}

/// The primitives and the ends of passes of a rank are as many as its operations: a local statement, a message, a barrier
/// and the end of a pass count one each, a collective call as many as it has steps, and each as often as its repeats say.
/// So a rank has at most 100,000 primitives.
pub fn primitives_are_operations()
    ensures law { (script : Script) → IsWholeScript script.nue script.items → IsClosed script → (rank : ℕ) → rank < script.nue
        → length (marks_in script rank) ≡ operations script.nue (reverse script.items) rank }
    ensures among { (script : Script) (rank : ℕ) → prims_in (marks_in script rank) ≡ program_of script rank }
    ensures most { (script : Script) → IsWholeScript script.nue script.items → IsClosed script → (rank : ℕ) → rank < script.nue
        → length (program_of script rank) ≤ most_operations }
{}
