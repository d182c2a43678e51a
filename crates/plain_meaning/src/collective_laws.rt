//! The laws of messages and of collective calls.

ghost use Rattle.script_rules.specs.Script.{Script};
ghost use Rattle.script_rules.specs.Settled.{IsWholeScript};
ghost use Rattle.plain_meaning.specs.Collectives.{AllCame, AreBroadcast, AreCountedAlike, AreDone, AreOwnWays, AreReduced, AreReducedToAll, AreToldAll, AreUntouched, OthersGave, OthersGaveToAll, RootCame};
ghost use Rattle.plain_meaning.specs.Meaning.{State};
ghost use Rattle.plain_meaning.specs.Messages.{AreDelivered, AreReceivedAsSent};
ghost use Rattle.plain_meaning.specs.Reached.{IsReached};
ghost use Rattle.plain_meaning.specs.Step.{Configuration};

/// Wherever steps lead from the start, what a rank has sent to another is what the other has received from it, and then
/// what stands in its slot. So the n-th message of a kind in a communicator is received as it was sent.
pub fn messages_arrive_as_sent()
    ensures delivered { (script : Script) (c : Configuration State) → IsReached script c → AreDelivered c }
    ensures numbered { (script : Script) (c : Configuration State) → IsReached script c → AreReceivedAsSent c }
{}

/// Wherever steps lead from the start, whoever has done the n-th broadcast of a communicator and root holds the bytes that
/// the root sent then, and the root came to its n-th. The root of a broadcast has no register changed.
pub fn broadcasts_arrive()
    ensures law { (script : Script) → IsWholeScript script.nue script.items → (c : Configuration State) → IsReached script c
        → AreBroadcast script c }
    ensures root_came { (script : Script) → IsWholeScript script.nue script.items → (c : Configuration State) → IsReached script c
        → RootCame script c }
    ensures untouched { (script : Script) → IsWholeScript script.nue script.items → AreUntouched script }
{}

/// Wherever steps lead from the start, the root of a reduction that has done it holds the fold that starts with its own
/// bytes and goes on with those of the others in rank order, and none of the others has a register changed. And whoever
/// has done the n-th reduction to all of a communicator holds the fold of all members' bytes in rank order, by the
/// operation and type of member 0. The others came to their n-th: each of them where the root has done it, and where one
/// of the others has done a reduction to all, member 0 and each of the others.
pub fn reductions_fold()
    ensures root { (script : Script) → IsWholeScript script.nue script.items → (c : Configuration State) → IsReached script c
        → AreReduced script c }
    ensures first { (script : Script) → IsWholeScript script.nue script.items → (c : Configuration State) → IsReached script c
        → AreReducedToAll script c }
    ensures others { (script : Script) → IsWholeScript script.nue script.items → (c : Configuration State) → IsReached script c
        → AreToldAll script c }
    ensures others_gave { (script : Script) → IsWholeScript script.nue script.items → (c : Configuration State) → IsReached script c
        → OthersGave script c }
    ensures others_gave_to_all { (script : Script) → IsWholeScript script.nue script.items → (c : Configuration State) → IsReached script c
        → OthersGaveToAll script c }
    ensures all_came { (script : Script) → IsWholeScript script.nue script.items → (c : Configuration State) → IsReached script c
        → AllCame script c }
    ensures untouched { (script : Script) → IsWholeScript script.nue script.items → AreUntouched script }
{}

/// Wherever steps lead from the start, the calls that each rank has done are those that it makes by itself, with the bytes
/// that it received.
pub fn ranks_go_their_own_ways()
    ensures law { (script : Script) (c : Configuration State) → IsReached script c → AreOwnWays script c }
{}

/// How many collective calls of a kind a rank has made is told by any of their messages, wherever it stands at a statement.
pub fn calls_are_counted_alike()
    ensures law { (script : Script) → AreCountedAlike script }
{}

/// Wherever steps lead from the start, each statement of which a rank has no primitive left is done.
pub fn used_up_statements_are_done()
    ensures law { (script : Script) (c : Configuration State) → IsReached script c → AreDone script c }
{}
