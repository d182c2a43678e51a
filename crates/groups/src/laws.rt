//! The laws of folds and of the steps of collective calls, in the words of their users.

ghost use Rattle.std.specs.Prelude.{◌≡◌, ℕ, List, Some, [], ◌∷◌, ◌++◌, length, slice_get};
ghost use Rattle.scc_base.specs.Setups.{SetupView};
ghost use Rattle.groups.specs.Collectives.{IsCallable, steps_of};
ghost use Rattle.groups.specs.Folds.{CanFold, fold_of, fold_values};
ghost use Rattle.groups.specs.Peers.{IsWithPeer};
ghost use Rattle.groups.specs.declared.collectives.Coll.{Coll};
ghost use Rattle.groups.specs.declared.collectives.Step.{Step};
ghost use Rattle.groups.specs.declared.operations.Op.{Op};
ghost use Rattle.groups.specs.declared.operations.Ty.{Ty};

/// A fold is as long as what it is folded into, and a fold of a list of lists goes on by one list at a time.
pub fn fold_law()
    ensures long { (op : Op) (ty : Ty) (acc more : List ℕ) → CanFold ty acc more
        → length (fold_values op ty acc more) ≡ length acc }
    ensures next { (op : Op) (ty : Ty) (first : List ℕ) (rest : List (List ℕ)) (more : List ℕ)
        → fold_of op ty first (rest ++ more ∷ []) ≡ fold_values op ty (fold_of op ty first rest) more }
{}

/// Each message of a collective call that a rank may make is with another rank of the run, and has a head that a message
/// may have.
pub fn peers_law()
    ensures law { (s : SetupView) (r : ℕ) (c : Coll) (k : ℕ) (step : Step) → IsCallable s r c → slice_get (steps_of s r c) k ≡ Some step
        → IsWithPeer s r step }
{}
