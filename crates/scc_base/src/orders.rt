//! The laws of steps that have owners: the order in which they are taken does not matter.

ghost use Rattle.std.specs.Prelude.{◌≡◌, ℕ, suc};
ghost use Rattle.scc_base.specs.Runs.{Runs, RunsLowest, EndsAt};

/// Steps from state to state, each by an owner. An owner has at most one step, the steps of two owners can be
/// taken in either order, whether an owner has a step is decided, and there is none from an end.
pub trait OwnedSteps {
    ghost use Rattle.std.specs.Prelude.{◌≡◌, ◌≢◌, ◌⊎◌, ℕ};
    ghost use Rattle.scc_base.specs.Runs.{IsStill};

    ghost step: { ℕ → Self → Self → Type 0 };

    ghost is_end: { Self → Type 0 };

    ghost only_one: { (a : ℕ) (s t u : Self) → step a s t → step a s u → t ≡ u };

    ghost either_order: { (a b : ℕ) (s t u : Self) → a ≢ b → step a s t → step b s u → (v : Self) × step b t v × step a u v };

    ghost decided: { (a : ℕ) (s : Self) → ((t : Self) × step a s t) ⊎ ((t : Self) → step a s t → ⊥) };

    ghost still: { (s : Self) → is_end s → IsStill step s };
}

/// Whatever step can be taken can be taken first, in a run to an end.
pub fn any_first<S: OwnedSteps>()
    ensures law { (n a : ℕ) (s t : S) → Runs S.step S.is_end n s → S.step a s t
        → (k : ℕ) × (n ≡ suc k) × Runs S.step S.is_end k t }
{}

/// What the steps do in some order, they do lowest owner first too.
pub fn lowest_first<S: OwnedSteps>()
    ensures law { (n : ℕ) (s : S) → Runs S.step S.is_end n s → RunsLowest S.step S.is_end n s }
{}

/// All runs to where nobody has a step have one length and one end.
pub fn one_end<S: OwnedSteps>()
    ensures law { (n m : ℕ) (s e f : S) → Runs S.step (EndsAt S.step e) n s → Runs S.step (EndsAt S.step f) m s
        → (n ≡ m) × (e ≡ f) }
{}
