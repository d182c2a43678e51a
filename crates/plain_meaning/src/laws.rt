//! The laws of plain steps: no user could notice in which order they are taken.

ghost use Rattle.std.specs.Prelude.{◌≡◌, ◌≢◌, ◌+◌, ◌<◌, ◌≤◌, ℕ, [], None, Option, Some};
ghost use Rattle.scc_base.specs.Runs.{EndsAt, IsStill, NoneBelow, Runs};
ghost use Rattle.script_rules.specs.Script.{Script};
ghost use Rattle.plain_meaning.specs.Barriers.{AreMet};
ghost use Rattle.plain_meaning.specs.Meaning.{IsPlainStep, State, keys_of, next_of, plain_end, plain_step, start_of, steps_left};
ghost use Rattle.plain_meaning.specs.Paths.{Came, DidCalls};
ghost use Rattle.plain_meaning.specs.Reached.{IsReached};
ghost use Rattle.plain_meaning.specs.Step.{Configuration};
ghost use Rattle.script_machine.specs.declared.posts.Posted.{Posted};

/// Two enabled steps of different owners stay enabled after each other, and come to one configuration in either order.
pub fn steps_commute()
    ensures law { (keys : ℕ → ℕ → ℕ) (a b : ℕ) (c t u : Configuration State) → a ≢ b → IsPlainStep keys a c t → IsPlainStep keys b c u
        → (v : Configuration State) × IsPlainStep keys b t v × IsPlainStep keys a u v }
{}

/// From any configuration every order of steps comes to one end, in one number of steps.
pub fn every_order_has_one_end()
    ensures law { (keys : ℕ → ℕ → ℕ) (n m : ℕ) (c e f : Configuration State) → Runs (IsPlainStep keys) (EndsAt (IsPlainStep keys) e) n c
        → Runs (IsPlainStep keys) (EndsAt (IsPlainStep keys) f) m c → (n ≡ m) × (e ≡ f) }
    // The plain end is one that steps come to from the start, and so it is the only one.
    ensures reached { (script : Script)
        → (n : ℕ) × Runs (IsPlainStep (keys_of script)) (EndsAt (IsPlainStep (keys_of script)) (plain_end script)) n (start_of script) }
{}

/// Every order of steps is finite: each step lowers what is left.
pub fn every_order_is_finite()
    ensures lowers { (keys : ℕ → ℕ → ℕ) (a : ℕ) (c d : Configuration State) → IsPlainStep keys a c d → steps_left d < steps_left c }
    ensures most { (keys : ℕ → ℕ → ℕ) (n : ℕ) (c d : Configuration State) → Runs (IsPlainStep keys) (λ e. e ≡ d) n c
        → n + steps_left d ≤ steps_left c }
{}

/// The plain step is the enabled one with the lowest owner, and there is none exactly where no rank's step is enabled.
pub fn lowest_owner_steps()
    ensures taken { (keys : ℕ → ℕ → ℕ) (a : ℕ) (c d : Configuration State) → IsPlainStep keys a c d
        → (b : ℕ) × (e : Configuration State) × NoneBelow (IsPlainStep keys) b c × IsPlainStep keys b c e × (plain_step keys c ≡ Some e) }
    ensures still { (keys : ℕ → ℕ → ℕ) (c : Configuration State) → plain_step keys c ≡ None → IsStill (IsPlainStep keys) c }
{}

/// Wherever steps lead from the start, no rank has finished more barriers of a communicator than each member of its
/// group has entered.
pub fn barriers_meet()
    ensures law { (script : Script) (c : Configuration State) → IsReached script c → AreMet (keys_of script) c }
{}

/// A state that a rank has come to by itself, from a start at which nothing is done, has the calls of its way, in order and
/// with their bytes.
pub fn ways_tell_calls()
    ensures law { (start u : State) (last : Option Posted) → start.matched ≡ [] → Came next_of start u last
        → DidCalls next_of u last start None u.matched }
{}
