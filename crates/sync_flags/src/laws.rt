//! The law of tries: what the count of vain tries comes to, in the words of its users. And the law of the heap.

ghost use Rattle.std.specs.Prelude.{◌≡◌, ◌↔◌, ◌<◌, ◌≤◌, ℕ, Bool, true, Some, None, List};
ghost use Rattle.scc_base.specs.Setups.{IsSetup, host_of};
ghost use Rattle.scc_base.specs.Events.{store_of};
ghost use Rattle.scc_base.specs.declared.events.Event.{Event};
ghost use Rattle.scc_proto.specs.Stages.{Record};
ghost use Rattle.scc_proto.specs.Permission.{leaves_heap};
ghost use Rattle.scc_proto.specs.Ports.{Seat, MayMake};
ghost use Rattle.tas_lock.specs.Holds.{IsNotHolding};
ghost use Rattle.sync_flags.specs.Flags.{flag_of};
ghost use Rattle.sync_flags.specs.Writes.{MayWrite};
ghost use Rattle.sync_flags.specs.Tries.{Aim, TryFailed, EndsFailed};
ghost use Rattle.scc_base.specs.Places.{FlagPlace, first_heap};

/// A call has tried in vain often enough exactly where its events end with a part that has `polls` tries, all of them
/// vain, and no store and no free.
pub fn tries_law()
    ensures says { (aim : Aim) (polls : ℕ) (events : List Event) → TryFailed aim polls events ↔ EndsFailed aim polls events }
{}

/// A rank may store into the heap wherever it has drafted nothing, takes no chunk and is in no barrier; so it may
/// write a flag there: a word at once, and a bit where it does not hold the register of the flag's core.
pub fn heap_law()
    ensures store { (seat : Seat) (rec : Record) (r : ℕ) (f : FlagPlace) (value : ℕ) → IsSetup seat.setup → r < seat.setup.nue
        → first_heap ≤ f.line
        → leaves_heap rec.stage ≡ true → MayMake seat rec (store_of (flag_of seat.setup r f) value) }
    ensures word { (seat : Seat) (rec : Record) (r : ℕ) (f : FlagPlace) (set : Bool) → IsSetup seat.setup → r < seat.setup.nue
        → first_heap ≤ f.line
        → leaves_heap rec.stage ≡ true → MayWrite seat rec (flag_of seat.setup r f) None set }
    ensures bit { (seat : Seat) (rec : Record) (r : ℕ) (f : FlagPlace) (b : ℕ) (set : Bool) → IsSetup seat.setup → r < seat.setup.nue
        → first_heap ≤ f.line
        → leaves_heap rec.stage ≡ true → IsNotHolding rec (host_of seat.setup.hosts r)
        → MayWrite seat rec (flag_of seat.setup r f) (Some b) set }
{}
