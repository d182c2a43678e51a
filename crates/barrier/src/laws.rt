//! Laws of barriers: how many turns a new one has left, and how calls follow one another. Each is a function that
//! does nothing and ensures it.

ghost use Rattle.std.specs.Prelude.{◌≡◌, ◌≢◌, ℕ, ◌+◌, ◌*◌, ◌<◌, ◌≤◌, ◌++◌, Bool, false, List, [], None};
ghost use base.Stored.{Gv};
ghost use Rattle.scc_base.specs.Communicators.{rule_of};
ghost use Rattle.scc_base.specs.declared.events.Turn.TheVariants.{Done};
ghost use Rattle.scc_base.specs.declared.communicators.CommRule.TheVariants.{Absent};
ghost use Rattle.scc_proto.specs.Stages.{Record};
ghost use Rattle.scc_proto.specs.Ports.{Sight, record_in};
ghost use Rattle.put_get.specs.Cores.{Private};
ghost use Rattle.sync_flags.specs.Turns.{at_port};
ghost use Rattle.barrier.specs.declared.barriers.BarStop.{BarStop};
ghost use Rattle.barrier.specs.declared.stages.BarStage.TheVariants.{Flip};
ghost use Rattle.barrier.specs.Flags.{IsParityOf, value_at};
ghost use Rattle.barrier.specs.Stages.{BarAt, BarStands, IsBetweenBarriers, new_barrier, bar_call, left_by, meeting, with_parity};
ghost use Rattle.barrier.specs.Turns.{KeepsAllButBarriers, BarTurned, flips_by};
ghost use Rattle.barrier.specs.Calls.{Finishes, Stalls};

/// A new barrier in a group of some members has at most two turns a member and one more left that do not wait.
pub fn bar_bound_law()
    ensures bound { (size place : ℕ) → 1 ≤ size → left_by size place Flip ≤ 2 * size + 1 }
{}

/// At a rank that is in no call any barrier of a communicator that has a rule can begin. Calls that flip no gather
/// flag leave the parity the record's.
pub fn begins_law()
    ensures barrier { (s : Sight) (c : Private) (values : List Bool) (comm : ℕ) → IsBetweenBarriers s c values → comm < 16
        → rule_of s.seat.setup.comms comm ≢ Absent → BarStands s c (new_barrier comm) values }
    ensures parity { (rec new : Record) (values : List Bool) → IsParityOf rec values → new.flips ≡ rec.flips → IsParityOf new values }
{}

/// After a barrier that answered Ok the rank is in no call again, at its seat. What it keeps besides is in `Finishes`.
pub fn ends_law()
    ensures between { (s t : Sight) (c d : Private) (op : BarAt) (before values : List Bool)
        → Finishes (meeting s c op before) (with_parity t d values) → IsBetweenBarriers t d values }
    ensures seat { (s t : Sight) (c d : Private) (op : BarAt) (before values : List Bool)
        → Finishes (meeting s c op before) (with_parity t d values) → t.seat ≡ s.seat }
{}

/// A call that stalled, and one that went on with the barrier handed back and answered Ok, come to one barrier.
pub fn goes_on_law()
    ensures calls { (s m t : Sight) (c b d : Private) (op : BarAt) (polls : ℕ) (before values later : List Bool) (stop : BarStop)
        (first : Stalls (meeting s c op before) polls (with_parity m b values) stop)
        → Finishes (meeting m b first.now values) (with_parity t d later) → (record_in t).calls ≡ (record_in s).calls ++ bar_call op }
    ensures flips { (s m t : Sight) (c b d : Private) (op : BarAt) (polls : ℕ) (before values later : List Bool) (stop : BarStop)
        (first : Stalls (meeting s c op before) polls (with_parity m b values) stop)
        → Finishes (meeting m b first.now values) (with_parity t d later)
        → (record_in t).flips ≡ flips_by op.comm op.stage (record_in s).flips }
    ensures rest { (s m t : Sight) (c b d : Private) (op : BarAt) (polls : ℕ) (before values later : List Bool) (stop : BarStop)
        (first : Stalls (meeting s c op before) polls (with_parity m b values) stop)
        → Finishes (meeting m b first.now values) (with_parity t d later) → KeepsAllButBarriers (record_in s) (record_in t) }
{}

/// What stands at a port stands at every port of the same rank: the same setup, rank and events.
pub fn other_port_law()
    ensures barrier { (s : Sight) (mark rest : Gv) (hold : ℕ) (c : Private) (op : BarAt) (values : List Bool)
        → BarStands s c op values → BarStands (at_port s mark rest hold) c op values }
    ensures between { (s : Sight) (mark rest : Gv) (hold : ℕ) (c : Private) (values : List Bool)
        → IsBetweenBarriers s c values → IsBetweenBarriers (at_port s mark rest hold) c values }
{}

/// Before its first event a rank is in no call, and its parity has no flag set.
pub fn start_law()
    ensures between { (s : Sight) (c : Private) (values : List Bool) → s.events ≡ [] → c.out ≡ None
        → ((comm : ℕ) → value_at values comm ≡ false)
        → IsBetweenBarriers s c values }
{}

/// After the turn that ends a barrier the rank is in no call.
pub fn done_law()
    ensures between { (s t : Sight) (c d : Private) (op now : BarAt) (values later : List Bool)
        → BarTurned (meeting s c op values) (meeting t d now later) Done
        → BarStands t d now later → IsBetweenBarriers t d later }
{}
