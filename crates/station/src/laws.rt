//! Laws of stations, each a function that does nothing and ensures it.

ghost use Rattle.std.specs.Prelude.{◌≡◌, ◌<◌, ◌++◌, ℕ, true, List, [], Option, None, Some};
ghost use base.Stored.{Gv};
ghost use Rattle.scc_base.specs.Calls.{DataCall};
ghost use Rattle.scc_base.specs.Setups.{size_of};
ghost use Rattle.scc_proto.specs.Legality.{IsLegal, Outgoing};
ghost use Rattle.scc_proto.specs.Ports.{Seat, Sight, record_in};
ghost use Rattle.coll_more.specs.Ops.{MoreAt};
ghost use Rattle.groups.specs.declared.collectives.Coll.TheVariants.{Allreduce, Bcast, Reduce};
ghost use Rattle.barrier.specs.Stages.{BarAt};
ghost use Rattle.send_recv.specs.Ops.{RecvAt, SendAt};
ghost use Rattle.sync_flags.specs.Turns.{at_port};
ghost use Rattle.station.specs.Collectives.{IsInCollective};
ghost use Rattle.station.specs.Groups.{GroupRank, GroupStart, HasRunGroup, IsInGroup, IsSameCall, in_group_call, new_group};
ghost use Rattle.station.specs.Reductions.{AllreduceDoes, GainsSince, HaveTold, ReduceDoes, bcast_calls, call_at_rank, group_call, is_root_of, root_rank};
ghost use Rattle.station.specs.Stations.{IsInBarrier, IsInReceive, IsInSend, NoCallOpen, StationAt};
ghost use Rattle.station.specs.Steps.{Held};
ghost use Rattle.station.specs.declared.steps.Folding.{Folding};
ghost use Rattle.station.specs.declared.steps.GroupOp.{GroupOp};

/// What stands at a port stands at every port of the same rank: the same setup, rank and events. So a rank may go on with a call
/// through another port than that through which it began it.
pub fn other_port_law()
    ensures free { (s : Sight) (mark rest : Gv) (hold : ℕ) (a : StationAt) → NoCallOpen s a → NoCallOpen (at_port s mark rest hold) a }
    ensures send { (s : Sight) (mark rest : Gv) (hold : ℕ) (a : StationAt) (op : SendAt) (bytes : List ℕ)
        → IsInSend s a op bytes → IsInSend (at_port s mark rest hold) a op bytes }
    ensures receive { (s : Sight) (mark rest : Gv) (hold : ℕ) (a : StationAt) (op : RecvAt) (bytes : List ℕ)
        → IsInReceive s a op bytes → IsInReceive (at_port s mark rest hold) a op bytes }
    ensures barrier { (s : Sight) (mark rest : Gv) (hold : ℕ) (a : StationAt) (op : BarAt)
        → IsInBarrier s a op → IsInBarrier (at_port s mark rest hold) a op }
    ensures group { (s : Sight) (mark rest : Gv) (hold : ℕ) (start : GroupStart) (a : StationAt) (op : GroupOp) (input : List ℕ)
        (held : Held)
        → IsInGroup start (in_group_call s a op input held) → IsInGroup start (in_group_call (at_port s mark rest hold) a op input held) }
    ensures collective { (s : Sight) (mark rest : Gv) (hold : ℕ) (base : List DataCall) (a : StationAt) (op : MoreAt) (src dst : List ℕ)
        → IsInCollective base s a op src dst → IsInCollective base (at_port s mark rest hold) a op src dst }
{}

/// What a broadcast, a reduction and a reduction to all come to that ran to their end, wherever they stalled on the way: clause
/// `ran` of `group_on` gives `HasRunGroup` of the call that it ended, and from it follows here what a call says that ends at once.
/// It holds of each op of that call, so of that with which the call began.
pub fn group_law()
    ensures same { (start : GroupStart) (r : GroupRank) (op : GroupOp) → IsSameCall op r.op → HasRunGroup start r
        → HasRunGroup start (record r { op = op }) }
    ensures calls { (start : GroupStart) (r : GroupRank) (comm root len : ℕ)
        → IsSameCall (new_group (Bcast comm root len) None) r.op → HasRunGroup start r
        → (record_in r.sight).calls ≡ start.calls ++ bcast_calls (group_call r.sight.seat (Bcast comm root len) []) r.held.output }
    ensures kept { (start : GroupStart) (r : GroupRank) (comm root len : ℕ)
        → IsSameCall (new_group (Bcast comm root len) None) r.op → HasRunGroup start r
        → is_root_of (group_call r.sight.seat (Bcast comm root len) []) ≡ true → r.held ≡ start.held }
    ensures reduced { (start : GroupStart) (r : GroupRank) (how : Folding) (comm root len : ℕ)
        → IsSameCall (new_group (Reduce comm root len) (Some how)) r.op → HasRunGroup start r
        → GainsSince start r.sight (λ calls. ReduceDoes how (group_call r.sight.seat (Reduce comm root len) r.input)
        start.held r.held calls) }
    ensures allreduced { (start : GroupStart) (r : GroupRank) (how : Folding) (comm len : ℕ)
        → IsSameCall (new_group (Allreduce comm len) (Some how)) r.op → HasRunGroup start r
        → GainsSince start r.sight (λ calls. AllreduceDoes how (group_call r.sight.seat (Allreduce comm len) r.input)
        start.held r.held calls) }
{}

/// Where the calls of all ranks are legal and each rank has made this broadcast in its group, each holds the bytes of its root.
pub fn bcast_law()
    ensures bytes { (seat : Seat) (comm root len : ℕ) (keys : ℕ → ℕ → ℕ) (calls : ℕ → List DataCall) (slots : ℕ → Option Outgoing)
        (held : ℕ → List ℕ)
        → IsLegal seat.setup.nue keys calls slots → HaveTold seat (Bcast comm root len) held calls
        → (r : ℕ) → r < seat.setup.nue → root < size_of seat.setup comm r → held r ≡ held (root_rank (call_at_rank seat
        (Bcast comm root len) r)) }
{}
