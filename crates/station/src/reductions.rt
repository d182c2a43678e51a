//! Broadcasts and reductions of a station, over a communicator.

ghost use Rattle.std.specs.Prelude.{◌≡◌};
ghost use Rattle.station.specs.Groups.{new_group};

use crate::stations::Station;
use crate::steps::{Folding, GroupOp, Hand};
use crate::stops::{GroupStall, GroupStop};
use groups::Coll;
use line_cache::Evict;
use scc_proto::Port;

// A collective call at its start.
fn begun(coll: Coll, folding: Option<Folding>) -> GroupOp
    ensures starts { result ≡ new_group coll folding }
{
    GroupOp {
        coll,
        folding,
        at: 0,
        hand: Hand::Between,
    }
}

impl<V: Evict> Station<V> {
    ghost use Rattle.std.specs.Prelude.{◌≡◌, ◌++◌, [], true, length, None, Some, IfOk, IfErr};
    ghost use Rattle.scc_proto.specs.Ports.{record_in};
    ghost use Rattle.groups.specs.Collectives.{IsCallable};
    ghost use Rattle.groups.specs.declared.collectives.Coll.TheVariants.{Allreduce, Bcast, Reduce};
    ghost use Rattle.station.specs.Calls.{OnlyMessages};
    ghost use Rattle.station.specs.Groups.{AreFit, GroupStart, HasRunGroup, IsInGroup, IsSameCall, SaysWhyGroup, held_in, in_group_call, new_group, op_in, start_at};
    ghost use Rattle.station.specs.Reductions.{AllreduceDoes, GainsCalls, ReduceDoes, bcast_calls, group_call, is_root_of};
    ghost use Rattle.station.specs.Stations.{KeepsHeap, NoCallOpen};

    /// A broadcast: the bytes of the root, which is counted inside its group of the communicator, come to each other member, each of which
    /// makes the call with a buffer of that length (RCCE_bcast).
    pub fn bcast<P: Port>(
        &mut self,
        port: &mut P,
        buffer: &mut [u8],
        root: u8,
        comm: u8,
    ) -> Result<(), GroupStop>
        requires free { NoCallOpen (P.sight port.old) self.old }
        requires callable { IsCallable (P.sight port.old).seat.setup (P.sight port.old).seat.rank (Bcast comm root (length buffer.old)) }
        ensures free { IfOk result (λ done. NoCallOpen (P.sight port.new) self.new) }
        ensures calls { IfOk result (λ done. (record_in (P.sight port.new)).calls ≡ (record_in (P.sight port.old)).calls
            ++ bcast_calls (group_call (P.sight port.old).seat (Bcast comm root (length buffer.old)) []) buffer.new) }
        ensures kept { IfOk result (λ done. is_root_of (group_call (P.sight port.old).seat (Bcast comm root (length buffer.old)) []) ≡ true
            → buffer.new ≡ buffer.old) }
        ensures open { IfErr result (λ stop. IsInGroup (start_at (P.sight port.old) (held_in buffer.old []))
            (in_group_call (P.sight port.new) self.new (op_in stop) [] (held_in buffer.new []))) }
        ensures call { IfErr result (λ stop. IsSameCall (new_group (Bcast comm root (length buffer.old)) None) (op_in stop)) }
        ensures why { IfErr result (λ stop. SaysWhyGroup (P.sight port.old) self.old.polls
            (in_group_call (P.sight port.new) self.new (op_in stop) [] (held_in buffer.new [])) stop) }
        ensures only { OnlyMessages (P.sight port.old) (P.sight port.new) }
        ensures seat { (P.sight port.new).seat ≡ (P.sight port.old).seat }
        ensures same { KeepsHeap self.old self.new }
    {
        let coll = Coll::Bcast {
            comm,
            root,
            len: buffer.len() as u32,
        };
        self.run_steps(port, begun(coll, None), &[], buffer, &mut [])
    }

    /// A reduction: what the members hand in, folded value by value in the order root and then the others by rank, comes into the
    /// root's `output`. `work` is room for what the root receives. All buffers have one length, at each member (RCCE_reduce).
    pub fn reduce<P: Port>(
        &mut self,
        port: &mut P,
        input: &[u8],
        output: &mut [u8],
        work: &mut [u8],
        folding: Folding,
        root: u8,
        comm: u8,
    ) -> Result<(), GroupStop>
        requires free { NoCallOpen (P.sight port.old) self.old }
        requires callable { IsCallable (P.sight port.old).seat.setup (P.sight port.old).seat.rank (Reduce comm root (length input.now)) }
        requires fits { AreFit (Reduce comm root (length input.now)) (Some folding) input.now (held_in output.old work.old) }
        ensures free { IfOk result (λ done. NoCallOpen (P.sight port.new) self.new) }
        ensures reduced { IfOk result (λ done. GainsCalls (P.sight port.old) (P.sight port.new) (λ calls. ReduceDoes folding
            (group_call (P.sight port.old).seat (Reduce comm root (length input.now)) input.now)
            (held_in output.old work.old) (held_in output.new work.new) calls)) }
        ensures open { IfErr result (λ stop. IsInGroup (start_at (P.sight port.old) (held_in output.old work.old))
            (in_group_call (P.sight port.new) self.new (op_in stop) input.now (held_in output.new work.new))) }
        ensures call { IfErr result (λ stop. IsSameCall (new_group (Reduce comm root (length input.now)) (Some folding)) (op_in stop)) }
        ensures why { IfErr result (λ stop. SaysWhyGroup (P.sight port.old) self.old.polls
            (in_group_call (P.sight port.new) self.new (op_in stop) input.now (held_in output.new work.new)) stop) }
        ensures only { OnlyMessages (P.sight port.old) (P.sight port.new) }
        ensures seat { (P.sight port.new).seat ≡ (P.sight port.old).seat }
        ensures same { KeepsHeap self.old self.new }
    {
        let coll = Coll::Reduce {
            comm,
            root,
            len: input.len() as u32,
        };
        self.run_steps(port, begun(coll, Some(folding)), input, output, work)
    }

    /// A reduction whose result comes into the `output` of each member (RCCE_allreduce).
    pub fn allreduce<P: Port>(
        &mut self,
        port: &mut P,
        input: &[u8],
        output: &mut [u8],
        work: &mut [u8],
        folding: Folding,
        comm: u8,
    ) -> Result<(), GroupStop>
        requires free { NoCallOpen (P.sight port.old) self.old }
        requires callable { IsCallable (P.sight port.old).seat.setup (P.sight port.old).seat.rank (Allreduce comm (length input.now)) }
        requires fits { AreFit (Allreduce comm (length input.now)) (Some folding) input.now (held_in output.old work.old) }
        ensures free { IfOk result (λ done. NoCallOpen (P.sight port.new) self.new) }
        ensures reduced { IfOk result (λ done. GainsCalls (P.sight port.old) (P.sight port.new) (λ calls. AllreduceDoes folding
            (group_call (P.sight port.old).seat (Allreduce comm (length input.now)) input.now)
            (held_in output.old work.old) (held_in output.new work.new) calls)) }
        ensures open { IfErr result (λ stop. IsInGroup (start_at (P.sight port.old) (held_in output.old work.old))
            (in_group_call (P.sight port.new) self.new (op_in stop) input.now (held_in output.new work.new))) }
        ensures call { IfErr result (λ stop. IsSameCall (new_group (Allreduce comm (length input.now)) (Some folding)) (op_in stop)) }
        ensures why { IfErr result (λ stop. SaysWhyGroup (P.sight port.old) self.old.polls
            (in_group_call (P.sight port.new) self.new (op_in stop) input.now (held_in output.new work.new)) stop) }
        ensures only { OnlyMessages (P.sight port.old) (P.sight port.new) }
        ensures seat { (P.sight port.new).seat ≡ (P.sight port.old).seat }
        ensures same { KeepsHeap self.old self.new }
    {
        let coll = Coll::Allreduce {
            comm,
            len: input.len() as u32,
        };
        self.run_steps(port, begun(coll, Some(folding)), input, output, work)
    }

    /// Goes on with a broadcast or a reduction that gave up, with the same bytes: a broadcast has its buffer as `output`, and no
    /// `input` and no `work`.
    pub fn group_on<P: Port>(
        &mut self,
        port: &mut P,
        stall: GroupStall,
        input: &[u8],
        output: &mut [u8],
        work: &mut [u8],
    ) -> Result<(), GroupStop>
        requires open { (start : GroupStart)
            × IsInGroup start (in_group_call (P.sight port.old) self.old stall.op input.now (held_in output.old work.old)) }
        ensures free { IfOk result (λ done. NoCallOpen (P.sight port.new) self.new) }
        ensures ran { IfOk result (λ done. (start : GroupStart)
            → IsInGroup start (in_group_call (P.sight port.old) self.old stall.op input.now (held_in output.old work.old))
            → HasRunGroup start (in_group_call (P.sight port.new) self.new stall.op input.now (held_in output.new work.new))) }
        ensures open { IfErr result (λ stop. (start : GroupStart)
            → IsInGroup start (in_group_call (P.sight port.old) self.old stall.op input.now (held_in output.old work.old))
            → IsInGroup start (in_group_call (P.sight port.new) self.new (op_in stop) input.now (held_in output.new work.new))) }
        ensures call { IfErr result (λ stop. IsSameCall stall.op (op_in stop)) }
        ensures why { IfErr result (λ stop. SaysWhyGroup (P.sight port.old) self.old.polls
            (in_group_call (P.sight port.new) self.new (op_in stop) input.now (held_in output.new work.new)) stop) }
        ensures only { OnlyMessages (P.sight port.old) (P.sight port.new) }
        ensures seat { (P.sight port.new).seat ≡ (P.sight port.old).seat }
        ensures same { KeepsHeap self.old self.new }
    {
        self.run_steps(port, stall.op, input, output, work)
    }
}
