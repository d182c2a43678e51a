//! Collective calls of a station: of all ranks of the world, with root 0 and pieces of one length.

ghost use Rattle.std.specs.Prelude.{◌≤◌, List, IfOk, IfErr};
ghost use Rattle.scc_base.specs.Calls.{DataCall};
ghost use Rattle.coll_more.specs.Ops.{taking_part};
ghost use Rattle.coll_more.specs.Standing.{HasEnded, MoreStands, Stands};
ghost use Rattle.station.specs.Calls.{OnlyMessages};
ghost use Rattle.station.specs.Collectives.{StopsTurns, op_of};

use crate::stations::Station;
use crate::stops::{CollStall, CollStop};
use coll_more::{More, MoreOp};
use line_cache::Evict;
use put_get::Core;
use scc_proto::Port;
use send_recv::{RecvTurn, Slot};

// Goes on with a collective call by turns, until it is at its end, it meets another head, or `polls` tries in a row are vain.
fn take_turns<V: Evict, P: Port>(
    core: &mut Core<V>,
    port: &mut P,
    slot: &mut Slot,
    op: MoreOp,
    src: &[u8],
    dst: &mut [u8],
    polls: u32,
) -> Result<(), CollStop>
    requires some { 1 ≤ polls }
    requires stands { Stands (taking_part (P.sight port.old) core.old op slot.old src.now dst.old) }
    ensures ended { IfOk result (λ done. (base : List DataCall)
        → MoreStands base (taking_part (P.sight port.old) core.old op slot.old src.now dst.old)
        → HasEnded base (taking_part (P.sight port.new) core.new op slot.new src.now dst.new)) }
    ensures stands { IfErr result (λ stop. (base : List DataCall)
        → MoreStands base (taking_part (P.sight port.old) core.old op slot.old src.now dst.old)
        → MoreStands base (taking_part (P.sight port.new) core.new (op_of stop) slot.new src.now dst.new)) }
    ensures why { IfErr result (λ stop. StopsTurns (taking_part (P.sight port.old) core.old op slot.old src.now dst.old) polls
        (taking_part (P.sight port.new) core.new (op_of stop) slot.new src.now dst.new) stop) }
    ensures only { OnlyMessages (P.sight port.old) (P.sight port.new) }
{
    let mut op = op;
    let mut failed: u32 = 0;
    'turns: loop {
        match op.turn(core, port, slot, src, dst) {
            RecvTurn::Done => return Ok(()),
            RecvTurn::Mismatch(sent) => return Err(CollStop::Mismatch { op, sent }),
            RecvTurn::Moved => failed = 0,
            RecvTurn::Waiting(spot) => {
                failed += 1;
                if failed >= polls {
                    return Err(CollStop::Stalled(CollStall { op, spot, polls }));
                }
            }
        }
    }
}

impl<V: Evict> Station<V> {
    ghost use Rattle.std.specs.Prelude.{◌≡◌, ◌++◌, List, IfOk, IfErr};
    ghost use Rattle.scc_base.specs.Calls.{DataCall};
    ghost use Rattle.scc_proto.specs.Ports.{record_in};
    ghost use Rattle.coll_more.specs.Ops.{HasOwn, data_calls, new_more};
    ghost use Rattle.coll_more.specs.Standing.{IsFit};
    ghost use Rattle.station.specs.Calls.{OnlyMessages};
    ghost use Rattle.station.specs.Collectives.{IsInCollective, StopsTurns, in_collective, op_of};
    ghost use Rattle.station.specs.Stations.{KeepsHeap, NoCallOpen};

    /// A gather, scatter, allgather or alltoall of all ranks, with pieces of `len` bytes: what the own rank hands in is in `src`, and
    /// what it gets comes into `dst` (this project's own: RCCE has none of them).
    pub fn collective<P: Port>(
        &mut self,
        port: &mut P,
        more: More,
        len: u32,
        src: &[u8],
        dst: &mut [u8],
    ) -> Result<(), CollStop>
        requires free { NoCallOpen (P.sight port.old) self.old }
        requires fit { IsFit more (P.sight port.old).seat.rank (P.sight port.old).seat.setup.nue len src.now dst.old }
        ensures free { IfOk result (λ done. NoCallOpen (P.sight port.new) self.new) }
        ensures calls { IfOk result (λ done. (record_in (P.sight port.new)).calls ≡ (record_in (P.sight port.old)).calls
            ++ data_calls more (P.sight port.old).seat.rank (P.sight port.old).seat.setup.nue len src.now dst.new) }
        ensures own { IfOk result (λ done. HasOwn more (P.sight port.old).seat.rank len src.now dst.new) }
        ensures open { IfErr result (λ stop. IsInCollective (record_in (P.sight port.old)).calls (P.sight port.new) self.new
            (op_of stop) src.now dst.new) }
        ensures why { IfErr result (λ stop. StopsTurns
            (in_collective (P.sight port.old) self.old (new_more more len) src.now dst.old) self.old.polls
            (in_collective (P.sight port.new) self.new (op_of stop) src.now dst.new) stop) }
        ensures only { OnlyMessages (P.sight port.old) (P.sight port.new) }
        ensures seat { (P.sight port.new).seat ≡ (P.sight port.old).seat }
        ensures same { KeepsHeap self.old self.new }
    {
        self.finish_collective(port, MoreOp::new(more, len), src, dst)
    }

    /// Goes on with a collective call that gave up, with the same bytes.
    pub fn collective_on<P: Port>(
        &mut self,
        port: &mut P,
        stall: CollStall,
        src: &[u8],
        dst: &mut [u8],
    ) -> Result<(), CollStop>
        requires open { (base : List DataCall) × IsInCollective base (P.sight port.old) self.old stall.op src.now dst.old }
        ensures free { IfOk result (λ done. NoCallOpen (P.sight port.new) self.new) }
        ensures calls { IfOk result (λ done. (base : List DataCall)
            → IsInCollective base (P.sight port.old) self.old stall.op src.now dst.old
            → (record_in (P.sight port.new)).calls ≡ base
            ++ data_calls stall.op.more (P.sight port.old).seat.rank (P.sight port.old).seat.setup.nue stall.op.len src.now dst.new) }
        ensures own { IfOk result (λ done. HasOwn stall.op.more (P.sight port.old).seat.rank stall.op.len src.now dst.new) }
        ensures open { IfErr result (λ stop. (base : List DataCall)
            → IsInCollective base (P.sight port.old) self.old stall.op src.now dst.old
            → IsInCollective base (P.sight port.new) self.new (op_of stop) src.now dst.new) }
        ensures why { IfErr result (λ stop. StopsTurns
            (in_collective (P.sight port.old) self.old stall.op src.now dst.old) self.old.polls
            (in_collective (P.sight port.new) self.new (op_of stop) src.now dst.new) stop) }
        ensures only { OnlyMessages (P.sight port.old) (P.sight port.new) }
        ensures seat { (P.sight port.new).seat ≡ (P.sight port.old).seat }
        ensures same { KeepsHeap self.old self.new }
    {
        self.finish_collective(port, stall.op, src, dst)
    }

    // Goes on with a collective call.
    fn finish_collective<P: Port>(
        &mut self,
        port: &mut P,
        op: MoreOp,
        src: &[u8],
        dst: &mut [u8],
    ) -> Result<(), CollStop>
        requires open { (base : List DataCall) × IsInCollective base (P.sight port.old) self.old op src.now dst.old }
        ensures free { IfOk result (λ done. NoCallOpen (P.sight port.new) self.new) }
        ensures calls { IfOk result (λ done. (base : List DataCall) → IsInCollective base (P.sight port.old) self.old op src.now dst.old
            → (record_in (P.sight port.new)).calls ≡ base
            ++ data_calls op.more (P.sight port.old).seat.rank (P.sight port.old).seat.setup.nue op.len src.now dst.new) }
        ensures own { IfOk result (λ done. HasOwn op.more (P.sight port.old).seat.rank op.len src.now dst.new) }
        ensures open { IfErr result (λ stop. (base : List DataCall) → IsInCollective base (P.sight port.old) self.old op src.now dst.old
            → IsInCollective base (P.sight port.new) self.new (op_of stop) src.now dst.new) }
        ensures why { IfErr result (λ stop. StopsTurns (in_collective (P.sight port.old) self.old op src.now dst.old)
            self.old.polls (in_collective (P.sight port.new) self.new (op_of stop) src.now dst.new) stop) }
        ensures only { OnlyMessages (P.sight port.old) (P.sight port.new) }
        ensures seat { (P.sight port.new).seat ≡ (P.sight port.old).seat }
        ensures same { KeepsHeap self.old self.new }
    {
        take_turns(
            &mut self.core,
            port,
            &mut self.slot,
            op,
            src,
            dst,
            self.polls,
        )
    }
}
