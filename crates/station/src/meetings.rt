//! Barriers of a station.

use crate::stations::Station;
use crate::stops::BarStall;
use barrier::{BarOp, BarStop, barrier};
use line_cache::Evict;
use scc_proto::Port;

impl<V: Evict> Station<V> {
    ghost use Rattle.std.specs.Prelude.{◌≡◌, ◌≢◌, ◌<◌, [], ◌∷◌, ◌++◌, IfOk, IfErr};
    ghost use Rattle.scc_base.specs.Calls.{Bar};
    ghost use Rattle.scc_base.specs.Communicators.{rule_of};
    ghost use Rattle.scc_base.specs.declared.communicators.CommRule.TheVariants.{Absent};
    ghost use Rattle.scc_proto.specs.Ports.{record_in};
    ghost use Rattle.barrier.specs.Calls.{Finishes, Stalls};
    ghost use Rattle.barrier.specs.Stages.{bar_call};
    ghost use Rattle.station.specs.Calls.{at_barrier, after_barrier, in_barrier};
    ghost use Rattle.station.specs.Stations.{IsInBarrier, KeepsSlot, NoCallOpen};
    ghost use Rattle.station.specs.Stops.{bar_stop_of};

    /// Waits until all members of the own group of a communicator have entered the barrier (RCCE_barrier).
    pub fn barrier<P: Port>(&mut self, port: &mut P, comm: u8) -> Result<(), BarStall>
        requires free { NoCallOpen (P.sight port.old) self.old }
        requires below { comm < 16 }
        requires present { rule_of (P.sight port.old).seat.setup.comms comm ≢ Absent }
        ensures free { IfOk result (λ done. NoCallOpen (P.sight port.new) self.new) }
        ensures calls { IfOk result (λ done. (record_in (P.sight port.new)).calls ≡ (record_in (P.sight port.old)).calls ++ Bar comm ∷ []) }
        ensures met { IfOk result (λ done. Finishes (at_barrier (P.sight port.old) self.old comm)
            (after_barrier (P.sight port.new) self.new)) }
        ensures open { IfErr result (λ stall. IsInBarrier (P.sight port.new) self.new stall.op) }
        ensures owes { IfErr result (λ stall. ((record_in (P.sight port.new)).calls ≡ (record_in (P.sight port.old)).calls)
            × (bar_call stall.op ≡ Bar comm ∷ [])) }
        ensures stalled { IfErr result (λ stall. Stalls (at_barrier (P.sight port.old) self.old comm) self.old.polls
            (after_barrier (P.sight port.new) self.new) (bar_stop_of stall)) }
        ensures seat { (P.sight port.new).seat ≡ (P.sight port.old).seat }
        ensures same { KeepsSlot self.old self.new }
    {
        self.finish_barrier(port, BarOp::new(comm))
    }

    /// Goes on with a barrier that gave up.
    pub fn barrier_on<P: Port>(&mut self, port: &mut P, stall: BarStall) -> Result<(), BarStall>
        requires open { IsInBarrier (P.sight port.old) self.old stall.op }
        ensures free { IfOk result (λ done. NoCallOpen (P.sight port.new) self.new) }
        ensures calls { IfOk result (λ done. (record_in (P.sight port.new)).calls
            ≡ (record_in (P.sight port.old)).calls ++ bar_call stall.op) }
        ensures met { IfOk result (λ done. Finishes (in_barrier (P.sight port.old) self.old stall.op)
            (after_barrier (P.sight port.new) self.new)) }
        ensures open { IfErr result (λ later. IsInBarrier (P.sight port.new) self.new later.op) }
        ensures owes { IfErr result (λ later. ((record_in (P.sight port.new)).calls ≡ (record_in (P.sight port.old)).calls)
            × (bar_call later.op ≡ bar_call stall.op)) }
        ensures stalled { IfErr result (λ later. Stalls (in_barrier (P.sight port.old) self.old stall.op) self.old.polls
            (after_barrier (P.sight port.new) self.new) (bar_stop_of later)) }
        ensures seat { (P.sight port.new).seat ≡ (P.sight port.old).seat }
        ensures same { KeepsSlot self.old self.new }
    {
        self.finish_barrier(port, stall.op)
    }

    // Goes on with a barrier.
    fn finish_barrier<P: Port>(&mut self, port: &mut P, op: BarOp) -> Result<(), BarStall>
        requires open { IsInBarrier (P.sight port.old) self.old op }
        ensures free { IfOk result (λ done. NoCallOpen (P.sight port.new) self.new) }
        ensures met { IfOk result (λ done. Finishes (in_barrier (P.sight port.old) self.old op)
            (after_barrier (P.sight port.new) self.new)) }
        ensures open { IfErr result (λ stall. IsInBarrier (P.sight port.new) self.new stall.op) }
        ensures owes { IfErr result (λ stall. ((record_in (P.sight port.new)).calls ≡ (record_in (P.sight port.old)).calls)
            × (bar_call stall.op ≡ bar_call op)) }
        ensures stalled { IfErr result (λ stall. Stalls (in_barrier (P.sight port.old) self.old op) self.old.polls
            (after_barrier (P.sight port.new) self.new) (bar_stop_of stall)) }
        ensures seat { (P.sight port.new).seat ≡ (P.sight port.old).seat }
        ensures same { KeepsSlot self.old self.new }
    {
        match barrier(&mut self.core, port, op, &mut self.parity, self.polls) {
            Ok(()) => Ok(()),
            Err(BarStop::Stalled { op, spot, polls }) => Err(BarStall { op, spot, polls }),
        }
    }
}
