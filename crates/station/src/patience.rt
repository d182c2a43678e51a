//! Calls of a station that let another thread run each time that they stall, and then go on.

ghost use Rattle.std.specs.Prelude.{◌≡◌};
ghost use Rattle.station.specs.Stops.{stall_or_stop};

use crate::stations::Station;
use crate::stops::{BarStall, RecvStall, RecvStop, SendStall};
use line_cache::Evict;
use scc_base::Rank;
use scc_proto::Port;
use std::thread;

// The stall of a receive that gave up, and else why it stopped.
fn stall_of(stop: RecvStop) -> Result<RecvStall, RecvStop>
    ensures gives { result ≡ stall_or_stop stop }
{
    match stop {
        RecvStop::Stalled(stall) => Ok(stall),
        RecvStop::Mismatch { sent, asked } => Err(RecvStop::Mismatch { sent, asked }),
    }
}

impl<V: Evict> Station<V> {
    ghost use Rattle.std.specs.Prelude.{◌≡◌, ◌≢◌, ◌<◌, ◌≤◌, [], ◌∷◌, ◌++◌, true, length, IfOk, IfErr};
    ghost use Rattle.scc_base.specs.Calls.{Bar, Recv, Send};
    ghost use Rattle.scc_base.specs.Communicators.{rule_of};
    ghost use Rattle.scc_base.specs.Heads.{plain_head, most_message};
    ghost use Rattle.scc_base.specs.declared.communicators.CommRule.TheVariants.{Absent};
    ghost use Rattle.scc_proto.specs.Ports.{record_in};
    ghost use Rattle.scc_proto.specs.Words.{are_peers};
    ghost use Rattle.barrier.specs.Calls.{Finishes, Stalls};
    ghost use Rattle.barrier.specs.Stages.{bar_call};
    ghost use Rattle.send_recv.specs.Calling.{Received, SendStalled, Sent};
    ghost use Rattle.send_recv.specs.Sending.{send_call};
    ghost use Rattle.station.specs.Calls.{at_barrier, at_receive, at_send, after_barrier, after_receive, after_send, in_send};
    ghost use Rattle.station.specs.Patience.{AfterStalls, BarStalls, RecvStalls, SaysWhyAfter, SendStalls, WithinStalls};
    ghost use Rattle.station.specs.Stations.{IsInBarrier, IsInSend, KeepsHeap, KeepsSlot, NoCallOpen};
    ghost use Rattle.station.specs.Stops.{Owes, StopsReceive, bar_stop_of};

    /// As `send`, and each time that it stalls it lets another thread run and goes on, at most `rounds` times.
    pub fn send_patiently<P: Port>(
        &mut self,
        port: &mut P,
        to: Rank,
        bytes: &[u8],
        rounds: u32,
    ) -> Result<(), SendStall>
        requires free { NoCallOpen (P.sight port.old) self.old }
        requires peers { are_peers (P.sight port.old).seat.setup (P.sight port.old).seat.rank to ≡ true }
        requires short { length bytes.now ≤ most_message }
        ensures free { IfOk result (λ done. NoCallOpen (P.sight port.new) self.new) }
        ensures calls { IfOk result (λ done. (record_in (P.sight port.new)).calls
            ≡ (record_in (P.sight port.old)).calls ++ Send to (plain_head (length bytes.now)) bytes.now ∷ []) }
        ensures sent { IfOk result (λ done. WithinStalls (SendStalls self.old.polls)
            (at_send (P.sight port.old) self.old to bytes.now) rounds
            (λ last. Sent last (after_send (P.sight port.new) self.new))) }
        ensures open { IfErr result (λ stall. IsInSend (P.sight port.new) self.new stall.op bytes.now) }
        ensures owes { IfErr result (λ stall. ((record_in (P.sight port.new)).calls ≡ (record_in (P.sight port.old)).calls)
            × (send_call stall.op bytes.now ≡ Send to (plain_head (length bytes.now)) bytes.now ∷ [])) }
        ensures stalled { IfErr result (λ stall. (stall.polls ≡ self.old.polls)
            × AfterStalls (SendStalls self.old.polls) (at_send (P.sight port.old) self.old to bytes.now) rounds
            (λ last. SendStalled last self.old.polls (in_send (P.sight port.new) self.new stall.op bytes.now) stall.spot)) }
        ensures seat { (P.sight port.new).seat ≡ (P.sight port.old).seat }
        ensures same { KeepsHeap self.old self.new }
    {
        let mut stall = match self.send(port, to, bytes) {
            Ok(()) => return Ok(()),
            Err(stall) => stall,
        };
        'rounds: for round in 0..rounds {
            thread::yield_now();
            match self.send_on(port, stall, bytes) {
                Ok(()) => return Ok(()),
                Err(later) => stall = later,
            }
        }
        Err(stall)
    }

    /// As `recv`, and each time that it stalls it lets another thread run and goes on, at most `rounds` times.
    pub fn recv_patiently<P: Port>(
        &mut self,
        port: &mut P,
        from: Rank,
        buffer: &mut [u8],
        rounds: u32,
    ) -> Result<(), RecvStop>
        requires free { NoCallOpen (P.sight port.old) self.old }
        requires peers { are_peers (P.sight port.old).seat.setup (P.sight port.old).seat.rank from ≡ true }
        requires short { length buffer.old ≤ most_message }
        ensures free { IfOk result (λ done. NoCallOpen (P.sight port.new) self.new) }
        ensures calls { IfOk result (λ done. (record_in (P.sight port.new)).calls
            ≡ (record_in (P.sight port.old)).calls ++ Recv from (plain_head (length buffer.old)) buffer.new ∷ []) }
        ensures received { IfOk result (λ done. WithinStalls (RecvStalls self.old.polls)
            (at_receive (P.sight port.old) self.old from buffer.old) rounds
            (λ last. Received last self.old.polls (after_receive (P.sight port.new) self.new buffer.new))) }
        ensures stops { IfErr result (λ stop. StopsReceive (P.sight port.new) self.new buffer.new stop) }
        ensures owes { IfErr result (λ stop. Owes (λ bytes. Recv from (plain_head (length buffer.old)) bytes ∷ [])
            (P.sight port.old) (P.sight port.new) stop) }
        ensures why { IfErr result (λ stop. SaysWhyAfter (at_receive (P.sight port.old) self.old from buffer.old) rounds self.old.polls
            (after_receive (P.sight port.new) self.new buffer.new) stop) }
        ensures seat { (P.sight port.new).seat ≡ (P.sight port.old).seat }
        ensures same { KeepsSlot self.old self.new }
    {
        let mut stall = match self.recv(port, from, buffer) {
            Ok(()) => return Ok(()),
            Err(stop) => match stall_of(stop) {
                Ok(stall) => stall,
                Err(other) => return Err(other),
            },
        };
        'rounds: for round in 0..rounds {
            thread::yield_now();
            match self.recv_on(port, stall, buffer) {
                Ok(()) => return Ok(()),
                Err(stop) => match stall_of(stop) {
                    Ok(later) => stall = later,
                    Err(other) => return Err(other),
                },
            }
        }
        Err(RecvStop::Stalled(stall))
    }

    /// As `barrier`, and each time that it stalls it lets another thread run and goes on, at most `rounds` times.
    pub fn barrier_patiently<P: Port>(
        &mut self,
        port: &mut P,
        comm: u8,
        rounds: u32,
    ) -> Result<(), BarStall>
        requires free { NoCallOpen (P.sight port.old) self.old }
        requires below { comm < 16 }
        requires present { rule_of (P.sight port.old).seat.setup.comms comm ≢ Absent }
        ensures free { IfOk result (λ done. NoCallOpen (P.sight port.new) self.new) }
        ensures calls { IfOk result (λ done. (record_in (P.sight port.new)).calls ≡ (record_in (P.sight port.old)).calls ++ Bar comm ∷ []) }
        ensures met { IfOk result (λ done. WithinStalls (BarStalls self.old.polls) (at_barrier (P.sight port.old) self.old comm) rounds
            (λ last. Finishes last (after_barrier (P.sight port.new) self.new))) }
        ensures open { IfErr result (λ stall. IsInBarrier (P.sight port.new) self.new stall.op) }
        ensures owes { IfErr result (λ stall. ((record_in (P.sight port.new)).calls ≡ (record_in (P.sight port.old)).calls)
            × (bar_call stall.op ≡ Bar comm ∷ [])) }
        ensures stalled { IfErr result (λ stall. AfterStalls (BarStalls self.old.polls) (at_barrier (P.sight port.old) self.old comm) rounds
            (λ last. Stalls last self.old.polls (after_barrier (P.sight port.new) self.new) (bar_stop_of stall))) }
        ensures seat { (P.sight port.new).seat ≡ (P.sight port.old).seat }
        ensures same { KeepsSlot self.old self.new }
    {
        let mut stall = match self.barrier(port, comm) {
            Ok(()) => return Ok(()),
            Err(stall) => stall,
        };
        'rounds: for round in 0..rounds {
            thread::yield_now();
            match self.barrier_on(port, stall) {
                Ok(()) => return Ok(()),
                Err(later) => stall = later,
            }
        }
        Err(stall)
    }
}
