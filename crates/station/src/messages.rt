//! Messages of a station.

ghost use Rattle.std.specs.Prelude.{◌≡◌, ◌≤◌, length};
ghost use Rattle.scc_base.specs.Heads.{plain_head, most_message};
ghost use Rattle.station.specs.Stops.{recv_stop_of};

use crate::stations::Station;
use crate::stops::{RecvStall, RecvStop, SendStall};
use line_cache::Evict;
use scc_base::{Head, Rank};
use scc_proto::Port;
use send_recv::{RecvOp, SendOp, SendStop, recv, recv_test, send};

// The head of a plain message of these bytes.
pub(crate) fn head_of(bytes: &[u8]) -> Head
    requires short { length bytes.now ≤ most_message }
    ensures gives { result ≡ plain_head (length bytes.now) }
{
    let Some(head) = Head::plain(bytes.len() as u32) else {
        unreachable!()
    };
    head
}

// What stopped a receive, in a station's words.
fn recv_stop_of(stop: send_recv::RecvStop) -> RecvStop
    ensures gives { result ≡ recv_stop_of stop }
{
    match stop {
        send_recv::RecvStop::Stalled { op, spot, polls } => RecvStop::Stalled(RecvStall {
            op,
            spot,
            polls,
        }),
        send_recv::RecvStop::Mismatch { sent, asked } => RecvStop::Mismatch { sent, asked },
    }
}

impl<V: Evict> Station<V> {
    ghost use Rattle.std.specs.Prelude.{◌≡◌, ◌≤◌, [], ◌∷◌, ◌++◌, true, false, length, IfOk, IfErr, Ok, if◌then◌else◌};
    ghost use Rattle.scc_base.specs.Calls.{Send, Recv};
    ghost use Rattle.scc_base.specs.Heads.{plain_head, most_message};
    ghost use Rattle.scc_proto.specs.Ports.{record_in};
    ghost use Rattle.scc_proto.specs.Words.{are_peers};
    ghost use Rattle.send_recv.specs.Calling.{Received, Sent, SendStalled, TestEnds};
    ghost use Rattle.send_recv.specs.Receiving.{recv_call};
    ghost use Rattle.send_recv.specs.Sending.{send_call};
    ghost use Rattle.station.specs.Calls.{at_receive, at_send, after_receive, after_send, in_receive, in_send};
    ghost use Rattle.station.specs.Stations.{IsInReceive, IsInSend, KeepsHeap, KeepsSlot, NoCallOpen};
    ghost use Rattle.station.specs.Stops.{Owes, SaysWhy, StopsReceive};

    // Goes on with a send or a post.
    pub(crate) fn finish_send<P: Port>(
        &mut self,
        port: &mut P,
        op: SendOp,
        bytes: &[u8],
    ) -> Result<(), SendStall>
        requires open { IsInSend (P.sight port.old) self.old op bytes.now }
        ensures free { IfOk result (λ done. NoCallOpen (P.sight port.new) self.new) }
        ensures sent { IfOk result (λ done. Sent (in_send (P.sight port.old) self.old op bytes.now)
            (after_send (P.sight port.new) self.new)) }
        ensures open { IfErr result (λ stall. IsInSend (P.sight port.new) self.new stall.op bytes.now) }
        ensures stalled { IfErr result (λ stall. (stall.polls ≡ self.old.polls)
            × SendStalled (in_send (P.sight port.old) self.old op bytes.now) self.old.polls
            (in_send (P.sight port.new) self.new stall.op bytes.now) stall.spot) }
        ensures seat { (P.sight port.new).seat ≡ (P.sight port.old).seat }
        ensures same { KeepsHeap self.old self.new }
    {
        match send(&mut self.core, port, &mut self.slot, op, bytes, self.polls) {
            Ok(()) => Ok(()),
            Err(SendStop::Stalled { op, spot, polls }) => Err(SendStall { op, spot, polls }),
        }
    }

    // Goes on with a receive.
    pub(crate) fn finish_receive<P: Port>(
        &mut self,
        port: &mut P,
        op: RecvOp,
        buffer: &mut [u8],
    ) -> Result<(), RecvStop>
        requires open { IsInReceive (P.sight port.old) self.old op buffer.old }
        ensures free { IfOk result (λ done. NoCallOpen (P.sight port.new) self.new) }
        ensures received { IfOk result (λ done. Received (in_receive (P.sight port.old) self.old op buffer.old) self.old.polls
            (after_receive (P.sight port.new) self.new buffer.new)) }
        ensures stops { IfErr result (λ stop. StopsReceive (P.sight port.new) self.new buffer.new stop) }
        ensures why { IfErr result (λ stop. SaysWhy (in_receive (P.sight port.old) self.old op buffer.old) self.old.polls
            (after_receive (P.sight port.new) self.new buffer.new) stop) }
        ensures seat { (P.sight port.new).seat ≡ (P.sight port.old).seat }
        ensures same { KeepsSlot self.old self.new }
    {
        match recv(&mut self.core, port, op, buffer, self.polls) {
            Ok(()) => Ok(()),
            Err(stop) => Err(recv_stop_of(stop)),
        }
    }

    /// Sends bytes to a rank, and waits until they are taken (RCCE_send).
    pub fn send<P: Port>(&mut self, port: &mut P, to: Rank, bytes: &[u8]) -> Result<(), SendStall>
        requires free { NoCallOpen (P.sight port.old) self.old }
        requires peers { are_peers (P.sight port.old).seat.setup (P.sight port.old).seat.rank to ≡ true }
        requires short { length bytes.now ≤ most_message }
        ensures free { IfOk result (λ done. NoCallOpen (P.sight port.new) self.new) }
        ensures calls { IfOk result (λ done. (record_in (P.sight port.new)).calls
            ≡ (record_in (P.sight port.old)).calls ++ Send to (plain_head (length bytes.now)) bytes.now ∷ []) }
        ensures sent { IfOk result (λ done. Sent (at_send (P.sight port.old) self.old to bytes.now)
            (after_send (P.sight port.new) self.new)) }
        ensures open { IfErr result (λ stall. IsInSend (P.sight port.new) self.new stall.op bytes.now) }
        ensures owes { IfErr result (λ stall. ((record_in (P.sight port.new)).calls ≡ (record_in (P.sight port.old)).calls)
            × (send_call stall.op bytes.now ≡ Send to (plain_head (length bytes.now)) bytes.now ∷ [])) }
        ensures stalled { IfErr result (λ stall. (stall.polls ≡ self.old.polls)
            × SendStalled (at_send (P.sight port.old) self.old to bytes.now) self.old.polls
            (in_send (P.sight port.new) self.new stall.op bytes.now) stall.spot) }
        ensures seat { (P.sight port.new).seat ≡ (P.sight port.old).seat }
        ensures same { KeepsHeap self.old self.new }
    {
        let op = SendOp::new(to, head_of(bytes));
        self.finish_send(port, op, bytes)
    }

    /// Goes on with a send or a post that gave up, with the same bytes.
    pub fn send_on<P: Port>(
        &mut self,
        port: &mut P,
        stall: SendStall,
        bytes: &[u8],
    ) -> Result<(), SendStall>
        requires open { IsInSend (P.sight port.old) self.old stall.op bytes.now }
        ensures free { IfOk result (λ done. NoCallOpen (P.sight port.new) self.new) }
        ensures calls { IfOk result (λ done. (record_in (P.sight port.new)).calls
            ≡ (record_in (P.sight port.old)).calls ++ send_call stall.op bytes.now) }
        ensures sent { IfOk result (λ done. Sent (in_send (P.sight port.old) self.old stall.op bytes.now)
            (after_send (P.sight port.new) self.new)) }
        ensures open { IfErr result (λ later. IsInSend (P.sight port.new) self.new later.op bytes.now) }
        ensures owes { IfErr result (λ later. ((record_in (P.sight port.new)).calls ≡ (record_in (P.sight port.old)).calls)
            × (send_call later.op bytes.now ≡ send_call stall.op bytes.now)) }
        ensures stalled { IfErr result (λ later. (later.polls ≡ self.old.polls)
            × SendStalled (in_send (P.sight port.old) self.old stall.op bytes.now) self.old.polls
            (in_send (P.sight port.new) self.new later.op bytes.now) later.spot) }
        ensures seat { (P.sight port.new).seat ≡ (P.sight port.old).seat }
        ensures same { KeepsHeap self.old self.new }
    {
        self.finish_send(port, stall.op, bytes)
    }

    /// Receives a message of the buffer's length from a rank (RCCE_recv).
    pub fn recv<P: Port>(
        &mut self,
        port: &mut P,
        from: Rank,
        buffer: &mut [u8],
    ) -> Result<(), RecvStop>
        requires free { NoCallOpen (P.sight port.old) self.old }
        requires peers { are_peers (P.sight port.old).seat.setup (P.sight port.old).seat.rank from ≡ true }
        requires short { length buffer.old ≤ most_message }
        ensures free { IfOk result (λ done. NoCallOpen (P.sight port.new) self.new) }
        ensures calls { IfOk result (λ done. (record_in (P.sight port.new)).calls
            ≡ (record_in (P.sight port.old)).calls ++ Recv from (plain_head (length buffer.old)) buffer.new ∷ []) }
        ensures received { IfOk result (λ done. Received (at_receive (P.sight port.old) self.old from buffer.old) self.old.polls
            (after_receive (P.sight port.new) self.new buffer.new)) }
        ensures stops { IfErr result (λ stop. StopsReceive (P.sight port.new) self.new buffer.new stop) }
        ensures owes { IfErr result (λ stop. Owes (λ bytes. Recv from (plain_head (length buffer.old)) bytes ∷ [])
            (P.sight port.old) (P.sight port.new) stop) }
        ensures why { IfErr result (λ stop. SaysWhy (at_receive (P.sight port.old) self.old from buffer.old) self.old.polls
            (after_receive (P.sight port.new) self.new buffer.new) stop) }
        ensures seat { (P.sight port.new).seat ≡ (P.sight port.old).seat }
        ensures same { KeepsSlot self.old self.new }
    {
        let op = RecvOp::new(from, head_of(buffer));
        self.finish_receive(port, op, buffer)
    }

    /// Goes on with a receive that gave up, with the same buffer.
    pub fn recv_on<P: Port>(
        &mut self,
        port: &mut P,
        stall: RecvStall,
        buffer: &mut [u8],
    ) -> Result<(), RecvStop>
        requires open { IsInReceive (P.sight port.old) self.old stall.op buffer.old }
        ensures free { IfOk result (λ done. NoCallOpen (P.sight port.new) self.new) }
        ensures calls { IfOk result (λ done. (record_in (P.sight port.new)).calls
            ≡ (record_in (P.sight port.old)).calls ++ recv_call stall.op buffer.new) }
        ensures received { IfOk result (λ done. Received (in_receive (P.sight port.old) self.old stall.op buffer.old) self.old.polls
            (after_receive (P.sight port.new) self.new buffer.new)) }
        ensures stops { IfErr result (λ stop. StopsReceive (P.sight port.new) self.new buffer.new stop) }
        ensures owes { IfErr result (λ stop. Owes (recv_call stall.op) (P.sight port.old) (P.sight port.new) stop) }
        ensures why { IfErr result (λ stop. SaysWhy (in_receive (P.sight port.old) self.old stall.op buffer.old) self.old.polls
            (after_receive (P.sight port.new) self.new buffer.new) stop) }
        ensures seat { (P.sight port.new).seat ≡ (P.sight port.old).seat }
        ensures same { KeepsSlot self.old self.new }
    {
        self.finish_receive(port, stall.op, buffer)
    }

    /// Receives a message of the buffer's length from a rank if one was sent, and answers whether one was (RCCE_recv_test).
    pub fn recv_test<P: Port>(
        &mut self,
        port: &mut P,
        from: Rank,
        buffer: &mut [u8],
    ) -> Result<bool, RecvStop>
        requires free { NoCallOpen (P.sight port.old) self.old }
        requires peers { are_peers (P.sight port.old).seat.setup (P.sight port.old).seat.rank from ≡ true }
        requires short { length buffer.old ≤ most_message }
        ensures free { IfOk result (λ found. NoCallOpen (P.sight port.new) self.new) }
        ensures calls { IfOk result (λ found. (record_in (P.sight port.new)).calls
            ≡ (record_in (P.sight port.old)).calls ++ (if found then Recv from (plain_head (length buffer.old)) buffer.new ∷ [] else [])) }
        ensures tells { IfOk result (λ found. TestEnds (at_receive (P.sight port.old) self.old from buffer.old) self.old.polls
            (after_receive (P.sight port.new) self.new buffer.new) (Ok found)) }
        ensures stops { IfErr result (λ stop. StopsReceive (P.sight port.new) self.new buffer.new stop) }
        ensures owes { IfErr result (λ stop. Owes (λ bytes. Recv from (plain_head (length buffer.old)) bytes ∷ [])
            (P.sight port.old) (P.sight port.new) stop) }
        ensures why { IfErr result (λ stop. SaysWhy (at_receive (P.sight port.old) self.old from buffer.old) self.old.polls
            (after_receive (P.sight port.new) self.new buffer.new) stop) }
        ensures seat { (P.sight port.new).seat ≡ (P.sight port.old).seat }
        ensures same { KeepsSlot self.old self.new }
    {
        let op = RecvOp::new(from, head_of(buffer));
        match recv_test(&mut self.core, port, op, buffer, self.polls) {
            Ok(found) => Ok(found),
            Err(stop) => Err(recv_stop_of(stop)),
        }
    }
}
