//! The one posted message of a station.

use crate::messages::head_of;
use crate::stations::Station;
use crate::stops::SendStall;
use line_cache::Evict;
use scc_base::{PostHead, Rank, Turn};
use scc_proto::Port;
use send_recv::SendOp;

impl<V: Evict> Station<V> {
    ghost use Rattle.std.specs.Prelude.{◌≡◌, ◌≤◌, [], ◌∷◌, ◌++◌, true, Some, length, IfOk, IfErr};
    ghost use Rattle.scc_base.specs.Calls.{Post};
    ghost use Rattle.scc_base.specs.Heads.{plain_head, most_post};
    ghost use Rattle.scc_proto.specs.Ports.{record_in};
    ghost use Rattle.scc_proto.specs.Words.{are_peers};
    ghost use Rattle.send_recv.specs.Calling.{Sent, SendStalled};
    ghost use Rattle.send_recv.specs.Sending.{SlotTurned, send_call};
    ghost use Rattle.station.specs.Calls.{at_post, after_send, in_send};
    ghost use Rattle.station.specs.Stations.{IsInSend, KeepsHeap, NoCallOpen};

    /// Posts bytes to a rank, without waiting until they are taken; a message that was posted before is waited for first.
    pub fn post<P: Port>(&mut self, port: &mut P, to: Rank, bytes: &[u8]) -> Result<(), SendStall>
        requires free { NoCallOpen (P.sight port.old) self.old }
        requires peers { are_peers (P.sight port.old).seat.setup (P.sight port.old).seat.rank to ≡ true }
        requires short { length bytes.now ≤ most_post }
        ensures free { IfOk result (λ done. NoCallOpen (P.sight port.new) self.new) }
        ensures calls { IfOk result (λ done. (record_in (P.sight port.new)).calls
            ≡ (record_in (P.sight port.old)).calls ++ Post to (plain_head (length bytes.now)) bytes.now ∷ []) }
        ensures posted { IfOk result (λ done. Sent (at_post (P.sight port.old) self.old to bytes.now)
            (after_send (P.sight port.new) self.new)) }
        ensures open { IfErr result (λ stall. IsInSend (P.sight port.new) self.new stall.op bytes.now) }
        ensures owes { IfErr result (λ stall. ((record_in (P.sight port.new)).calls ≡ (record_in (P.sight port.old)).calls)
            × (send_call stall.op bytes.now ≡ Post to (plain_head (length bytes.now)) bytes.now ∷ [])) }
        ensures stalled { IfErr result (λ stall. (stall.polls ≡ self.old.polls)
            × SendStalled (at_post (P.sight port.old) self.old to bytes.now) self.old.polls
            (in_send (P.sight port.new) self.new stall.op bytes.now) stall.spot) }
        ensures seat { (P.sight port.new).seat ≡ (P.sight port.old).seat }
        ensures same { KeepsHeap self.old self.new }
    {
        let Some(head) = PostHead::plain(bytes.len() as u32) else {
            unreachable!()
        };
        self.finish_send(port, SendOp::post(to, head), bytes)
    }

    /// The rank to which the posted message is on its way, and None where there is none.
    pub fn posted(&self) -> Option<Rank>
        ensures gives { result ≡ self.now.slot.to }
    {
        self.slot.holds()
    }

    /// Goes on with the posted message by one turn: it looks once whether the message was taken, or lowers the flag that said so.
    pub fn push<P: Port>(&mut self, port: &mut P) -> Turn
        requires free { NoCallOpen (P.sight port.old) self.old }
        ensures free { NoCallOpen (P.sight port.new) self.new }
        ensures calls { (record_in (P.sight port.new)).calls ≡ (record_in (P.sight port.old)).calls }
        ensures turned { SlotTurned (after_send (P.sight port.old) self.old) (after_send (P.sight port.new) self.new) result }
        ensures seat { (P.sight port.new).seat ≡ (P.sight port.old).seat }
        ensures same { KeepsHeap self.old self.new }
    {
        self.slot.turn(&mut self.core, port)
    }
}
