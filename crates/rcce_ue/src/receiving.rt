//! A receive that stands open, into the front of the inbox.

ghost use Rattle.std.specs.Prelude.{◌≡◌, ◌≤◌, length, take};

use line_cache::Evict;
use put_get::Core;
use scc_base::{Head, Rank};
use scc_proto::Port;
use send_recv::{RecvOp, RecvTurn};
use std::marker::Model;

/// A receive as far as it has come. It is seen as the receive alone; beside it stands the length of the message that it asks
/// for, so that no turn has to find the call anew.
#[derive(Drop)]
pub struct OpenReceive {
    op: RecvOp,
    len: usize,
}

impl Model for OpenReceive {
    ghost use Rattle.std.specs.Prelude.{◌≡◌};
    ghost use Rattle.send_recv.specs.Ops.{RecvAt};

    ghost Value = { RecvAt };

    ghost view = { λ r. r.op };

    ghost invariant = { λ r. r.len ≡ r.op.head.len };
}

impl OpenReceive {
    ghost use Rattle.std.specs.Prelude.{◌≡◌, ◌≤◌, Some, is_none, length, take, true};
    ghost use Rattle.scc_base.specs.declared.events.Spot.{Spot};
    ghost use Rattle.put_get.specs.Cores.{MadeSteps};
    ghost use Rattle.send_recv.specs.Ops.{new_receive};
    ghost use Rattle.send_recv.specs.Receiving.{RecvStands, RecvTurned, recv_spot, recv_waits};
    ghost use Rattle.send_recv.specs.Ranks.{receiving};
    ghost use Rattle.send_recv.specs.Batches.{ReadLines, is_reading};

    /// A receive at the start of a message with this head.
    pub fn new(from: Rank, head: Head) -> OpenReceive
        ensures { result ≡ new_receive from head }
    {
        OpenReceive {
            op: RecvOp::new(from, head),
            len: head.len() as usize,
        }
    }

    /// Goes on by one turn, into the first bytes of the inbox.
    #[inline(always)]
    pub fn turn<V: Evict, P: Port>(
        &mut self,
        core: &mut Core<V>,
        port: &mut P,
        inbox: &mut [u8],
    ) -> RecvTurn
        requires within { self.old.head.len ≤ length inbox.old }
        requires stands { RecvStands (P.sight port.old) core.old self.old (take self.old.head.len inbox.old) }
        ensures stands { RecvStands (P.sight port.new) core.new self.new (take self.old.head.len inbox.new) }
        ensures turned { RecvTurned (receiving (P.sight port.old) core.old self.old (take self.old.head.len inbox.old))
            (receiving (P.sight port.new) core.new self.new (take self.old.head.len inbox.new)) result }
        ensures steps { (spot : Spot) → recv_waits result ≡ Some spot → MadeSteps P.stepped (P.sight port.old) (P.sight port.new) }
    {
        let (front, _) = inbox.split_at_mut(self.len);
        self.op.turn(core, port, front)
    }

    /// Whether the next turn makes no try, so that it does not wait.
    pub fn is_sure<P: Port>(&self, port: &P) -> bool
        ensures { result ≡ is_none (recv_spot (P.sight port.now).seat self.now) }
    {
        self.op.is_sure(port)
    }

    /// Whether the next turn reads a line of the chunk in hand.
    pub fn is_reading(&self) -> bool
        ensures { result ≡ is_reading self.now.stage }
    {
        self.op.is_reading()
    }

    /// Goes on by the turns that read the lines of the chunk in hand which are left, into the first bytes of the inbox.
    pub fn read_lines<V: Evict, P: Port>(
        &mut self,
        core: &mut Core<V>,
        port: &mut P,
        inbox: &mut [u8],
    )
        requires within { self.old.head.len ≤ length inbox.old }
        requires stands { RecvStands (P.sight port.old) core.old self.old (take self.old.head.len inbox.old) }
        requires reading { is_reading self.old.stage ≡ true }
        ensures stands { RecvStands (P.sight port.new) core.new self.new (take self.old.head.len inbox.new) }
        ensures read { ReadLines (receiving (P.sight port.old) core.old self.old (take self.old.head.len inbox.old))
            (receiving (P.sight port.new) core.new self.new (take self.old.head.len inbox.new)) }
    {
        let (front, _) = inbox.split_at_mut(self.len);
        self.op.read_lines(core, port, front);
    }
}

/// The first bytes.
pub(crate) fn front_of(bytes: &[u8], len: usize) -> &[u8]
    requires within { len ≤ length bytes.now }
    ensures { result.now ≡ take len bytes.now }
{
    &bytes[..len]
}
