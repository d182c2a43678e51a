//! A collective call, one turn at a time.

ghost use Rattle.std.specs.Prelude.{◌≡◌, ◌+◌, ◌≤◌, length};
ghost use Rattle.coll_more.specs.Ops.{begun_at, bytes_by, bytes_of_piece};
ghost use Rattle.scc_base.specs.Heads.{most_message};

use crate::kinds::{More, PieceCall, Way};
use crate::seats::known;
use crate::slices::{copy_if, part_of, take_turn};
use crate::tables::{call_at, copies_own};
use line_cache::Evict;
use put_get::Core;
use scc_base::{Head, Turn};
use scc_proto::Port;
use send_recv::{RecvOp, RecvTurn, SendOp, Slot};
use std::marker::Model;

/// What a collective call does next.
#[derive(Drop)]
pub enum Stage {
    /// It copies the own piece, where it has one.
    Own,
    /// It begins the next message of its table, or is at its end.
    Between,
    /// It is in the midst of this send.
    Sending(PieceCall, SendOp),
    /// It is in the midst of this receive.
    Receiving(PieceCall, RecvOp),
}

/// A collective call of one rank, as far as it has come.
///
/// It is seen as which one it is, the length of a piece, how many of its messages have ended, and what comes next.
#[derive(Drop)]
pub struct MoreOp {
    more: More,
    len: u32,
    ended: u8,
    stage: Stage,
}

impl Model for MoreOp {
    ghost use Rattle.coll_more.specs.Ops.{MoreAt};

    ghost Value = { MoreAt };

    ghost view = { λ a. record { more = a.more; len = a.len; ended = a.ended; stage = a.stage } };
}

// The op of a message of the table, of which nothing is done yet.
fn begun(call: PieceCall) -> Stage
    requires short { call.len ≤ most_message }
    ensures gives { result ≡ begun_at call }
{
    let Some(head) = Head::plain(call.len) else {
        unreachable!()
    };
    match call.way {
        Way::Gives => Stage::Sending(call, SendOp::new(call.peer, head)),
        Way::Shares => Stage::Sending(call, SendOp::new(call.peer, head)),
        Way::Takes => Stage::Receiving(call, RecvOp::new(call.peer, head)),
    }
}

// The bytes of a message that is sent.
fn bytes_out<'a>(call: &PieceCall, src: &'a [u8], dst: &'a [u8]) -> &'a [u8]
    requires within { call.now.first + call.now.len ≤ length (bytes_by call.now.way src.now dst.now) }
    ensures gives { result.now ≡ bytes_of_piece call.now src.now dst.now }
{
    match call.way {
        Way::Gives => part_of(src, call.first, call.len as usize),
        Way::Shares => part_of(dst, call.first, call.len as usize),
        Way::Takes => part_of(dst, call.first, call.len as usize),
    }
}

impl MoreOp {
    ghost use Rattle.std.specs.Prelude.{◌≡◌, ◌≤◌, ℕ, List, Some, None, IsTrue};
    ghost use Rattle.scc_base.specs.Calls.{DataCall};
    ghost use Rattle.scc_base.specs.declared.events.Spot.{Spot};
    ghost use Rattle.put_get.specs.Cores.{MadeSteps, Private};
    ghost use Rattle.send_recv.specs.Ops.{SlotAt};
    ghost use Rattle.send_recv.specs.Receiving.{recv_waits};
    ghost use Rattle.send_recv.specs.declared.answers.RecvTurn.TheVariants as turn;
    ghost use Rattle.coll_more.specs.Ops.{new_more, taking_part};
    ghost use Rattle.coll_more.specs.Standing.{HasEnded, MoreStands, Stands};
    ghost use Rattle.coll_more.specs.Turns.{MoreTurned, MoreTurns, is_between, is_copying_own, has_receive_in_hand, has_send_in_hand};

    /// A collective call at its start, with pieces of this length.
    pub fn new(more: More, len: u32) -> MoreOp
        ensures starts { result ≡ new_more more len }
    {
        MoreOp {
            more,
            len,
            ended: 0,
            stage: Stage::Own,
        }
    }

    // Copies the own piece, where there is one.
    fn copy_own<P: Port>(&mut self, port: &P, src: &[u8], dst: &mut [u8]) -> RecvTurn
        requires own { IsTrue (is_copying_own self.old.stage) }
        requires stands { (c : Private) × (slot : SlotAt) × Stands (taking_part (P.sight port.now) c self.old slot src.now dst.old) }
        ensures turns { (c : Private) (slot : SlotAt) → Stands (taking_part (P.sight port.now) c self.old slot src.now dst.old)
            → MoreTurns (taking_part (P.sight port.now) c self.old slot src.now dst.old)
            (taking_part (P.sight port.now) c self.new slot src.now dst.new) result }
        ensures moves { result ≡ turn.Moved }
    {
        known(port);
        let rank = port.rank();
        let len = self.len as usize;
        copy_if(
            copies_own(self.more, rank),
            src,
            dst,
            rank.number() as usize * len,
            len,
        );
        self.stage = Stage::Between;
        RecvTurn::Moved
    }

    // Begins the next message, or is at its end.
    fn begin_next<P: Port>(&mut self, port: &P) -> RecvTurn
        requires between { IsTrue (is_between self.old.stage) }
        requires short { self.old.len ≤ 1024 }
        ensures turns { (c : Private) (slot : SlotAt) (src dst : List ℕ) → Stands (taking_part (P.sight port.now) c self.old slot src dst)
            → MoreTurns (taking_part (P.sight port.now) c self.old slot src dst)
            (taking_part (P.sight port.now) c self.new slot src dst) result }
        ensures goes { recv_waits result ≡ None }
    {
        known(port);
        match call_at(
            self.more,
            port.rank(),
            port.setup().nue(),
            self.len,
            self.ended,
        ) {
            Some(call) => {
                self.stage = begun(call);
                RecvTurn::Moved
            }
            None => RecvTurn::Done,
        }
    }

    // One turn of the send in hand.
    fn go_on_sending<V: Evict, P: Port>(
        &mut self,
        core: &mut Core<V>,
        port: &mut P,
        slot: &mut Slot,
        src: &[u8],
        dst: &[u8],
    ) -> RecvTurn
        requires sending { IsTrue (has_send_in_hand self.old.stage) }
        requires stands { Stands (taking_part (P.sight port.old) core.old self.old slot.old src.now dst.now) }
        ensures turns { MoreTurns (taking_part (P.sight port.old) core.old self.old slot.old src.now dst.now)
            (taking_part (P.sight port.new) core.new self.new slot.new src.now dst.now) result }
        ensures steps { (spot : Spot) → recv_waits result ≡ Some spot → MadeSteps P.stepped (P.sight port.old) (P.sight port.new) }
    {
        known(port);
        match &mut self.stage {
            Stage::Sending(call, op) => {
                match op.turn(core, port, slot, bytes_out(call, src, dst)) {
                    Turn::Moved => RecvTurn::Moved,
                    Turn::Waiting(spot) => RecvTurn::Waiting(spot),
                    Turn::Done => {
                        self.ended += 1;
                        self.stage = Stage::Between;
                        RecvTurn::Moved
                    }
                }
            }
            _ => unreachable!(),
        }
    }

    // One turn of the receive in hand.
    fn go_on_receiving<V: Evict, P: Port>(
        &mut self,
        core: &mut Core<V>,
        port: &mut P,
        dst: &mut [u8],
    ) -> RecvTurn
        requires receiving { IsTrue (has_receive_in_hand self.old.stage) }
        requires stands { (slot : SlotAt) × (src : List ℕ) × Stands (taking_part (P.sight port.old) core.old self.old slot src dst.old) }
        ensures turns { (slot : SlotAt) (src : List ℕ) → Stands (taking_part (P.sight port.old) core.old self.old slot src dst.old)
            → MoreTurns (taking_part (P.sight port.old) core.old self.old slot src dst.old)
            (taking_part (P.sight port.new) core.new self.new slot src dst.new) result }
        ensures steps { (spot : Spot) → recv_waits result ≡ Some spot → MadeSteps P.stepped (P.sight port.old) (P.sight port.new) }
    {
        known(port);
        match &mut self.stage {
            Stage::Receiving(call, op) => {
                match take_turn(op, core, port, dst, call.first, call.len as usize) {
                    RecvTurn::Moved => RecvTurn::Moved,
                    RecvTurn::Waiting(spot) => RecvTurn::Waiting(spot),
                    RecvTurn::Mismatch(sent) => RecvTurn::Mismatch(sent),
                    RecvTurn::Done => {
                        self.ended += 1;
                        self.stage = Stage::Between;
                        RecvTurn::Moved
                    }
                }
            }
            _ => unreachable!(),
        }
    }

    /// Goes on by one turn: it copies the own piece, begins the next message, or makes a turn of the message in hand. `src` is
    /// the same at each turn, and `dst` as the turns before left it.
    pub fn turn<V: Evict, P: Port>(
        &mut self,
        core: &mut Core<V>,
        port: &mut P,
        slot: &mut Slot,
        src: &[u8],
        dst: &mut [u8],
    ) -> RecvTurn
        requires stands { Stands (taking_part (P.sight port.old) core.old self.old slot.old src.now dst.old) }
        // The op and the rank fit together as before, over the same earlier calls.
        ensures stands { (base : List DataCall)
            → MoreStands base (taking_part (P.sight port.old) core.old self.old slot.old src.now dst.old)
            → MoreStands base (taking_part (P.sight port.new) core.new self.new slot.new src.now dst.new) }
        ensures turned { MoreTurned (taking_part (P.sight port.old) core.old self.old slot.old src.now dst.old)
            (taking_part (P.sight port.new) core.new self.new slot.new src.now dst.new) result }
        // Done: the record has gained exactly the calls of the table, with the bytes of src and dst.
        ensures ended { (base : List DataCall) → MoreStands base (taking_part (P.sight port.old) core.old self.old slot.old src.now dst.old)
            → result ≡ turn.Done → HasEnded base (taking_part (P.sight port.new) core.new self.new slot.new src.now dst.new) }
        ensures steps { (spot : Spot) → recv_waits result ≡ Some spot → MadeSteps P.stepped (P.sight port.old) (P.sight port.new) }
    {
        match &self.stage {
            Stage::Own => self.copy_own(port, src, dst),
            Stage::Between => self.begin_next(port),
            Stage::Sending(_, _) => self.go_on_sending(core, port, slot, src, dst),
            Stage::Receiving(_, _) => self.go_on_receiving(core, port, dst),
        }
    }
}
