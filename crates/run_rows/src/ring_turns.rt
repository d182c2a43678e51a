//! The turns of the ranks of a ring.

ghost use Rattle.std.specs.Prelude.{◌≡◌, ◌<◌};
ghost use Rattle.scc_base.specs.Heads.{plain_head};
ghost use Rattle.chip_run.specs.Turns.{Turned};
ghost use Rattle.run_rows.specs.Rings.{IsPassing, IsSeated, message_to_begin, passer_behaviour};

use crate::rings::{Message, Passer};
use chip_run::{Member, Worker};
use line_cache::Never;
use put_get::Core;
use scc_base::{Head, Rank, Turn};
use scc_proto::Port;
use send_recv::{RecvOp, RecvTurn, SendOp, Slot};

// One turn of a rank's unfinished message. After a message the next one begins.
fn go_on<P: Port>(rank: &mut Passer, port: &mut P) -> Turn
    requires ties { IsPassing rank.old (P.sight port.old).seat.setup (P.sight port.old).seat.rank (P.sight port.old).events }
    ensures ties { IsPassing rank.new (P.sight port.new).seat.setup (P.sight port.new).seat.rank (P.sight port.new).events }
    ensures turned { Turned passer_behaviour (P.stepped (P.sight port.old).seat) rank.old (P.sight port.old) rank.new
        (P.sight port.new) result }
{
    match &mut rank.message {
        Message::Sending(op) => {
            match op.turn(&mut rank.core, port, &mut rank.slot, &rank.number) {
                Turn::Moved => Turn::Moved,
                Turn::Waiting(spot) => Turn::Waiting(spot),
                Turn::Done => {
                    rank.message = begun(false, rank.is_first, rank.head, rank.from, rank.to);
                    Turn::Moved
                }
            }
        }
        Message::Receiving(op) => match op.turn(&mut rank.core, port, &mut rank.number) {
            RecvTurn::Moved => Turn::Moved,
            RecvTurn::Waiting(spot) => Turn::Waiting(spot),
            RecvTurn::Done => {
                rank.number[0] = rank.number[0].wrapping_add(1);
                rank.message = begun(!rank.is_first, false, rank.head, rank.from, rank.to);
                Turn::Moved
            }
            RecvTurn::Mismatch(_) => {
                rank.message = Message::Over;
                rank.stopped = true;
                Turn::Moved
            }
        },
        Message::Over => Turn::Done,
    }
}

impl Worker for Passer {
    ghost use Rattle.run_rows.specs.Rings.{passer_behaviour};

    ghost behaviour = { passer_behaviour };

    fn turn<P: Port>(&mut self, port: P) -> (Turn, P) {
        let mut port = port;
        let answer = go_on(self, &mut port);
        (answer, port)
    }

    fn batch<P: Port>(&mut self, port: P) -> (Turn, P) {
        self.turn(port)
    }

    fn is_stopped(&self) -> bool {
        self.stopped
    }

    ghost hands = { λ p s rank events ties. ties.hands };
}

/// The message that a rank begins: a send to the next one, a receive from the one before, or none.
fn begun(sends: bool, gets: bool, head: Head, from: Rank, to: Rank) -> Message
    ensures { result ≡ message_to_begin sends gets head from to }
{
    if sends {
        return Message::Sending(SendOp::new(to, head));
    }
    if gets {
        return Message::Receiving(RecvOp::new(from, head));
    }
    Message::Over
}

/// The head of a message of one byte.
fn one_byte() -> Head
    ensures gives { result ≡ plain_head 1 }
{
    match Head::plain(1) {
        Some(head) => head,
        None => unreachable!(),
    }
}

/// A rank of the ring before its first turn, with its port on the chip and its neighbours.
pub(crate) fn seated(before: u8, next: u8, is_first: bool, number: u8) -> Member<Passer>
    requires before { before < 48 }
    requires next { next < 48 }
    ensures seated { IsSeated result before next }
{
    let head = one_byte();
    let from = Rank::of(before);
    let to = Rank::of(next);
    Member::new(Passer {
        core: Core::new(Never),
        slot: Slot::new(),
        head,
        from,
        to,
        is_first,
        number: [number],
        message: begun(is_first, !is_first, head, from, to),
        stopped: false,
    })
}
