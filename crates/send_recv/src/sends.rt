//! Sending and posting one message, one turn at a time.

ghost use Rattle.std.specs.Prelude.{◌≡◌};
ghost use Rattle.send_recv.specs.Steps.{before_raise};

use crate::chunks::{is_last, lines_in, start_of};
use crate::flags::{changes_at_once, look_for, lower, raise};
use crate::heads::header_line;
use crate::places::{known, layout_of, own_core};
use crate::slices::{known_bytes, line_from};
use crate::slots::Slot;
use crate::stages::SendStage;
use line_cache::Evict;
use put_get::Core;
use scc_base::{Head, Layout, Line, PostHead, Rank, Signal, Turn};
use scc_proto::Port;
use std::marker::Model;

/// A send or a post of one message to one rank, as far as it has come.
///
/// It is seen as its peer, its head, whether it is a post, the number of the chunk in hand, and what it does
/// next.
#[derive(Drop)]
pub struct SendOp {
    to: Rank,
    head: Head,
    posted: bool,
    chunk: u8,
    stage: SendStage,
}

impl Model for SendOp {
    ghost use Rattle.send_recv.specs.Ops.{SendAt};

    ghost Value = { SendAt };

    ghost view = { λ a. record { to = a.to; head = a.head; posted = a.posted; chunk = a.chunk; stage = a.stage } };
}

// What comes once the last line of a chunk is written.
fn after_lines(layout: Layout) -> SendStage
    ensures gives { result ≡ before_raise layout }
{
    match layout {
        Layout::LineFlags => SendStage::Raise,
        Layout::BitFlags => SendStage::Flush,
    }
}

impl SendOp {
    ghost use Rattle.std.specs.Prelude.{◌≡◌, ◌<◌, None, Some, true, false, is_none};
    ghost use Rattle.sync_flags.specs.Turns.{waits_at};
    ghost use Rattle.scc_base.specs.declared.events.Spot.{Spot};
    ghost use Rattle.scc_base.specs.declared.events.Turn.TheVariants.{Moved};
    ghost use Rattle.scc_proto.specs.Ports.{MayMakeAll, record_in};
    ghost use Rattle.write_combine.specs.Combining.{handed_out};
    ghost use Rattle.put_get.specs.Accesses.{stores_of};
    ghost use Rattle.put_get.specs.Cores.{WritesLine, Flushes, MadeSteps};
    ghost use Rattle.send_recv.specs.Chunks.{chunk_lines_of};
    ghost use Rattle.send_recv.specs.Ops.{new_send};
    ghost use Rattle.send_recv.specs.Sending.{SendStands, SendTurned, header_words, send_spot};
    ghost use Rattle.scc_base.specs.declared.signals.Signal.TheVariants.{Sent, Ready};
    ghost use Rattle.send_recv.specs.Sights.{chunk_at, IsSeatPeer, own_header_line, own_chunk_line, words_of_line, LooksFor, Raises, Lowers, MayRaise, MayLower, signal_spot, own_register, register_spot};
    ghost use Rattle.send_recv.specs.Steps.{moves_on, moved_or_waits, after_header, after_written, after_flush, after_sent, sent_answer, slot_sent, after_seen, after_through, through_answer};
    ghost use Rattle.send_recv.specs.Ranks.{sending};
    ghost use Rattle.send_recv.specs.Batches.{WroteLines, is_writing};

    /// A send at the start of a message with this head.
    pub fn new(to: Rank, head: Head) -> SendOp
        ensures starts { result ≡ new_send to head false }
    {
        SendOp {
            to,
            head,
            posted: false,
            chunk: 0,
            stage: SendStage::Header,
        }
    }

    /// A post at the start of a message with this head. It is done once the message is on its way.
    pub fn post(to: Rank, head: PostHead) -> SendOp
        ensures starts { result ≡ new_send to head true }
    {
        SendOp {
            to,
            head: head.head(),
            posted: true,
            chunk: 0,
            stage: SendStage::Header,
        }
    }

    // Writes the header line.
    #[inline(always)]
    fn write_header<V: Evict, P: Port>(&mut self, core: &mut Core<V>, port: &mut P) -> Turn
        requires empty { core.old.out ≡ None }
        ensures writes { WritesLine (P.sight port.old) core.old (own_header_line (P.sight port.old))
            (header_words self.old.head self.old.posted) (P.sight port.new) core.new }
        ensures next { self.new ≡ after_header (P.sight port.old).seat.setup.layout self.old }
        ensures answers { result ≡ Moved }
    {
        let line = Line::new(own_core(port), 0);
        core.line_write(port, line, &header_line(&self.head, self.posted));
        let layout = layout_of(port);
        if lines_in(layout, self.head.len(), self.chunk) == 0 {
            self.stage = after_lines(layout);
            return Turn::Moved;
        }
        self.stage = SendStage::Lines(0);
        Turn::Moved
    }

    // Writes a line of the chunk.
    #[inline(always)]
    fn write_line<V: Evict, P: Port>(
        &mut self,
        core: &mut Core<V>,
        port: &mut P,
        bytes: &[u8],
        line: u8,
    ) -> Turn
        requires in_chunk { line < chunk_lines_of (chunk_at (P.sight port.old)) self.old.head.len self.old.chunk }
        requires other { handed_out core.old.out (own_chunk_line (P.sight port.old) line) ≡ core.old.out }
        requires permitted { MayMakeAll (P.sight port.old).seat (record_in (P.sight port.old)) (stores_of core.old.out) }
        ensures writes { WritesLine (P.sight port.old) core.old (own_chunk_line (P.sight port.old) line)
            (words_of_line bytes.now (P.sight port.old) self.old.chunk line) (P.sight port.new) core.new }
        ensures next { self.new ≡ after_written (P.sight port.old).seat.setup.layout line self.old }
        ensures answers { result ≡ Moved }
    {
        let layout = layout_of(port);
        let at = Line::new(own_core(port), layout.first_chunk_line() + line);
        let start = start_of(layout, self.chunk) + 32 * line as usize;
        core.line_write(port, at, &line_from(bytes, start));
        if line + 1 < lines_in(layout, self.head.len(), self.chunk) {
            self.stage = SendStage::Lines(line + 1);
            return Turn::Moved;
        }
        self.stage = after_lines(layout);
        Turn::Moved
    }

    // Stores what still waits in the write-combining buffer.
    fn flush_lines<V: Evict, P: Port>(&mut self, core: &mut Core<V>, port: &mut P) -> Turn
        requires permitted { MayMakeAll (P.sight port.old).seat (record_in (P.sight port.old)) (stores_of core.old.out) }
        ensures flushes { Flushes (P.sight port.old) core.old (P.sight port.new) core.new }
        ensures next { self.new ≡ after_flush self.old }
        ensures answers { result ≡ Moved }
    {
        core.flush(port);
        self.stage = SendStage::Raise;
        Turn::Moved
    }

    // Raises the `sent` flag at the receiver. A post is done, and its message is in the slot.
    #[inline(always)]
    fn raise_sent<V: Evict, P: Port>(
        &mut self,
        core: &mut Core<V>,
        port: &mut P,
        slot: &mut Slot,
    ) -> Turn
        requires peers { IsSeatPeer (P.sight port.old) self.old.to }
        requires may { MayRaise Sent (P.sight port.old) core.old self.old.to }
        ensures changes { Raises Sent (P.sight port.old) core.old self.old.to (moves_on result) (P.sight port.new) core.new }
        ensures next { self.new ≡ after_sent (moves_on result) self.old }
        ensures fills { slot.new ≡ slot_sent (moves_on result) self.old slot.old }
        ensures answers { result ≡ sent_answer (moves_on result) (register_spot (P.sight port.old) self.old.to) self.old }
        ensures steps { moves_on result ≡ false → MadeSteps P.stepped (P.sight port.old) (P.sight port.new) }
    {
        if let Some(spot) = raise(core, port, Signal::Sent, self.to) {
            return Turn::Waiting(spot);
        }
        if self.posted {
            slot.fill(self.to);
            self.stage = SendStage::Finished;
            return Turn::Done;
        }
        self.stage = SendStage::Look;
        Turn::Moved
    }

    // Looks whether the chunk was taken.
    #[inline(always)]
    fn look_ready<V: Evict, P: Port>(&mut self, core: &mut Core<V>, port: &mut P) -> Turn
        requires empty { core.old.out ≡ None }
        ensures looks { LooksFor Ready (P.sight port.old) core.old self.old.to (moves_on result) (P.sight port.new) core.new }
        ensures next { self.new ≡ after_seen (moves_on result) self.old }
        ensures answers { result ≡ moved_or_waits (moves_on result) (signal_spot Ready (P.sight port.old) self.old.to) }
        ensures steps { MadeSteps P.stepped (P.sight port.old) (P.sight port.new) }
    {
        if let Some(spot) = look_for(core, port, Signal::Ready, self.to) {
            return Turn::Waiting(spot);
        }
        self.stage = SendStage::Lower;
        Turn::Moved
    }

    // Lowers the `ready` flag, after which the next chunk may be written.
    #[inline(always)]
    fn lower_ready<V: Evict, P: Port>(&mut self, core: &mut Core<V>, port: &mut P) -> Turn
        requires may { MayLower Ready (P.sight port.old) core.old self.old.to }
        requires some_left { self.old.chunk < 255 }
        ensures changes { Lowers Ready (P.sight port.old) core.old self.old.to (moves_on result) (P.sight port.new) core.new }
        ensures next { self.new ≡ after_through (chunk_at (P.sight port.old)) (moves_on result) self.old }
        ensures answers { result
            ≡ through_answer (chunk_at (P.sight port.old)) (moves_on result) (own_register (P.sight port.old)) self.old }
        ensures steps { moves_on result ≡ false → MadeSteps P.stepped (P.sight port.old) (P.sight port.new) }
    {
        let layout = layout_of(port);
        if let Some(spot) = lower(core, port, Signal::Ready, self.to) {
            return Turn::Waiting(spot);
        }
        if is_last(layout, self.head.len(), self.chunk) {
            self.stage = SendStage::Finished;
            return Turn::Done;
        }
        self.chunk += 1;
        self.stage = SendStage::Lines(0);
        Turn::Moved
    }

    /// Goes on by one turn: a turn of the slot first, until that is empty; then it writes one line or one
    /// flag, or looks once.
    #[inline(always)]
    pub fn turn<V: Evict, P: Port>(
        &mut self,
        core: &mut Core<V>,
        port: &mut P,
        slot: &mut Slot,
        bytes: &[u8],
    ) -> Turn
        requires stands { SendStands (P.sight port.old) core.old self.old slot.old bytes.now }
        ensures stands { SendStands (P.sight port.new) core.new self.new slot.new bytes.now }
        ensures turned { SendTurned (sending (P.sight port.old) core.old self.old slot.old bytes.now)
            (sending (P.sight port.new) core.new self.new slot.new bytes.now) result }
        ensures steps { (spot : Spot) → waits_at result ≡ Some spot → MadeSteps P.stepped (P.sight port.old) (P.sight port.new) }
    {
        known(port);
        known_bytes(bytes);
        match self.stage {
            SendStage::Header => {
                if slot.holds().is_some() {
                    slot.turn(core, port)
                } else {
                    self.write_header(core, port)
                }
            }
            SendStage::Lines(line) => self.write_line(core, port, bytes, line),
            SendStage::Flush => self.flush_lines(core, port),
            SendStage::Raise => self.raise_sent(core, port, slot),
            SendStage::Look => self.look_ready(core, port),
            SendStage::Lower => self.lower_ready(core, port),
            SendStage::Finished => Turn::Done,
        }
    }

    /// Whether the next turn makes no try, so that it does not wait.
    #[inline]
    pub fn is_sure<P: Port>(&self, port: &P, slot: &Slot) -> bool
        ensures tells { result ≡ is_none (send_spot (P.sight port.now).seat self.now slot.now) }
    {
        match self.stage {
            SendStage::Header => slot.is_sure(port),
            SendStage::Lines(_) | SendStage::Flush | SendStage::Finished => true,
            SendStage::Look => false,
            SendStage::Raise | SendStage::Lower => changes_at_once(layout_of(port)),
        }
    }

    /// Whether the next turn writes a line of the chunk in hand.
    pub fn is_writing(&self) -> bool
        ensures tells { result ≡ is_writing self.now.stage }
    {
        matches!(self.stage, SendStage::Lines(_))
    }

    /// Goes on by the turns that write the lines of the chunk in hand which are left, and by no other.
    pub fn write_lines<V: Evict, P: Port>(
        &mut self,
        core: &mut Core<V>,
        port: &mut P,
        slot: &Slot,
        bytes: &[u8],
    )
        requires stands { SendStands (P.sight port.old) core.old self.old slot.now bytes.now }
        requires writing { is_writing self.old.stage ≡ true }
        ensures stands { SendStands (P.sight port.new) core.new self.new slot.now bytes.now }
        ensures wrote { WroteLines (sending (P.sight port.old) core.old self.old slot.now bytes.now) (P.sight port.new) core.new
            self.new slot.now }
        ensures whole { is_writing self.new.stage ≡ false }
    {
        'lines: while let SendStage::Lines(line) = self.stage {
            known(port);
            self.write_line(core, port, bytes, line);
        }
    }
}
