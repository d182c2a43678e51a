//! Receiving one message, one turn at a time.

use crate::answers::RecvTurn;
use crate::chunks::{is_last, lines_in, start_of};
use crate::flags::{changes_at_once, look_for, lower, raise};
use crate::heads::{head_from, is_same};
use crate::places::{core_of, known, layout_of};
use crate::slices::put_line;
use crate::stages::RecvStage;
use line_cache::Evict;
use put_get::Core;
use scc_base::{Head, Layout, Line, Rank, Signal};
use scc_proto::Port;
use std::marker::Model;

/// A receive of one message from one rank, as far as it has come.
///
/// It is seen as its peer, its head, the number of the chunk in hand, and what it does next.
#[derive(Drop)]
pub struct RecvOp {
    from: Rank,
    head: Head,
    chunk: u8,
    stage: RecvStage,
}

impl Model for RecvOp {
    ghost use Rattle.send_recv.specs.Ops.{RecvAt};

    ghost Value = { RecvAt };

    ghost view = { λ a. record { from = a.from; head = a.head; chunk = a.chunk; stage = a.stage } };
}

impl RecvOp {
    ghost use Rattle.std.specs.Prelude.{◌≡◌, ◌+◌, ◌*◌, ◌≤◌, ◌<◌, ℕ, true, false, None, Some, is_none, length, slice_index, List};
    ghost use Rattle.scc_proto.specs.Messages.{Notes};
    ghost use Rattle.scc_proto.specs.Ports.{IsSoundPort, record_in};
    ghost use Rattle.put_get.specs.Cores.{ReadsLine, MadeSteps};
    ghost use Rattle.send_recv.specs.Bytes.{byte_of_line};
    ghost use Rattle.scc_base.specs.Layouts.{chunk_size};
    ghost use Rattle.send_recv.specs.Chunks.{chunk_lines_of, chunk_start};
    ghost use Rattle.send_recv.specs.Ops.{new_receive};
    ghost use Rattle.send_recv.specs.Receiving.{RecvStands, RecvTurned, recv_spot, recv_waits};
    ghost use Rattle.scc_base.specs.declared.signals.Signal.TheVariants.{Sent, Ready};
    ghost use Rattle.send_recv.specs.Sights.{chunk_at, IsSeatPeer, first_byte, header_line, chunk_line, LooksFor, Lowers, Raises, MayLower, MayRaise, signal_spot, own_register, register_spot};
    ghost use Rattle.send_recv.specs.Steps.{with_empty_cache, goes_on, recv_or_waits, after_look, after_lower, after_line, after_raise, raise_answer, HeadRead, before_line};
    ghost use Rattle.send_recv.specs.Ranks.{receiving};
    ghost use Rattle.send_recv.specs.Batches.{ReadLines, is_reading};
    ghost use Rattle.scc_base.specs.declared.events.Spot.{Spot};
    ghost use Rattle.scc_base.specs.declared.events.Spot.TheVariants.{Register};

    /// A receive at the start of a message with this head.
    pub fn new(from: Rank, head: Head) -> RecvOp
        ensures starts { result ≡ new_receive from head }
    {
        RecvOp {
            from,
            head,
            chunk: 0,
            stage: RecvStage::Look,
        }
    }

    /// The head that is asked for.
    pub fn head(&self) -> Head
        ensures gives { result ≡ self.now.head }
    {
        self.head
    }

    // Looks whether the next chunk was sent.
    #[inline(always)]
    fn look_sent<V: Evict, P: Port>(&mut self, core: &mut Core<V>, port: &mut P) -> RecvTurn
        requires empty { core.old.out ≡ None }
        ensures looks { LooksFor Sent (P.sight port.old) core.old self.old.from (goes_on result) (P.sight port.new) core.new }
        ensures next { self.new ≡ after_look (goes_on result) self.old }
        ensures answers { result ≡ recv_or_waits (goes_on result) (signal_spot Sent (P.sight port.old) self.old.from) }
        ensures steps { MadeSteps P.stepped (P.sight port.old) (P.sight port.new) }
    {
        if let Some(spot) = look_for(core, port, Signal::Sent, self.from) {
            return RecvTurn::Waiting(spot);
        }
        if self.chunk == 0 {
            self.stage = RecvStage::Header;
            return RecvTurn::Moved;
        }
        self.stage = RecvStage::Lower;
        RecvTurn::Moved
    }

    // Reads the header line of the sender.
    #[inline(always)]
    fn read_head<V: Evict, P: Port>(&mut self, core: &mut Core<V>, port: &mut P) -> RecvTurn
        requires peers { IsSeatPeer (P.sight port.old) self.old.from }
        requires empty { core.old.out ≡ None }
        requires seen { (header : Notes) × ((record_in (P.sight port.old)).notes self.old.from ≡ Some header) }
        ensures reads { (words : List ℕ)
            × ReadsLine (P.sight port.old) (with_empty_cache core.old) (header_line (P.sight port.old) self.old.from) words
            (P.sight port.new) core.new
            × HeadRead words self.old self.new result }
        ensures sound { IsSoundPort (P.sight port.new) }
    {
        known(port);
        core.cl1invmb();
        let line = Line::new(core_of(port, self.from), 0);
        let words = core.line_read(port, line);
        known(port);
        let sent = head_from(&words);
        if is_same(&sent, &self.head) {
            self.stage = RecvStage::Lower;
            return RecvTurn::Moved;
        }
        RecvTurn::Mismatch(sent)
    }

    // Lowers the `sent` flag, and so takes the chunk.
    #[inline(always)]
    fn lower_sent<V: Evict, P: Port>(&mut self, core: &mut Core<V>, port: &mut P) -> RecvTurn
        requires may { MayLower Sent (P.sight port.old) core.old self.old.from }
        ensures changes { Lowers Sent (P.sight port.old) core.old self.old.from (goes_on result) (P.sight port.new) core.new }
        ensures next { self.new ≡ after_lower (chunk_at (P.sight port.old)) (goes_on result) self.old }
        ensures answers { result ≡ recv_or_waits (goes_on result) (own_register (P.sight port.old)) }
        ensures steps { goes_on result ≡ false → MadeSteps P.stepped (P.sight port.old) (P.sight port.new) }
    {
        let layout = layout_of(port);
        if let Some(spot) = lower(core, port, Signal::Sent, self.from) {
            return RecvTurn::Waiting(spot);
        }
        if lines_in(layout, self.head.len(), self.chunk) == 0 {
            self.stage = RecvStage::Raise;
            return RecvTurn::Moved;
        }
        self.stage = RecvStage::Lines(0);
        RecvTurn::Moved
    }

    // Reads a line of the chunk into the buffer.
    #[inline(always)]
    fn read_line<V: Evict, P: Port>(
        &mut self,
        core: &mut Core<V>,
        port: &mut P,
        bytes: &mut [u8],
        line: u8,
    ) -> RecvTurn
        requires peers { IsSeatPeer (P.sight port.old) self.old.from }
        requires empty { core.old.out ≡ None }
        requires in_chunk { line < chunk_lines_of (chunk_at (P.sight port.old)) self.old.head.len self.old.chunk }
        ensures reads { (words : List ℕ) × ReadsLine (P.sight port.old) (before_line line core.old)
            (chunk_line (P.sight port.old) self.old.from line) words (P.sight port.new) core.new
            × ((k : ℕ) → k < 32 → first_byte (P.sight port.old) self.old.chunk line + k < length bytes.old
            → slice_index bytes.new (first_byte (P.sight port.old) self.old.chunk line + k) ≡ byte_of_line words k) }
        ensures before { (k : ℕ) → k < first_byte (P.sight port.old) self.old.chunk line
            → slice_index bytes.new k ≡ slice_index bytes.old k }
        ensures afterwards { (k : ℕ) → first_byte (P.sight port.old) self.old.chunk line + 32 ≤ k
            → slice_index bytes.new k ≡ slice_index bytes.old k }
        ensures next { self.new ≡ after_line (chunk_at (P.sight port.old)) line self.old }
        ensures answers { result ≡ recv_or_waits true (Register 0) }
    {
        let layout = layout_of(port);
        if line == 0 {
            core.cl1invmb();
        }
        let at = Line::new(core_of(port, self.from), layout.first_chunk_line() + line);
        let words = core.line_read(port, at);
        self.take_line(layout, bytes, line, &words)
    }

    // Puts a line of the chunk into the buffer, and goes on to the next one.
    #[inline(always)]
    fn take_line(
        &mut self,
        layout: Layout,
        bytes: &mut [u8],
        line: u8,
        words: &[u64; 4],
    ) -> RecvTurn
        requires in_chunk { line < chunk_lines_of (chunk_size layout) self.old.head.len self.old.chunk }
        ensures takes { (k : ℕ) → k < 32 → chunk_start (chunk_size layout) self.old.chunk + 32 * line + k < length bytes.old
            → slice_index bytes.new (chunk_start (chunk_size layout) self.old.chunk + 32 * line + k) ≡ byte_of_line words.now k }
        ensures before { (k : ℕ) → k < chunk_start (chunk_size layout) self.old.chunk + 32 * line
            → slice_index bytes.new k ≡ slice_index bytes.old k }
        ensures afterwards { (k : ℕ) → chunk_start (chunk_size layout) self.old.chunk + 32 * line + 32 ≤ k
            → slice_index bytes.new k ≡ slice_index bytes.old k }
        ensures next { self.new ≡ after_line (chunk_size layout) line self.old }
        ensures answers { result ≡ recv_or_waits true (Register 0) }
    {
        let start = start_of(layout, self.chunk) + 32 * line as usize;
        put_line(bytes, start, words);
        self.stage = if line + 1 < lines_in(layout, self.head.len(), self.chunk) {
            RecvStage::Lines(line + 1)
        } else {
            RecvStage::Raise
        };
        RecvTurn::Moved
    }

    // Raises the `ready` flag at the sender.
    #[inline(always)]
    fn raise_ready<V: Evict, P: Port>(&mut self, core: &mut Core<V>, port: &mut P) -> RecvTurn
        requires peers { IsSeatPeer (P.sight port.old) self.old.from }
        requires may { MayRaise Ready (P.sight port.old) core.old self.old.from }
        requires some_left { self.old.chunk < 255 }
        ensures changes { Raises Ready (P.sight port.old) core.old self.old.from (goes_on result) (P.sight port.new) core.new }
        ensures next { self.new ≡ after_raise (chunk_at (P.sight port.old)) (goes_on result) self.old }
        ensures answers { result
            ≡ raise_answer (chunk_at (P.sight port.old)) (goes_on result) (register_spot (P.sight port.old) self.old.from) self.old }
        ensures steps { goes_on result ≡ false → MadeSteps P.stepped (P.sight port.old) (P.sight port.new) }
    {
        let layout = layout_of(port);
        if let Some(spot) = raise(core, port, Signal::Ready, self.from) {
            return RecvTurn::Waiting(spot);
        }
        if is_last(layout, self.head.len(), self.chunk) {
            self.stage = RecvStage::Finished;
            return RecvTurn::Done;
        }
        self.chunk += 1;
        self.stage = RecvStage::Look;
        RecvTurn::Moved
    }

    /// Goes on by one turn: it looks once, reads one line or writes one flag.
    #[inline(always)]
    pub fn turn<V: Evict, P: Port>(
        &mut self,
        core: &mut Core<V>,
        port: &mut P,
        bytes: &mut [u8],
    ) -> RecvTurn
        requires stands { RecvStands (P.sight port.old) core.old self.old bytes.old }
        ensures stands { RecvStands (P.sight port.new) core.new self.new bytes.new }
        ensures turned { RecvTurned (receiving (P.sight port.old) core.old self.old bytes.old)
            (receiving (P.sight port.new) core.new self.new bytes.new) result }
        ensures steps { (spot : Spot) → recv_waits result ≡ Some spot → MadeSteps P.stepped (P.sight port.old) (P.sight port.new) }
    {
        known(port);
        match self.stage {
            RecvStage::Look => self.look_sent(core, port),
            RecvStage::Header => self.read_head(core, port),
            RecvStage::Lower => self.lower_sent(core, port),
            RecvStage::Lines(line) => self.read_line(core, port, bytes, line),
            RecvStage::Raise => self.raise_ready(core, port),
            RecvStage::Finished => RecvTurn::Done,
        }
    }

    /// Whether the next turn makes no try, so that it does not wait.
    #[inline]
    pub fn is_sure<P: Port>(&self, port: &P) -> bool
        ensures tells { result ≡ is_none (recv_spot (P.sight port.now).seat self.now) }
    {
        match self.stage {
            RecvStage::Header | RecvStage::Lines(_) | RecvStage::Finished => true,
            RecvStage::Look => false,
            RecvStage::Lower | RecvStage::Raise => changes_at_once(layout_of(port)),
        }
    }

    /// Whether the next turn reads a line of the chunk in hand.
    pub fn is_reading(&self) -> bool
        ensures tells { result ≡ is_reading self.now.stage }
    {
        matches!(self.stage, RecvStage::Lines(_))
    }

    /// Goes on by the turns that read the lines of the chunk in hand which are left, and by no other.
    pub fn read_lines<V: Evict, P: Port>(
        &mut self,
        core: &mut Core<V>,
        port: &mut P,
        bytes: &mut [u8],
    )
        requires stands { RecvStands (P.sight port.old) core.old self.old bytes.old }
        requires reading { is_reading self.old.stage ≡ true }
        ensures stands { RecvStands (P.sight port.new) core.new self.new bytes.new }
        ensures read { ReadLines (receiving (P.sight port.old) core.old self.old bytes.old)
            (receiving (P.sight port.new) core.new self.new bytes.new) }
        ensures whole { is_reading self.new.stage ≡ false }
    {
        'lines: while let RecvStage::Lines(line) = self.stage {
            known(port);
            self.read_line(core, port, bytes, line);
        }
    }
}
