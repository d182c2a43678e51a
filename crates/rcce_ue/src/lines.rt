//! The turns of a unit of execution in a row: those that write or read the lines of a chunk, and those that make no try.

use crate::calls::Open;
use crate::ues::Ue;
use line_cache::Evict;
use scc_base::Turn;
use scc_proto::Port;

impl<'s, V: Evict> Ue<'s, V> {
    ghost use Rattle.std.specs.Prelude.{◌≡◌, ◌||◌, true, false};
    ghost use Rattle.rcce_ue.specs.Standing.{Tied};
    ghost use Rattle.scc_proto.specs.Ports.{Sight};
    ghost use Rattle.rcce_ue.specs.Batches.{BatchMoves, UeMoves, makes_no_try, reads_line_next, writes_line_next};
    ghost use Rattle.rcce_ue.specs.Ues.{UeView};

    /// Takes the turns that write or read the lines of a chunk which are left, where one stands next; tells whether it did.
    #[inline(always)]
    pub fn move_lines<P: Port>(&mut self, port: &mut P) -> bool
        requires tied { Tied self.old (P.sight port.old) }
        ensures tells { result ≡ writes_line_next self.old.op || reads_line_next self.old.op }
        ensures moves { result ≡ true → BatchMoves self.old (P.sight port.old) self.new (P.sight port.new) }
        ensures stays { result ≡ false → (self.new ≡ self.old) × (P.sight port.new ≡ P.sight port.old) }
    {
        match &mut self.op {
            Open::Sending(op) => {
                if !op.is_writing() {
                    return false;
                }
                op.write_lines(&mut self.core, port, &self.slot, self.machine.bytes());
                true
            }
            Open::Receiving(op) => {
                if !op.is_reading() {
                    return false;
                }
                op.read_lines(&mut self.core, port, self.inbox.as_mut_slice());
                true
            }
            Open::Nothing => false,
            Open::Meeting(_) => false,
        }
    }

    /// Whether the next turn is one of a message and makes no try, so that it does not wait.
    #[inline(always)]
    fn is_sure<P: Port>(&self, port: &P) -> bool
        ensures { result ≡ makes_no_try (P.sight port.now).seat self.now.slot self.now.op }
    {
        match &self.op {
            Open::Sending(op) => op.is_sure(port, &self.slot),
            Open::Receiving(op) => op.is_sure(port),
            Open::Nothing | Open::Meeting(_) => false,
        }
    }

    /// Goes on by the turns of messages that come next and make no try: each of them moves.
    pub fn go_on<P: Port>(&mut self, port: &mut P)
        requires tied { Tied self.old (P.sight port.old) }
        ensures tied { Tied self.new (P.sight port.new) }
        ensures moves { (first : UeView) (s : Sight) → UeMoves first s self.old (P.sight port.old)
            → UeMoves first s self.new (P.sight port.new) }
        ensures whole { makes_no_try (P.sight port.new).seat self.new.slot self.new.op ≡ false }
    {
        'turns: while self.is_sure(port) {
            if !self.move_lines(port) {
                let _: Turn = self.turn(port);
            }
        }
    }
}
