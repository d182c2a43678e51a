//! Who is told the events of a run, has each one judged, and writes its line.

ghost use Rattle.std.specs.Prelude.{◌≡◌, ◌<◌, ℕ, [], ◌∷◌, ◌++◌, IsErr, IsSome, List, None, Some};
ghost use Rattle.rcce_io.specs.Sending.{SinkView};
ghost use Rattle.scc_base.specs.Events.{IsEvent};
ghost use Rattle.scc_proto.specs.Words.{RankEvent};
ghost use Rattle.trace_judge.specs.Judged.{JudgeView};
ghost use Rattle.trace_writer.specs.Desks.{HasGathered, IsFrontOf, SendsWaiting, HasWritten, TraceSent, no_sink};

use crate::lines::{EventLine, FirstLines};
use rcce_io::{Buffer, Sink, TextSource, WriteFault};
use scc_base::{Event, Rank};
use std::marker::{Brand, PhantomData};
use trace_judge::{Judge, Refusal};
use trace_run::Witness;

/// Why no more of a trace is written.
#[derive(Drop)]
pub enum TraceFault {
    /// The sink did not take it.
    Write,
    /// The judge refused an event of this rank, which cannot come.
    Refused { rank: Rank, why: Refusal },
}

/// The sink of a trace, as it was before the first line: what it had taken, and its name in proofs.
pub(crate) trait Origin {
    ghost before: { SinkView };

    ghost name: { ℕ };
}

impl Origin for Brand {
    ghost before = { no_sink };

    ghost name = { 0 };
}

/// A sink with a judge before it. Each event is judged, and the line of each one that is legal is written; none behind a fault.
/// No memory is taken.
#[derive(Drop)]
pub(crate) struct Desk<'o, S: Sink, B: Origin> {
    pub(crate) sink: &'o mut S,
    pub(crate) buffer: Buffer,
    pub(crate) judge: Judge,
    pub(crate) fault: Option<TraceFault>,
    pub(crate) origin: PhantomData<B>,
}

/// Puts a text behind what waits.
fn gather<S: Sink, T: TextSource>(
    sink: &mut S,
    buffer: &mut Buffer,
    source: &T,
) -> Option<TraceFault>
    ensures gathered { HasGathered (T.text source.now) buffer.old buffer.new (S.seen sink.old) (S.seen sink.new) result }
{
    match buffer.gather(sink, source) {
        Ok(()) => None,
        Err(WriteFault) => Some(TraceFault::Write),
    }
}

/// Puts the first lines of a trace behind nothing.
pub(crate) fn begin<S: Sink>(sink: &mut S, buffer: &mut Buffer, judge: &Judge) -> Option<TraceFault>
    requires new { judge.now.run ≡ [] }
    requires none { buffer.old ≡ [] }
    ensures begun { HasWritten (S.seen sink.old) judge.now buffer.new (S.seen sink.new) result [] }
{
    let head = FirstLines {
        setup: judge.setup(),
    };
    gather(sink, buffer, &head)
}

/// Judges an event, and puts its line behind what waits.
fn tell<S: Sink>(
    sink: &mut S,
    buffer: &mut Buffer,
    judge: &mut Judge,
    rank: Rank,
    event: &Event,
) -> Option<TraceFault>
    requires below { rank < judge.old.setup.nue }
    requires event { IsEvent event.now }
    ensures setup { judge.new.setup ≡ judge.old.setup }
    ensures grows { IsFrontOf judge.old.run judge.new.run }
    ensures told { (before : SinkView) (run : List RankEvent) → HasWritten before judge.old buffer.old (S.seen sink.old) None run
        → HasWritten before judge.new buffer.new (S.seen sink.new) result (run ++ record { rank = rank; event = event.now } ∷ []) }
{
    match judge.take(rank, event) {
        Ok(_) => {
            let line = EventLine {
                setup: judge.setup(),
                rank,
                event,
            };
            gather(sink, buffer, &line)
        }
        Err(why) => Some(TraceFault::Refused { rank, why }),
    }
}

/// Writes what waits.
fn send<S: Sink>(sink: &mut S, buffer: Buffer) -> Result<(), TraceFault>
    ensures sent { SendsWaiting buffer (S.seen sink.old) (S.seen sink.new) result }
{
    let mut buffer = buffer;
    match buffer.flush(sink) {
        Ok(()) => Ok(()),
        Err(WriteFault) => Err(TraceFault::Write),
    }
}

/// Writes what waits behind a fault.
fn send_front<S: Sink>(sink: &mut S, buffer: Buffer, fault: TraceFault) -> Result<(), TraceFault>
    ensures sent { (before : SinkView) (judge : JudgeView) (run : List RankEvent)
        → HasWritten before judge buffer (S.seen sink.old) (Some fault) run
        → TraceSent judge.setup before (S.seen sink.new) judge.run run result }
    ensures faulty { IsErr result }
{
    match fault {
        TraceFault::Write => Err(TraceFault::Write),
        TraceFault::Refused { rank, why } => match send(sink, buffer) {
            Ok(()) => Err(TraceFault::Refused { rank, why }),
            Err(fault) => Err(fault),
        },
    }
}

/// Writes what waits, behind which the trace is whole, unless there was a fault.
pub(crate) fn close<S: Sink>(
    sink: &mut S,
    buffer: Buffer,
    fault: Option<TraceFault>,
) -> Result<(), TraceFault>
    ensures sent { (before : SinkView) (judge : JudgeView) (run : List RankEvent)
        → HasWritten before judge buffer (S.seen sink.old) fault run
        → TraceSent judge.setup before (S.seen sink.new) judge.run run result }
    ensures faulty { IsSome fault → IsErr result }
{
    match fault {
        None => send(sink, buffer),
        Some(fault) => send_front(sink, buffer, fault),
    }
}

impl<'o, S: Sink, B: Origin> Witness for Desk<'o, S, B> {
    ghost use Rattle.std.specs.Prelude.{◌≡◌, is_none};
    ghost use Rattle.trace_writer.specs.Desks.{HasWritten, IsFrontOf};

    ghost setup = { λ d. d.judge.setup };

    ghost noted = { λ d run. (d.sink.ghost_name ≡ B.name) × HasWritten B.before d.judge d.buffer (S.seen d.sink.now) d.fault run };

    ghost listens = { λ d. is_none d.fault };

    ghost wanted_after = { λ d run. IsFrontOf run d.judge.run };

    fn note(&mut self, rank: Rank, event: Event) {
        match self.fault {
            None => {
                self.fault = tell(self.sink, &mut self.buffer, &mut self.judge, rank, &event);
            }
            Some(_) => {}
        }
    }

    fn listens(&self) -> bool {
        self.fault.is_none()
    }
}
