//! The hearing of a trace: its events are judged while its bytes are read.

use crate::finished::FinishedCalls;
use crate::judging::{RefusedEvent, Trial};
use crate::report::{RankCalls, TraceVerdict};
use rcce_io::{Files, Got, Opened, ReadEnd};
use std::alloc::{AllocError, Global};
use trace_text::{MOST_TRACE_BYTES, TraceEvent, TraceFault, TraceWalk};

/// How many bytes one read asks for at most.
const BLOCK: usize = 4096;

/// How far the judging is.
#[derive(Drop)]
pub(crate) enum Stage {
    /// No event was made.
    Waiting,
    /// All events so far are taken.
    Judging(Trial),
    /// An event was refused. The others are read, and not judged.
    Refused(RefusedEvent),
}

/// A trace of which some bytes are read: its text is walked over, its events are judged, and its finished calls are kept.
#[derive(Drop)]
pub(crate) struct Hearing {
    bytes: usize,
    walk: TraceWalk,
    stage: Stage,
    finished: FinishedCalls,
}

impl Hearing {
    ghost use Rattle.std.specs.Prelude.{◌≡◌, ◌≤◌, ◌<◌, ◌+◌, ◌++◌, ◌∷◌, [], Bool, false, true, ℕ, IfOk, IsTrue, OnOk, length};
    ghost use Rattle.rcce_io.specs.Reading.{ReadsAll, ReadsBlock, ReadsRest};
    ghost use Rattle.trace_program.specs.Hearings.{ComesTo, Hears, HoldsStage, IsDue, bytes_heard, stage_number};
    ghost use Rattle.trace_text.specs.Grammar.{TraceReading, event_added};
    ghost use Rattle.trace_text.specs.Traces.{most_trace_bytes};
    ghost use Rattle.trace_text.specs.Views.{rank_event};

    /// Nothing is read yet.
    pub(crate) fn new(alloc: Global, asked: bool) -> Result<Hearing, AllocError>
        ensures hears { IfOk result (λ hearing. Hears asked hearing) }
        ensures none { IfOk result (λ hearing. hearing.walk ≡ []) }
    {
        let walk = TraceWalk::new(alloc)?;
        let finished = FinishedCalls::new(alloc, asked)?;
        Ok(Hearing {
            bytes: 0,
            walk,
            stage: Stage::Waiting,
            finished,
        })
    }

    /// Judges an event that was just read.
    fn judge(&mut self, alloc: Global, made: &TraceEvent) -> Result<(), AllocError>
        requires due { (asked : Bool) × (r : TraceReading) × IsDue asked self.old r made.now }
        ensures holds { IfOk result (λ _. (asked : Bool) (r : TraceReading) → IsDue asked self.old r made.now
            → HoldsStage asked self.new.stage self.new.finished (event_added r (rank_event made.now))) }
        ensures same { (self.new.bytes ≡ self.old.bytes) × (self.new.walk ≡ self.old.walk) }
        ensures number { OnOk result (stage_number self.new.stage ≤ stage_number self.old.stage + 1) }
    {
        match &mut self.stage {
            Stage::Waiting => {
                let mut trial = Trial::new(alloc, self.walk.setup())?;
                match trial.take(alloc, &mut self.finished, made)? {
                    Some(refused) => self.stage = Stage::Refused(refused),
                    None => self.stage = Stage::Judging(trial),
                }
            }
            Stage::Judging(trial) => {
                if let Some(refused) = trial.take(alloc, &mut self.finished, made)? {
                    self.stage = Stage::Refused(refused);
                }
            }
            Stage::Refused(_) => {}
        }
        Ok(())
    }

    /// One byte more.
    fn push(&mut self, alloc: Global, byte: u8) -> Result<(), AllocError>
        requires few { length self.old.walk ≤ most_trace_bytes }
        requires hears { (asked : Bool) × Hears asked self.old }
        ensures text { OnOk result (self.new.walk ≡ self.old.walk ++ byte ∷ []) }
        ensures hears { IfOk result (λ _. (asked : Bool) → Hears asked self.old → Hears asked self.new) }
    {
        self.bytes += 1;
        if let Some(made) = self.walk.push(alloc, byte)? {
            self.judge(alloc, &made)?;
        }
        Ok(())
    }

    /// More bytes.
    fn push_all(&mut self, alloc: Global, bytes: &[u8]) -> Result<(), AllocError>
        requires few { length self.old.walk + length bytes.now ≤ most_trace_bytes + 1 }
        requires hears { (asked : Bool) × Hears asked self.old }
        ensures text { OnOk result (self.new.walk ≡ self.old.walk ++ bytes.now) }
        ensures hears { IfOk result (λ _. (asked : Bool) → Hears asked self.old → Hears asked self.new) }
    {
        for byte in bytes {
            self.push(alloc, *byte)?;
        }
        Ok(())
    }

    /// Whether a block of the file was read; at its end none was.
    fn read_block<F: Files>(
        &mut self,
        alloc: Global,
        files: &mut F,
        room: usize,
    ) -> Result<bool, ReadEnd>
        requires room { 0 < room }
        requires few { length self.old.walk + room ≤ most_trace_bytes + 1 }
        requires open { IsTrue (F.seen files.old).is_open }
        requires hears { (asked : Bool) × Hears asked self.old }
        ensures reads { ReadsBlock self.old.walk self.new.walk room (F.seen files.old) (F.seen files.new) result }
        ensures hears { IfOk result (λ _. (asked : Bool) → Hears asked self.old → Hears asked self.new) }
    {
        let mut block = [0u8; BLOCK];
        let most = room.min(BLOCK);
        match files.read(&mut block[..most]) {
            Got::Bytes(n) => {
                self.push_all(alloc, &block[..n])?;
                Ok(true)
            }
            Got::End => Ok(false),
            Got::Failed => Err(ReadEnd::Failed),
        }
    }

    fn read_rest<F: Files>(&mut self, alloc: Global, files: &mut F) -> Result<(), ReadEnd>
        requires none { self.old.walk ≡ [] }
        requires open { IsTrue (F.seen files.old).is_open }
        requires hears { (asked : Bool) × Hears asked self.old }
        ensures reads { ReadsRest most_trace_bytes (F.seen files.old) (F.seen files.new) (bytes_heard self.new.walk result) }
        ensures hears { IfOk result (λ _. (asked : Bool) → Hears asked self.old → Hears asked self.new) }
    {
        while self.bytes <= MOST_TRACE_BYTES {
            let room = MOST_TRACE_BYTES + 1 - self.bytes;
            if !self.read_block(alloc, files, room)? {
                break;
            }
        }
        Ok(())
    }

    /// Reads a file until its end, or until one byte more than a trace may have was read.
    pub(crate) fn read_file<F: Files>(
        &mut self,
        alloc: Global,
        files: &mut F,
        file: &str,
    ) -> Result<(), ReadEnd>
        requires none { self.old.walk ≡ [] }
        requires hears { (asked : Bool) × Hears asked self.old }
        ensures reads { ReadsAll file.now most_trace_bytes (F.seen files.old) (F.seen files.new) (bytes_heard self.new.walk result) }
        ensures hears { IfOk result (λ _. (asked : Bool) → Hears asked self.old → Hears asked self.new) }
    {
        match files.open(file) {
            Opened::Open => self.read_rest(alloc, files),
            Opened::Absent => Err(ReadEnd::Absent),
            Opened::Failed => Err(ReadEnd::Failed),
        }
    }

    /// Whether more was read than a trace may have.
    pub(crate) fn is_long(&self) -> bool
        requires hears { (asked : Bool) × Hears asked self.now }
        ensures short { result ≡ false → length self.now.walk ≤ most_trace_bytes }
        ensures long { result ≡ true → most_trace_bytes < length self.now.walk }
    {
        self.bytes > MOST_TRACE_BYTES
    }

    /// What the trace came to, or the first fault of its text.
    pub(crate) fn verdict(self) -> Result<TraceVerdict, TraceFault>
        requires within { length self.walk ≤ most_trace_bytes }
        ensures comes { (asked : Bool) → Hears asked self → ComesTo asked self.walk result }
    {
        self.walk.finish()?;
        let nue = self.walk.setup().nue();
        let Hearing {
            stage,
            finished,
            ..
        } = self;
        match stage {
            Stage::Waiting => Ok(TraceVerdict::Legal(RankCalls { nue, finished })),
            Stage::Judging(_) => Ok(TraceVerdict::Legal(RankCalls { nue, finished })),
            Stage::Refused(at) => Ok(TraceVerdict::NotLegal(at)),
        }
    }
}
