//! A walk over the bytes of a text: what its lines say, one after another.

ghost use Rattle.std.specs.Prelude.{◌≡◌, ◌≤◌, IfOk, option_map, vec_capacity};
ghost use Rattle.trace_text.specs.Grammar.{trace_head_said, line_fault};
ghost use Rattle.trace_text.specs.Heads.{head_view};

use crate::faults::{TraceFault, TraceKind};
use crate::heads::head_of_words;
use crate::hosts::Head;
use crate::reader::{LineTaken, MOST_LINE_BYTES, TraceReader};
use crate::traces::TraceEvent;
use rcce_audit::begins_comm;
use rcce_audit::words::words;
use scc_base::{CoreId, Layout, Setup};
use scc_proto::History;
use std::alloc::{AllocError, Global};
use std::marker::Model;

/// The most bytes of a trace's text: 1 GiB.
pub const MOST_TRACE_BYTES: usize = 1_073_741_824;

/// The most lines of a trace.
const MOST_TRACE_LINES: u32 = 16_777_216;

/// How many bytes of a line are kept: a longer one is too long.
const KEPT_LINE_BYTES: usize = 256;

/// What is wrong with a line that is not of its form or in its place.
fn line_fault(line: &[u8]) -> TraceKind
    ensures { result ≡ line_fault line.now }
{
    if begins_comm(line) {
        TraceKind::BadComm
    } else {
        TraceKind::BadEvent
    }
}

/// What the first line says, if it is of its form.
fn head_said(alloc: Global, line: &[u8]) -> Result<Option<Head>, AllocError>
    ensures { IfOk result (λ said. option_map head_view said ≡ trace_head_said line.now) }
{
    if line.len() > MOST_LINE_BYTES {
        return Ok(None);
    }
    let words = words(alloc, line)?;
    head_of_words(alloc, words.as_slice())
}

/// The setup before the first line is read.
fn start_head() -> Head {
    Head {
        nue: 1,
        layout: Layout::LineFlags,
        hosts: [CoreId::of(0); 48],
    }
}

/// How many lines are read, the one that is being read, the first fault, and the reader of the others.
#[derive(Drop)]
pub(crate) struct LineWalk {
    lines: u32,
    line: Vec<u8>,
    fault: Option<TraceFault>,
    reader: TraceReader,
    ghost room: { 256 ≤ vec_capacity line },
}

impl LineWalk {
    ghost use Rattle.std.specs.Prelude.{◌≡◌, ◌<◌, ◌+◌, ◌∷◌, ◌++◌, ◌≤◌, ◌^◌, [], List, ℕ, IfOk, None, OnErr, Some, length, option_map, take};
    ghost use Rattle.trace_text.specs.Grammar.{first_taken};
    ghost use Rattle.trace_text.specs.Traces.{most_trace_bytes};
    ghost use Rattle.trace_text.specs.Progress.{HasWalked, progress_of, said_with, walk_said};
    ghost use Rattle.trace_text.specs.Views.{rank_event};
    ghost use Rattle.trace_text.specs.Walks.{EndsText, GainsEvent, next_said};

    fn new(alloc: Global) -> Result<LineWalk, AllocError>
        ensures { IfOk result (λ w. HasWalked [] w) }
    {
        let line = Vec::with_capacity(alloc, KEPT_LINE_BYTES)?;
        Ok(LineWalk {
            lines: 0,
            line,
            fault: None,
            reader: TraceReader::new(start_head()),
        })
    }

    /// One byte more of the line.
    fn push(&mut self, byte: u8)
        ensures same { (self.new.lines ≡ self.old.lines) × (self.new.fault ≡ self.old.fault) × (self.new.reader ≡ self.old.reader) }
        ensures line { (last : List ℕ) → self.old.line.items ≡ take 256 last → self.new.line.items ≡ take 256 (last ++ byte ∷ []) }
    {
        if self.line.len() < KEPT_LINE_BYTES {
            self.line.push_reserved(byte);
        }
    }

    /// The line is the first one.
    fn say_head(&mut self, alloc: Global) -> Result<(), AllocError>
        requires none { self.old.fault ≡ None }
        ensures same { (self.new.lines ≡ self.old.lines) × (self.new.line ≡ self.old.line) }
        ensures said { IfOk result (λ _. first_taken self.old.line.items ≡ said_with self.new.fault (progress_of self.new.reader)) }
        ensures unchanged { OnErr result (self.new ≡ self.old) }
    {
        match head_said(alloc, self.line.as_slice())? {
            Some(head) => self.reader = TraceReader::new(head),
            None => {
                self.fault = Some(TraceFault {
                    line: 1,
                    kind: TraceKind::BadHead,
                })
            }
        }
        Ok(())
    }

    /// The line is a later one, and no earlier line has a fault.
    fn say_line(&mut self, alloc: Global) -> Result<Option<TraceEvent>, AllocError>
        requires few { self.old.lines + 1 < 2 ^ 32 }
        requires none { self.old.fault ≡ None }
        ensures same { (self.new.lines ≡ self.old.lines) × (self.new.line ≡ self.old.line) }
        ensures said { IfOk result (λ _. next_said (Some (Ok (progress_of self.old.reader))) self.old.lines self.old.line.items
            ≡ said_with self.new.fault (progress_of self.new.reader)) }
        ensures event { IfOk result (λ made. GainsEvent (Some (Ok (progress_of self.old.reader)))
            (Some (said_with self.new.fault (progress_of self.new.reader))) (option_map rank_event made)) }
        ensures unchanged { OnErr result (self.new ≡ self.old) }
    {
        match self.reader.read_line(alloc, self.line.as_slice())? {
            LineTaken::Refused => {
                self.fault = Some(TraceFault {
                    line: self.lines + 1,
                    kind: line_fault(self.line.as_slice()),
                });
                Ok(None)
            }
            LineTaken::Split => Ok(None),
            LineTaken::Event(made) => Ok(Some(made)),
        }
    }

    /// What the line says.
    fn say(&mut self, alloc: Global) -> Result<Option<TraceEvent>, AllocError>
        requires few { self.old.lines + 1 < 2 ^ 32 }
        requires first { self.old.lines ≡ 0 → self.old.fault ≡ None }
        ensures same { (self.new.lines ≡ self.old.lines) × (self.new.line ≡ self.old.line) }
        ensures said { IfOk result (λ _. next_said (walk_said self.old) self.old.lines self.old.line.items
            ≡ said_with self.new.fault (progress_of self.new.reader)) }
        ensures event { IfOk result (λ made. GainsEvent (walk_said self.old)
            (Some (said_with self.new.fault (progress_of self.new.reader))) (option_map rank_event made)) }
        ensures unchanged { OnErr result (self.new ≡ self.old) }
    {
        if self.lines == 0 {
            self.say_head(alloc)?;
            return Ok(None);
        }
        if self.fault.is_some() {
            return Ok(None);
        }
        self.say_line(alloc)
    }

    /// The line has its line feed: the event that it says, if it says one.
    fn end_line(&mut self, alloc: Global) -> Result<Option<TraceEvent>, AllocError>
        requires few { self.old.lines + 1 < 2 ^ 32 }
        requires first { self.old.lines ≡ 0 → self.old.fault ≡ None }
        ensures lines { IfOk result (λ _. self.new.lines ≡ self.old.lines + 1) }
        ensures line { IfOk result (λ _. self.new.line.items ≡ []) }
        ensures said { IfOk result (λ _. walk_said self.new ≡ Some (next_said (walk_said self.old) self.old.lines self.old.line.items)) }
        ensures event { IfOk result (λ made. GainsEvent (walk_said self.old) (walk_said self.new) (option_map rank_event made)) }
        ensures unchanged { OnErr result (self.new ≡ self.old) }
    {
        let made = self.say(alloc)?;
        self.lines += 1;
        self.line.clear();
        Ok(made)
    }

    /// The text ends here.
    fn finish(&self) -> Result<(), TraceFault>
        requires few { self.now.lines + 1 < 2 ^ 32 }
        ensures { (text : List ℕ) → length text ≤ most_trace_bytes → HasWalked text self.now → EndsText text result }
    {
        if self.lines > MOST_TRACE_LINES {
            return Err(TraceFault {
                line: 0,
                kind: TraceKind::TooLong,
            });
        }
        if self.lines == 0 {
            return Err(TraceFault {
                line: 1,
                kind: TraceKind::BadHead,
            });
        }
        if let Some(fault) = self.fault {
            return Err(fault);
        }
        if self.line.is_empty() {
            return Ok(());
        }
        Err(TraceFault {
            line: self.lines + 1,
            kind: line_fault(self.line.as_slice()),
        })
    }
}

/// A walk over the bytes of a trace, from front to end. It hands out the events of the trace one by one and holds none of them,
/// nor the text: of that it keeps the line that it is in, up to the limit of a line.
#[derive(Drop)]
pub struct TraceWalk {
    walk: LineWalk,
    text: History<u8>,
}

impl Model for TraceWalk {
    ghost use Rattle.std.specs.Prelude.{List, ℕ};
    ghost use Rattle.trace_text.specs.Progress.{HasWalked};

    ghost Value = { List ℕ };

    ghost view = { λ w. w.text.items };

    ghost invariant = { λ w. HasWalked w.text.items w.walk };
}

impl TraceWalk {
    ghost use Rattle.std.specs.Prelude.{◌≡◌, ◌≤◌, ◌∷◌, ◌++◌, [], IfOk, OnErr, OnOk, length, option_map};
    ghost use Rattle.trace_text.specs.Grammar.{TraceReading};
    ghost use Rattle.trace_text.specs.Traces.{most_trace_bytes};
    ghost use Rattle.trace_text.specs.Views.{rank_event};
    ghost use Rattle.trace_text.specs.Walks.{EndsText, GainsEvent, HasComeTo, text_reading};

    /// Over nothing yet.
    pub fn new(alloc: Global) -> Result<TraceWalk, AllocError>
        ensures { IfOk result (λ walk. walk ≡ []) }
    {
        let walk = LineWalk::new(alloc)?;
        Ok(TraceWalk {
            walk,
            text: History::new(),
        })
    }

    /// Over one byte more: the event that a line says which ends there. For want of memory it stays where it was.
    pub fn push(&mut self, alloc: Global, byte: u8) -> Result<Option<TraceEvent>, AllocError>
        requires few { length self.old ≤ most_trace_bytes }
        ensures text { OnOk result (self.new ≡ self.old ++ byte ∷ []) }
        ensures event { IfOk result (λ made. GainsEvent (text_reading self.old) (text_reading self.new) (option_map rank_event made)) }
        ensures unchanged { OnErr result (self.new ≡ self.old) }
    {
        if byte == b'\n' {
            let made = self.walk.end_line(alloc)?;
            self.text = self.text.and(&byte);
            return Ok(made);
        }
        self.walk.push(byte);
        self.text = self.text.and(&byte);
        Ok(None)
    }

    /// The setup that the lines so far say.
    pub fn setup(&self) -> Setup
        ensures gives { (r : TraceReading) → HasComeTo self.now r → result ≡ r.trace.setup }
    {
        self.walk.reader.setup()
    }

    /// The text ends here: whether it is a trace, or else its first fault in line order.
    pub fn finish(&self) -> Result<(), TraceFault>
        requires within { length self.now ≤ most_trace_bytes }
        ensures ends { EndsText self.now result }
    {
        self.walk.finish()
    }
}
