//! The heap of a core's message passing buffer.

ghost use Rattle.std.specs.Prelude.{◌≡◌, ◌+◌, ◌<◌, ◌↔◌, ◌++◌, [], ◌∷◌, length, IsTrue, IfOk, OnErr, OnOk, Contains, option_map, slice_index_or};
ghost use Rattle.mpb_alloc.specs.Heaps.{front_of, longest_of, lowest_fit, given_back, taken_from, joined_runs, without_buffer, line_after, IsHeapRun, StandWithin};

use arrayvec::ArrayVec;
use scc_base::Buf;
use std::marker::Model;
use thiserror::Error;

/// The bytes of a line.
const LINE_BYTES: usize = 32;

/// Some lines of the heap that follow each other.
#[derive(Clone, Copy, Default, PartialEq, Eq)]
pub struct Run {
    pub first: u8,
    pub lines: u8,
}

/// A list of runs. The heap has 31 lines, so runs that share none are at most 31.
type Runs = ArrayVec<Run, 31>;

/// Why a buffer was refused.
#[derive(Clone, Copy, Debug, PartialEq, Eq, Error)]
pub enum MallocFault {
    /// A buffer of no bytes was asked for.
    #[error("nothing asked")]
    Empty,
    /// No free run is long enough. Both numbers are in lines.
    #[error("asked {asked} lines, longest run {longest}")]
    Full { asked: usize, longest: usize },
}

/// The heap lines of a core's buffer, of which runs are handed out.
///
/// All units of execution that make the same calls get the same buffers, so a buffer is at one place on all
/// cores. It is seen as the runs that are free, in order, and the buffers that are out.
#[derive(Drop)]
pub struct Heap {
    free: Runs,
    out: Runs,
}

impl Model for Heap {
    ghost use Rattle.mpb_alloc.specs.Heaps.{LineHeap, IsHeap};

    ghost Value = { LineHeap };

    ghost view = { λ h. record { free = h.free.items; out = h.out.items } };

    ghost invariant = { λ h. IsHeap (record { free = h.free.items; out = h.out.items }) };
}

impl Heap {
    ghost use Rattle.std.specs.Prelude.{◌≡◌, ◌↔◌, ◌++◌, [], ◌∷◌, IsTrue, IfOk, OnOk, OnErr, Contains};
    ghost use Rattle.mpb_alloc.specs.Heaps.{run_of_lines, IsHeap, all_free, malloc_answer, fits_in, lines_for, taken_from, given_back, without_buffer};

    /// All 31 lines are free.
    pub fn new() -> Heap
        ensures free { result ≡ all_free }
        ensures heap { IsHeap result }
    {
        let whole = Run {
            first: Buf::FIRST,
            lines: Buf::MOST,
        };
        let mut free = Runs::new();
        free.push(whole);
        Heap {
            free,
            out: Runs::new(),
        }
    }

    /// Takes the front of the lowest free run that holds `bytes` bytes, in whole lines.
    pub fn malloc(&mut self, bytes: usize) -> Result<Buf, MallocFault>
        ensures answer { result ≡ malloc_answer self.old bytes }
        ensures free { OnOk result (self.new.free ≡ taken_from (lines_for bytes) self.old.free) }
        ensures out { IfOk result (λ b. self.new.out ≡ self.old.out ++ run_of_lines b ∷ []) }
        ensures unchanged { OnErr result (self.new ≡ self.old) }
        ensures heap { OnOk result (IsHeap self.new) }
    {
        if bytes == 0 {
            return Err(MallocFault::Empty);
        }
        let asked = bytes.div_ceil(LINE_BYTES);
        match take_lowest(&mut self.free, asked) {
            Some(buffer) => {
                self.out.push(Run::of(buffer));
                Ok(buffer)
            }
            None => Err(MallocFault::Full {
                asked,
                longest: longest(&self.free),
            }),
        }
    }

    /// Gives a buffer back, which joins the free runs beside it.
    pub fn free(&mut self, buffer: Buf)
        requires { Contains self.old.out (run_of_lines buffer) }
        ensures free { self.new.free ≡ given_back (run_of_lines buffer) self.old.free }
        ensures out { self.new.out ≡ without_buffer (run_of_lines buffer) self.old.out }
        ensures heap { IsHeap self.new }
    {
        let run = Run::of(buffer);
        strike(&mut self.out, run);
        give_back(&mut self.free, run);
    }

    /// Whether a buffer is out.
    pub fn is_out(&self, buffer: Buf) -> bool
        ensures { IsTrue result ↔ Contains self.now.out (run_of_lines buffer) }
    {
        self.out.as_slice().contains(&Run::of(buffer))
    }

    /// Whether a buffer of `bytes` bytes can be had.
    pub fn fits(&self, bytes: usize) -> bool
        ensures { result ≡ fits_in self.now bytes }
    {
        bytes != 0 && bytes.div_ceil(LINE_BYTES) <= longest(&self.free)
    }
}

impl Run {
    ghost use Rattle.std.specs.Prelude.{◌≡◌};
    ghost use Rattle.mpb_alloc.specs.Heaps.{run_of_lines, line_after};

    fn of(buffer: Buf) -> Run
        ensures { result ≡ run_of_lines buffer }
    {
        Run {
            first: buffer.first(),
            lines: buffer.lines(),
        }
    }

    /// The line behind the run.
    fn end(self) -> u16
        ensures { result ≡ line_after self }
    {
        u16::from(self.first) + u16::from(self.lines)
    }
}

/// The run at this place.
fn run_at(runs: &Runs, at: usize) -> Run
    requires { at < length runs.now.items }
    ensures { result ≡ slice_index_or runs.now.items at result }
{
    runs.as_slice()[at]
}

/// The lines of the longest run, 0 where there is none.
fn longest(runs: &Runs) -> usize
    ensures { result ≡ longest_of runs.now.items }
{
    let mut longest = 0;
    for run in runs.as_slice() {
        longest = usize::from(run.lines).max(longest);
    }
    longest
}

/// One run from the first line of the two to the last.
fn join(left: Run, right: Run) -> Run
    requires left { IsHeapRun left }
    requires right { IsHeapRun right }
    ensures { result ≡ joined_runs left right }
{
    let first = left.first.min(right.first);
    let lines = left.end().max(right.end()) - u16::from(first);
    Run {
        first,
        lines: lines as u8,
    }
}

/// Takes the front of the lowest run of at least `lines` lines.
fn take_lowest(free: &mut Runs, lines: usize) -> Option<Buf>
    requires some { 0 < lines }
    requires within { StandWithin free.old.items }
    ensures front { result ≡ option_map (front_of lines) (lowest_fit lines free.old.items) }
    ensures free { free.new.items ≡ taken_from lines free.old.items }
{
    for at in 0..free.len() {
        let run = run_at(free, at);
        if lines <= usize::from(run.lines) {
            let lines = lines as u8;
            free.remove(at);
            if lines < run.lines {
                free.insert(
                    at,
                    Run {
                        first: run.first + lines,
                        lines: run.lines - lines,
                    },
                );
            }
            return Some(Buf::new(run.first, lines).unwrap());
        }
    }
    None
}

/// Gives a run back to the free ones.
fn give_back(free: &mut Runs, run: Run)
    requires room { length free.old.items < 31 }
    requires within { StandWithin free.old.items }
    requires run { IsHeapRun run }
    ensures { free.new.items ≡ given_back run free.old.items }
{
    let mut run = run;
    let mut at = 0;
    'runs: while at < free.len() {
        let other = run_at(free, at);
        if run.end() < u16::from(other.first) {
            break;
        }
        if other.end() < u16::from(run.first) {
            at += 1;
        } else {
            run = join(run, other);
            free.remove(at);
        }
    }
    free.insert(at, run);
}

/// Strikes a buffer from those that are out.
fn strike(out: &mut Runs, run: Run)
    ensures { out.new.items ≡ without_buffer run out.old.items }
{
    for at in 0..out.len() {
        let other = run_at(out, at);
        if run.first == other.first && run.lines == other.lines {
            out.remove(at);
            return;
        }
    }
}
