//! The top call.

ghost use Rattle.std.specs.Prelude.{◌≡◌, [], codes, map, string_bytes, Ok};
ghost use Rattle.rcce_io.specs.Files.{FilesView};
ghost use Rattle.rcce_io.specs.Reading.{ReadsAll};
ghost use Rattle.outcomes.specs.Coming.{Comes, IsMeant};
ghost use Rattle.outcomes.specs.Complaints.{outcome_of};
ghost use Rattle.outcomes.specs.Delivery.{sinks};
ghost use Rattle.outcomes.specs.Promises.{Promises};
ghost use Rattle.trace_program.specs.Hearings.{Hears};
ghost use Rattle.trace_program.specs.Jobs.{job_view};
ghost use Rattle.trace_program.specs.Legal.{NamesLegal};
ghost use Rattle.trace_program.specs.Program.{rccetrace, trace_command, trace_file_plan, verdict_shown};
ghost use Rattle.rcce_words.specs.ScriptWords.{plan_of};
ghost use Rattle.trace_text.specs.Traces.{most_trace_bytes};

use crate::command::{TraceJob, job_of};
use crate::hearing::Hearing;
use crate::report::TraceVerdict;
use outcomes::{Complaint, Status, deliver};
use rcce_io::{Files, ReadEnd, Sink};
use std::alloc::Global;

/// Tells whether a trace is legal: with status 0 that it is, and how many calls each rank has finished, and these calls where
/// `-calls` stands before the trace; with status 3 that it is not, and then the line of its first event that is no step of the
/// chip's words or that the record of its rank does not permit. The words are those after the program's name: `[-calls] TRACE`.
///
/// The checks go in this order, and the first that refuses counts: the words, the reading of the file, its grammar, its events
/// in order, memory, the writing of out. A sink that fails is not written to again, nor is the other one.
pub fn rccetrace<F: Files, O: Sink, E: Sink>(
    alloc: Global,
    words: &[String],
    files: &mut F,
    out: &mut O,
    err: &mut E,
) -> Status
    ensures promises { Promises rccetrace (map string_bytes words.now) (F.seen files.old) (F.seen files.new)
        (sinks (O.seen out.old) (E.seen err.old)) (sinks (O.seen out.new) (E.seen err.new)) result }
    // Status 0: what was read of the file is the text of a legal trace, with no fault of the files, and its calls are printed. Each
    // message that its chip delivered was whole, once and in order. So it is whether the files tell their contents or not; if they
    // do, the text is the file's.
    ensures legal { result ≡ Status.Finished → NamesLegal (map string_bytes words.now) (F.seen files.old) (F.seen files.new)
        (sinks (O.seen out.old) (E.seen err.old)) (sinks (O.seen out.new) (E.seen err.new)) }
{
    let ending = run_words(alloc, words, files);
    deliver("rccetrace", ending, out, err)
}

fn run_words<'a, F: Files>(
    alloc: Global,
    words: &'a [String],
    files: &mut F,
) -> Result<TraceVerdict, Complaint<'a>>
    ensures { IsMeant (codes "rccetrace") (plan_of trace_file_plan (trace_command (map string_bytes words.now)))
        (F.seen files.old) (F.seen files.new) (outcome_of (codes "rccetrace") verdict_shown result) }
{
    match job_of(words) {
        Some(job) => run_file(alloc, files, job),
        None => Err(Complaint::words("words refused")),
    }
}

// Reads the trace's file, and judges the trace while it is read.
fn run_file<'a, F: Files>(
    alloc: Global,
    files: &mut F,
    job: TraceJob<'a>,
) -> Result<TraceVerdict, Complaint<'a>>
    ensures { Comes (codes "rccetrace") (trace_file_plan (job_view job.entry))
        (F.seen files.old) (F.seen files.new) (outcome_of (codes "rccetrace") verdict_shown result) }
{
    match Hearing::new(alloc, job.asked) {
        Ok(hearing) => hear_file(alloc, files, job, hearing),
        Err(_) => Err(Complaint::Memory),
    }
}

fn hear_file<'a, F: Files>(
    alloc: Global,
    files: &mut F,
    job: TraceJob<'a>,
    mut hearing: Hearing,
) -> Result<TraceVerdict, Complaint<'a>>
    requires none { hearing.walk ≡ [] }
    requires hears { Hears job.asked hearing }
    ensures { Comes (codes "rccetrace") (trace_file_plan (job_view job.entry))
        (F.seen files.old) (F.seen files.new) (outcome_of (codes "rccetrace") verdict_shown result) }
{
    match hearing.read_file(alloc, files, job.file) {
        Ok(()) => end_file(job, hearing),
        Err(ReadEnd::Absent) => Err(Complaint::Absent(job.file)),
        Err(ReadEnd::Failed) => Err(Complaint::ReadFault(job.file)),
        Err(ReadEnd::Memory) => Err(Complaint::Memory),
    }
}

// The whole file is read, or more of it than a trace may have.
fn end_file<'a>(job: TraceJob<'a>, hearing: Hearing) -> Result<TraceVerdict, Complaint<'a>>
    requires hears { Hears job.asked hearing }
    ensures { (before after : FilesView) → ReadsAll job.entry.file.now most_trace_bytes before after (Ok hearing.walk)
        → Comes (codes "rccetrace") (trace_file_plan (job_view job.entry)) before after
        (outcome_of (codes "rccetrace") verdict_shown result) }
{
    if hearing.is_long() {
        return Err(Complaint::Refused {
            file: job.file,
            line: 0,
            kind: "TooLong",
        });
    }
    match hearing.verdict() {
        Ok(verdict) => Ok(verdict),
        Err(fault) => Err(Complaint::Refused {
            file: job.file,
            line: fault.line,
            kind: fault.kind.name(),
        }),
    }
}
