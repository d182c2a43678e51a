//! The top call.

ghost use Rattle.std.specs.Prelude.{◌≤◌, codes, map, string_bytes};
ghost use Rattle.rcce_io.specs.Files.{FilesView};
ghost use Rattle.outcomes.specs.Coming.{Comes, IsMeant};
ghost use Rattle.outcomes.specs.Complaints.{outcome_of};
ghost use Rattle.outcomes.specs.Delivery.{sinks};
ghost use Rattle.outcomes.specs.Promises.{Promises};
ghost use Rattle.rcce_words.specs.ScriptWords.{job_command, plan_of, script_command};
ghost use Rattle.check_program.specs.Program.{command_plan, rccecheck, check_run_plan};
ghost use Rattle.check_program.specs.Reports.{report_ran};
ghost use Rattle.check_program.specs.Statuses.{HasRunStatus};

use crate::report::{Report, report_of};
use outcomes::{Complaint, Status, deliver};
use rcce_io::{Files, Sink};
use rcce_words::{ScriptJob, parse_script_words, read_script_file};
use script_rules::Scripts;
use std::alloc::Global;

/// Says which messages of a script come, and who waits for whom at its end. The words are those after the program's name.
///
/// The checks go in this order, and the first that refuses counts: the words, the reading of the script's file, its
/// grammar, memory, the writing of out. The plain meaning of the script is evaluated, and no chip is run. A sink that fails
/// is not written to again, nor is the other one.
///
/// The status is that of a run of the script, as `rccerun` answers for the same words and file: its definition speaks of the
/// words, the file and the plain meaning alone.
pub fn rccecheck<F: Files, O: Sink, E: Sink>(
    alloc: Global,
    words: &[String],
    files: &mut F,
    out: &mut O,
    err: &mut E,
) -> Status
    ensures promises { Promises rccecheck (map string_bytes words.now) (F.seen files.old) (F.seen files.new)
        (sinks (O.seen out.old) (E.seen err.old)) (sinks (O.seen out.new) (E.seen err.new)) result }
    // The status of a run of the script.
    ensures status { HasRunStatus (map string_bytes words.now) (F.seen files.old) (F.seen files.new)
        (sinks (O.seen out.old) (E.seen err.old)) (sinks (O.seen out.new) (E.seen err.new)) result }
{
    let ending = run_words(alloc, words, files);
    deliver("rccecheck", ending, out, err)
}

fn run_words<'a, F: Files>(
    alloc: Global,
    words: &'a [String],
    files: &mut F,
) -> Result<Report, Complaint<'a>>
    ensures { IsMeant (codes "rccecheck") (plan_of command_plan (script_command (map string_bytes words.now)))
        (F.seen files.old) (F.seen files.new) (outcome_of (codes "rccecheck") report_ran result) }
{
    match parse_script_words(words) {
        Some(job) => run_file(alloc, files, job),
        None => Err(Complaint::words("words refused")),
    }
}

// Reads the script's file, and looks at the script.
fn run_file<'a, F: Files>(
    alloc: Global,
    files: &mut F,
    job: ScriptJob<'a>,
) -> Result<Report, Complaint<'a>>
    requires some { 1 ≤ job.nue }
    requires most { job.nue ≤ 48 }
    ensures { Comes (codes "rccecheck") (command_plan (job_command job.entry))
        (F.seen files.old) (F.seen files.new) (outcome_of (codes "rccecheck") report_ran result) }
{
    match read_script_file(alloc, files, job.script, job.nue) {
        Ok(script) => run_script(alloc, script),
        Err(complaint) => Err(complaint),
    }
}

fn run_script<'a>(alloc: Global, script: Scripts) -> Result<Report, Complaint<'a>>
    ensures { (files : FilesView) → Comes (codes "rccecheck") (check_run_plan script) files files
        (outcome_of (codes "rccecheck") report_ran result) }
{
    match report_of(alloc, &script) {
        Ok(report) => Ok(report),
        Err(_) => Err(Complaint::Memory),
    }
}
