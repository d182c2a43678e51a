//! The top call.

ghost use Rattle.std.specs.Prelude.{◌≤◌, codes, map, string_bytes};
ghost use Rattle.rcce_io.specs.Files.{FilesView};
ghost use Rattle.outcomes.specs.Coming.{Comes, IsMeant};
ghost use Rattle.outcomes.specs.Complaints.{outcome_of};
ghost use Rattle.outcomes.specs.Delivery.{sinks};
ghost use Rattle.outcomes.specs.Promises.{Promises};
ghost use Rattle.rcce_words.specs.ScriptWords.{plan_of};
ghost use Rattle.mesh_program.specs.Jobs.{placed_job};
ghost use Rattle.mesh_program.specs.Program.{mesh_command_of, mesh_command_plan, rccemesh, mesh_run_plan};
ghost use Rattle.mesh_program.specs.Reports.{mesh_report_ran};

use crate::command::{Job, job_of};
use crate::report::{Report, report_of};
use outcomes::{Complaint, Status, deliver};
use rcce_io::{Files, Sink};
use rcce_words::read_script_file;
use scc_base::CoreId;
use script_rules::Scripts;
use std::alloc::Global;

/// Says how many lines each link of the mesh carries for the messages of a script. The words are those after the program's
/// name.
///
/// The checks go in this order, and the first that refuses counts: the words, the reading of the script's file, its
/// grammar, memory, the writing of out, the writing of err. The plain meaning of the script is evaluated, and no chip is
/// run. A sink that fails is not written to again, nor is the other one.
pub fn rccemesh<F: Files, O: Sink, E: Sink>(
    alloc: Global,
    words: &[String],
    files: &mut F,
    out: &mut O,
    err: &mut E,
) -> Status
    ensures promises { Promises rccemesh (map string_bytes words.now) (F.seen files.old) (F.seen files.new)
        (sinks (O.seen out.old) (E.seen err.old)) (sinks (O.seen out.new) (E.seen err.new)) result }
{
    let ending = run_words(alloc, words, files);
    deliver("rccemesh", ending, out, err)
}

fn run_words<'a, F: Files>(
    alloc: Global,
    words: &'a [String],
    files: &mut F,
) -> Result<Report, Complaint<'a>>
    ensures { IsMeant (codes "rccemesh") (plan_of mesh_command_plan (mesh_command_of (map string_bytes words.now)))
        (F.seen files.old) (F.seen files.new) (outcome_of (codes "rccemesh") mesh_report_ran result) }
{
    match job_of(words) {
        Some(job) => run_file(alloc, files, &job),
        None => Err(Complaint::words("words refused")),
    }
}

// Reads the script's file, and adds up the messages of the script.
fn run_file<'a, F: Files>(
    alloc: Global,
    files: &mut F,
    job: &Job<'a>,
) -> Result<Report, Complaint<'a>>
    requires some { 1 ≤ job.now.asked.nue }
    requires most { job.now.asked.nue ≤ 48 }
    ensures { Comes (codes "rccemesh") (mesh_command_plan (placed_job job.now))
        (F.seen files.old) (F.seen files.new) (outcome_of (codes "rccemesh") mesh_report_ran result) }
{
    let at = &job.at;
    match read_script_file(alloc, files, job.asked.script, job.asked.nue) {
        Ok(script) => run_script(alloc, at, script),
        Err(complaint) => Err(complaint),
    }
}

fn run_script<'a>(
    alloc: Global,
    at: &[CoreId; 48],
    script: Scripts,
) -> Result<Report, Complaint<'a>>
    ensures { (files : FilesView) → Comes (codes "rccemesh") (mesh_run_plan at.now script) files files
        (outcome_of (codes "rccemesh") mesh_report_ran result) }
{
    match report_of(alloc, at, &script) {
        Ok(report) => Ok(report),
        Err(_) => Err(Complaint::Memory),
    }
}
