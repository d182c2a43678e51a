//! The top call.

ghost use Rattle.std.specs.Prelude.{◌≡◌, ◌≤◌, map, string_bytes, None};
ghost use Rattle.outcomes.specs.Delivery.{sinks};
ghost use Rattle.outcomes.specs.Promises.{EndsWith, Promises};
ghost use Rattle.coll_program.specs.History.{CollChipTells, HasRunCollective};
ghost use Rattle.coll_program.specs.Jobs.{coll_setup_of};
ghost use Rattle.coll_program.specs.Program.{job_ran, no_files, rccecoll};
ghost use Rattle.coll_program.specs.Reports.{coll_report_ran};
ghost use Rattle.coll_program.specs.Runs.{IsTeamOf, LaunchesJob, RunsWords};
ghost use Rattle.scc_mesh.specs.Scenes.{IsNew};

use crate::command::{Job, job_of};
use crate::report::Report;
use crate::team::{setup_of, team_of};
use coll_run::{Member, run};
use line_cache::Never;
use outcomes::{Complaint, Status, deliver};
use rcce_io::Sink;
use scc_mesh::Chip;
use std::alloc::Global;

/// Runs one collective call on all ranks of a chip, and writes what the ranks have got. The words are those after the
/// program's name: the number of ranks, the call, and the length of a piece.
///
/// The checks go in this order, and the first that refuses counts: the words, memory, the writing of out, the writing of err.
/// Memory is taken for the ranks with their bytes, and last for the chip's words; none is taken once the run begins. The run
/// always comes to its end. A sink that fails is not written to again, nor is the other one.
pub fn rccecoll<O: Sink, E: Sink>(
    alloc: Global,
    words: &[String],
    out: &mut O,
    err: &mut E,
    chip: &mut Chip,
) -> Status
    requires blank { chip.old ≡ None }
    // The output theorem is its field `output`, with `refused` for refused words, and the causes of the statuses. No file is
    // asked for.
    ensures promises { Promises rccecoll (map string_bytes words.now) no_files no_files
        (sinks (O.seen out.old) (E.seen err.old)) (sinks (O.seen out.new) (E.seen err.new)) result }
    // The chip history: with the status 0 each rank has made exactly the calls of its table, with their bytes, and no call is
    // open; with 1 and 4 the chip is blank. Where a write failed, it is as the outcome says that was to be written.
    ensures history { EndsWith (CollChipTells (map string_bytes words.now) chip.new) rccecoll (map string_bytes words.now) no_files no_files
        (sinks (O.seen out.old) (E.seen err.old)) (sinks (O.seen out.new) (E.seen err.new)) result }
{
    let ending = run_words(alloc, words, chip);
    deliver("rccecoll", ending, out, err)
}

// Runs what the words ask for.
fn run_words<'a>(alloc: Global, words: &[String], chip: &mut Chip) -> Result<Report, Complaint<'a>>
    requires blank { chip.old ≡ None }
    ensures { RunsWords (map string_bytes words.now) chip.new result }
{
    match job_of(words) {
        Some(job) => launch(alloc, &job, chip),
        None => Err(Complaint::words("words refused")),
    }
}

// Makes the ranks and then the chip's words, and runs.
fn launch<'a>(alloc: Global, job: &Job, chip: &mut Chip) -> Result<Report, Complaint<'a>>
    requires blank { chip.old ≡ None }
    requires some { 1 ≤ job.now.nue }
    requires most { job.now.nue ≤ 48 }
    requires short { job.now.len ≤ 1024 }
    ensures { LaunchesJob job.now chip.new result }
{
    let Ok(team) = team_of(alloc, job) else {
        return Err(Complaint::Memory);
    };
    if chip.open(alloc, setup_of(job.nue)).is_err() {
        return Err(Complaint::Memory);
    }
    Ok(run_team(job, team, chip))
}

// Runs the ranks on the chip.
fn run_team(job: &Job, mut team: Vec<Member<Never>>, chip: &mut Chip) -> Report
    requires some { 1 ≤ job.now.nue }
    requires new { IsNew (coll_setup_of job.now.nue) chip.old }
    requires team { IsTeamOf job.now team.items }
    ensures ran { coll_report_ran result ≡ job_ran job.now }
    ensures has_run { HasRunCollective job.now chip.new }
{
    run(chip, team.as_mut_slice());
    Report { job: *job, team }
}
