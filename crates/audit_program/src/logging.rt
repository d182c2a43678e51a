//! A run whose log is written.

ghost use Rattle.std.specs.Prelude.{◌≡◌, ◌≤◌, ℕ, map, string_bytes, List, None, Some, true};
ghost use Rattle.scc_mesh.specs.Scenes.{IsOpen};
ghost use Rattle.outcomes.specs.Delivery.{sinks};
ghost use Rattle.log_run.specs.LogRuns.{AreLegalCalls};
ghost use Rattle.log_run.specs.Sizes.{has_room_for_all};
ghost use Rattle.audit_program.specs.History.{RunTells, WordsTell, log_setup_by};
ghost use Rattle.audit_program.specs.Loading.{EndsByPlan, HasRan, LaunchesLogged};
ghost use Rattle.audit_program.specs.Program.{command_of, audit_command_plan};
ghost use Rattle.rcce_words.specs.ScriptWords.{job_command, plan_of};

use crate::command::job_of;
use crate::logged::Logged;
use log_run::{has_room, run_script};
use outcomes::{Complaint, Status, deliver};
use rcce_io::{Files, Sink};
use rcce_words::{ScriptJob, default_hosts, read_script_file};
use scc_base::{Layout, Setup};
use scc_mesh::Chip;
use script_rules::Scripts;
use std::alloc::Global;

/// Runs what the words ask for, and writes its log.
pub fn log_words<F: Files, O: Sink, E: Sink>(
    alloc: Global,
    words: &[String],
    files: &mut F,
    out: &mut O,
    err: &mut E,
    chip: &mut Chip,
) -> Status
    requires blank { chip.old ≡ None }
    ensures ends { EndsByPlan (WordsTell (F.seen files.old).told (command_of (map string_bytes words.now)) chip.new)
        (plan_of audit_command_plan (command_of (map string_bytes words.now))) (F.seen files.old) (F.seen files.new)
        (sinks (O.seen out.old) (E.seen err.old)) (sinks (O.seen out.new) (E.seen err.new)) result }
    ensures legal { IsOpen chip.new → AreLegalCalls chip.new }
{
    match job_of(words) {
        Some(job) => log_job(alloc, job, files, out, err, chip),
        None => {
            let complaint = Complaint::words("words refused");
            deliver::<Logged<'_>, O, E>("rcceaudit", Err(complaint), out, err)
        }
    }
}

// Runs the script of a job, and writes its log.
fn log_job<F: Files, O: Sink, E: Sink>(
    alloc: Global,
    job: ScriptJob<'_>,
    files: &mut F,
    out: &mut O,
    err: &mut E,
    chip: &mut Chip,
) -> Status
    requires blank { chip.old ≡ None }
    requires some { 1 ≤ job.nue }
    requires most { job.nue ≤ 48 }
    ensures ends { EndsByPlan (RunTells (F.seen files.old).told (job_command job.entry) chip.new)
        (plan_of audit_command_plan (Some (job_command job.entry))) (F.seen files.old) (F.seen files.new)
        (sinks (O.seen out.old) (E.seen err.old)) (sinks (O.seen out.new) (E.seen err.new)) result }
    ensures legal { IsOpen chip.new → AreLegalCalls chip.new }
{
    match read_script_file(alloc, files, job.script, job.nue) {
        Ok(scripts) => log_script(alloc, &scripts, job.script, out, err, chip),
        Err(complaint) => deliver::<Logged<'_>, O, E>("rcceaudit", Err(complaint), out, err),
    }
}

// Runs the script, and writes its log.
fn log_script<O: Sink, E: Sink>(
    alloc: Global,
    scripts: &Scripts,
    file: &str,
    out: &mut O,
    err: &mut E,
    chip: &mut Chip,
) -> Status
    requires blank { chip.old ≡ None }
    ensures ran { HasRan file.now scripts.now chip.new (sinks (O.seen out.old) (E.seen err.old))
        (sinks (O.seen out.new) (E.seen err.new)) result }
    ensures legal { IsOpen chip.new → AreLegalCalls chip.new }
{
    let ending = launch(alloc, scripts, file, chip);
    deliver("rcceaudit", ending, out, err)
}

// Runs the script, if there is room for its calls.
fn launch<'s>(
    alloc: Global,
    scripts: &'s Scripts,
    file: &'s str,
    chip: &mut Chip,
) -> Result<Logged<'s>, Complaint<'s>>
    requires blank { chip.old ≡ None }
    ensures launched { LaunchesLogged file.now scripts.now chip.new result }
    ensures legal { IsOpen chip.new → AreLegalCalls chip.new }
{
    match has_room(alloc, scripts) {
        Ok(room) => run_within(alloc, scripts, file, room, chip),
        Err(_) => Err(Complaint::Memory),
    }
}

// Runs the script where there is room for its calls.
fn run_within<'s>(
    alloc: Global,
    scripts: &'s Scripts,
    file: &'s str,
    room: bool,
    chip: &mut Chip,
) -> Result<Logged<'s>, Complaint<'s>>
    requires blank { chip.old ≡ None }
    requires room { room ≡ has_room_for_all scripts.now }
    ensures launched { LaunchesLogged file.now scripts.now chip.new result }
    ensures legal { IsOpen chip.new → AreLegalCalls chip.new }
{
    if room {
        run(alloc, scripts, chip)
    } else {
        Err(Complaint::Refused {
            file,
            line: 0,
            kind: "TooLong",
        })
    }
}

// Runs the script.
fn run<'s>(
    alloc: Global,
    scripts: &'s Scripts,
    chip: &mut Chip,
) -> Result<Logged<'s>, Complaint<'s>>
    requires blank { chip.old ≡ None }
    requires room { has_room_for_all scripts.now ≡ true }
    ensures launched { (file : List ℕ) → LaunchesLogged file scripts.now chip.new result }
    ensures legal { IsOpen chip.new → AreLegalCalls chip.new }
{
    scripts.acceptance_law();
    match run_script(alloc, scripts, &setup_by(scripts), chip) {
        Ok(run) => Ok(Logged { run }),
        Err(_) => Err(Complaint::Memory),
    }
}

// The setup of a run: line flags, and rank r on core r.
fn setup_by(scripts: &Scripts) -> Setup
    ensures { result ≡ log_setup_by scripts.now }
{
    scripts.acceptance_law();
    scripts.setup(Layout::lines(), default_hosts())
}
