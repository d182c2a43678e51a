//! The top call.

ghost use Rattle.std.specs.Prelude.{◌≡◌, map, string_bytes, None};
ghost use Rattle.outcomes.specs.Delivery.{sinks};
ghost use Rattle.outcomes.specs.Promises.{EndsWith, Promises};
ghost use Rattle.scc_mesh.specs.Scenes.{IsNew, IsOpen};
ghost use Rattle.rcce_run.specs.UeRuns.{AreFresh, AreLegal};
ghost use Rattle.rcce_words.specs.CommandLine.{parse_command};
ghost use Rattle.run_program.specs.Asking.{ChipTells};
ghost use Rattle.run_program.specs.Evictors.{HaveEvictors};
ghost use Rattle.run_program.specs.History.{HasRun, mode_by};
ghost use Rattle.run_program.specs.Loading.{Launches, IsCarriedOut, asked_by, shown_by};
ghost use Rattle.run_program.specs.Program.{rccerun};
ghost use Rattle.run_program.specs.Runs.{IsMadeOf, IsOver};

use crate::crew::crew_of;
use crate::loaded::Loaded;
use crate::loading::load;
use crate::run::Run;
use chip_run::{Gate, Mode, RunEnd};
use line_cache::Choice;
use outcomes::{Complaint, Status, deliver};
use rcce_io::{Files, Sink};
use rcce_run::{Crew, run};
use scc_mesh::Chip;
use std::alloc::Global;
use std::thread::Threads;

/// Runs the script that the words ask for over the chip, from its file, or from the number that it is made of, to its output.
/// The words are those after the program's name.
///
/// The checks go in this order, and the first that refuses counts: the words, the reading of the host file, its grammar,
/// the reading of the script's file, its grammar, memory for the run, the run, the writing of out, the writing of err.
/// Memory is taken for the host file, the script, the units of execution, and last for the chip's words; none is taken once
/// the run begins. Each unit of execution runs in a thread of its own and passes the gate at the start of each round, or all
/// run on one thread where the words ask for that. A sink that fails is not written to again, nor is the other one.
pub fn rccerun<R: Threads + Sync, F: Files, O: Sink, E: Sink, G: Gate + Sync>(
    rt: &R,
    alloc: Global,
    words: &[String],
    files: &mut F,
    out: &mut O,
    err: &mut E,
    chip: &mut Chip,
    gate: &G,
) -> Status
    requires blank { chip.old ≡ None }
    // The output theorem is its field `output`, with `refused` for refused words, and the causes of the statuses.
    ensures promises { Promises rccerun (map string_bytes words.now) (F.seen files.old) (F.seen files.new)
        (sinks (O.seen out.old) (E.seen err.old)) (sinks (O.seen out.new) (E.seen err.new)) result }
    // The chip history theorem: with the statuses 0 and 3 the chip has the history of the run that the words ask for, and with
    // 1, 2, 4 and 5 it is blank. Where a write failed, it is as the outcome says that was to be written.
    ensures history { EndsWith
        (ChipTells (map string_bytes words.now) (parse_command (map string_bytes words.now)) (F.seen files.old).told chip.new)
        rccerun (map string_bytes words.now) (F.seen files.old) (F.seen files.new)
        (sinks (O.seen out.old) (E.seen err.old)) (sinks (O.seen out.new) (E.seen err.new)) result }
    // The legality theorem, whatever the status. (A blank chip has no calls.)
    ensures legal { IsOpen chip.new → AreLegal chip.new }
{
    match load(alloc, words, files) {
        Ok(loaded) => run_loaded(rt, alloc, &loaded, out, err, chip, gate),
        Err(complaint) => deliver::<Run<'_>, O, E>("rccerun", Err(complaint), out, err),
    }
}

// Runs what was loaded, and writes what it came to.
fn run_loaded<R: Threads + Sync, O: Sink, E: Sink, G: Gate + Sync>(
    rt: &R,
    alloc: Global,
    loaded: &Loaded,
    out: &mut O,
    err: &mut E,
    chip: &mut Chip,
    gate: &G,
) -> Status
    requires blank { chip.old ≡ None }
    requires made { IsMadeOf loaded.now.script loaded.now.seed }
    ensures ran { IsCarriedOut (asked_by loaded.now) chip.new (sinks (O.seen out.old) (E.seen err.old))
        (sinks (O.seen out.new) (E.seen err.new)) result }
    ensures legal { IsOpen chip.new → AreLegal chip.new }
{
    let ending = launch(rt, alloc, loaded, chip, gate);
    deliver("rccerun", ending, out, err)
}

// Makes the units of execution and then the chip's words, and runs.
fn launch<'s, R: Threads + Sync, G: Gate + Sync>(
    rt: &R,
    alloc: Global,
    loaded: &'s Loaded,
    chip: &mut Chip,
    gate: &G,
) -> Result<Run<'s>, Complaint<'s>>
    requires blank { chip.old ≡ None }
    requires made { IsMadeOf loaded.now.script loaded.now.seed }
    ensures ran { Launches (asked_by loaded.now) chip.new result }
    ensures legal { IsOpen chip.new → AreLegal chip.new }
{
    let Ok(crew) = crew_of(alloc, &loaded.script, &loaded.setup, loaded.job.evict) else {
        return Err(Complaint::Memory);
    };
    if chip.open(alloc, loaded.setup.copy()).is_err() {
        return Err(Complaint::Memory);
    }
    let run = run_opened(rt, loaded, crew, chip, gate);
    Ok(run)
}

// Runs the units of execution on the chip that was opened for them.
fn run_opened<'s, R: Threads + Sync, G: Gate + Sync>(
    rt: &R,
    loaded: &'s Loaded,
    mut crew: Vec<Crew<'s, Choice>>,
    chip: &mut Chip,
    gate: &G,
) -> Run<'s>
    requires made { IsMadeOf loaded.now.script loaded.now.seed }
    requires chip { IsNew loaded.now.setup chip.old }
    requires fresh { AreFresh loaded.now.script loaded.now.setup loaded.now.setup.nue crew.items }
    requires evictors { HaveEvictors loaded.now.job.evict crew.items }
    ensures shown { result ≡ shown_by (asked_by loaded.now) }
    ensures ran { HasRun (asked_by loaded.now) chip.new }
    ensures legal { AreLegal chip.new }
{
    let end = run_crew(rt, loaded, chip, crew.as_mut_slice(), gate);
    Run::new(&loaded.script, crew, end, loaded.seed)
}

// Runs the units of execution, each in a thread of its own, or all on one thread where the words ask for that.
fn run_crew<R: Threads + Sync, G: Gate + Sync>(
    rt: &R,
    loaded: &Loaded,
    chip: &mut Chip,
    crew: &mut [Crew<'_, Choice>],
    gate: &G,
) -> RunEnd
    requires chip { IsNew loaded.now.setup chip.old }
    requires fresh { AreFresh loaded.now.script loaded.now.setup loaded.now.setup.nue crew.old }
    requires evictors { HaveEvictors loaded.now.job.evict crew.old }
    ensures over { IsOver (asked_by loaded.now) chip.new crew.new result }
    ensures legal { AreLegal chip.new }
{
    run(rt, chip, crew, mode_of(loaded.job.serial), gate)
}

// How a run is made: in threads, or on one thread in the order that a seed names.
fn mode_of(serial: Option<u32>) -> Mode
    ensures gives { result ≡ mode_by serial }
{
    match serial {
        Some(seed) => Mode::Serial(u64::from(seed)),
        None => Mode::Threads,
    }
}
