//! The top call.

ghost use Rattle.std.specs.Prelude.{◌≡◌, [], codes, map, string_bytes, None, unwrap_or};
ghost use Rattle.rcce_io.specs.Sending.{Sends};
ghost use Rattle.outcomes.specs.Complaints.{complaint_outcome};
ghost use Rattle.outcomes.specs.Delivery.{Delivers, sinks};
ghost use Rattle.scc_mesh.specs.Scenes.{IsNew, IsOpen};
ghost use Rattle.rcce_run.specs.Crews.{EndsAs};
ghost use Rattle.rcce_run.specs.UeRuns.{AreFresh, AreLegal};
ghost use Rattle.run_program.specs.Evictors.{HaveEvictors};
ghost use Rattle.run_program.specs.Loading.{asked_by};
ghost use Rattle.run_program.specs.Runs.{HaveEnded, HaveSent, IsMadeOf};
ghost use Rattle.trace_writer.specs.Writing.{HasTrace};
ghost use Rattle.trace_script.specs.Tracing.{IsTracedOver, StandsTraced, TellsEnd, TellsFault, TracesLoaded, TracesRun, TracesWords, WasRunInPart, refused_line};

use crate::endings::TraceEnd;
use chip_run::RunEnd;
use line_cache::Choice;
use outcomes::{Complaint, Report, Status, deliver};
use rcce_io::Piece::{Number, Text};
use rcce_io::{Files, Sink, WriteFault, write_texts};
use rcce_run::Crew;
use run_program::{Loaded, Run, crew_of, load};
use scc_base::Rank;
use scc_mesh::Chip;
use std::alloc::Global;
use trace_judge::Judge;
use trace_writer::{TraceFault, write_run};

/// Runs the script that the words ask for over the chip, on one thread, and writes the trace of the run while it goes. The words
/// are those of the launcher, after the program's name. Without `-serial` the turns are those of seed 0.
///
/// The checks go in the launcher's order. Memory is taken for the host file, the script, the units of execution, the judge, and
/// last for the chip's words; none is taken once the run begins. A sink that fails is not written to again, nor is the other one,
/// and no round begins after that.
pub fn trace_script<F: Files, O: Sink, E: Sink>(
    alloc: Global,
    words: &[String],
    files: &mut F,
    out: &mut O,
    err: &mut E,
    chip: &mut Chip,
) -> TraceEnd
    requires blank { chip.old ≡ None }
    // By rank the events written are exactly those of the chip's record, in order; all together are a run from the blank memory,
    // each permitted when it is made; err and the status are those of the launcher's definition for the same words. Where out
    // fails, the chip's events are those of a part of the run, which ended with the round of the failed write.
    ensures traces { ∥ TracesWords (map string_bytes words.now) (F.seen files.old) (F.seen files.new) chip.new
        (sinks (O.seen out.old) (E.seen err.old)) (sinks (O.seen out.new) (E.seen err.new)) result ∥₁ }
    // The legality theorem, whatever the status. (A blank chip has no calls.)
    ensures legal { IsOpen chip.new → AreLegal chip.new }
{
    match load(alloc, words, files) {
        Ok(loaded) => trace_loaded(alloc, &loaded, out, err, chip),
        Err(complaint) => TraceEnd::Ended(complain(complaint, out, err)),
    }
}

/// Says why nothing was run.
fn complain<'a, O: Sink, E: Sink>(why: Complaint<'a>, out: &mut O, err: &mut E) -> Status
    ensures { Delivers (complaint_outcome (codes "rccetrace") why.entry) (sinks (O.seen out.old) (E.seen err.old))
        (sinks (O.seen out.new) (E.seen err.new)) result }
{
    deliver::<Run<'_>, O, E>("rccetrace", Err(why), out, err)
}

/// Runs what was loaded, if there is memory for it.
fn trace_loaded<O: Sink, E: Sink>(
    alloc: Global,
    loaded: &Loaded,
    out: &mut O,
    err: &mut E,
    chip: &mut Chip,
) -> TraceEnd
    requires blank { chip.old ≡ None }
    requires made { IsMadeOf loaded.now.script loaded.now.seed }
    ensures traces { ∥ TracesLoaded (asked_by loaded.now) chip.new (sinks (O.seen out.old) (E.seen err.old))
        (sinks (O.seen out.new) (E.seen err.new)) result ∥₁ }
    ensures legal { IsOpen chip.new → AreLegal chip.new }
{
    let Ok(crew) = crew_of(alloc, &loaded.script, &loaded.setup, loaded.job.evict) else {
        return TraceEnd::Ended(complain(Complaint::Memory, out, err));
    };
    let Ok(judge) = Judge::new(alloc, loaded.setup.copy()) else {
        return TraceEnd::Ended(complain(Complaint::Memory, out, err));
    };
    if chip.open(alloc, loaded.setup.copy()).is_err() {
        return TraceEnd::Ended(complain(Complaint::Memory, out, err));
    }
    trace_crew(loaded, crew, judge, out, err, chip)
}

/// Runs the units of execution, and writes the trace and then where they stand that have not finished.
fn trace_crew<'s, O: Sink, E: Sink>(
    loaded: &'s Loaded,
    crew: Vec<Crew<'s, Choice>>,
    judge: Judge,
    out: &mut O,
    err: &mut E,
    chip: &mut Chip,
) -> TraceEnd
    requires chip { IsNew loaded.now.setup chip.old }
    requires fresh { AreFresh loaded.now.script loaded.now.setup loaded.now.setup.nue crew.items }
    requires evictors { HaveEvictors loaded.now.job.evict crew.items }
    requires judge { (judge.setup ≡ loaded.now.setup) × (judge.run ≡ []) }
    requires made { IsMadeOf loaded.now.script loaded.now.seed }
    ensures traces { ∥ TracesRun (asked_by loaded.now) chip.new (sinks (O.seen out.old) (E.seen err.old))
        (sinks (O.seen out.new) (E.seen err.new)) result ∥₁ }
    ensures legal { AreLegal chip.new }
{
    let mut crew = crew;
    match run_traced(loaded, crew.as_mut_slice(), judge, out, chip) {
        Ok(end) => TraceEnd::Ended(tell_end(loaded, crew, end, err)),
        Err(fault) => tell_fault(fault, err),
    }
}

/// Runs the units of execution on one thread, and writes the trace meanwhile.
fn run_traced<O: Sink>(
    loaded: &Loaded,
    crew: &mut [Crew<'_, Choice>],
    judge: Judge,
    out: &mut O,
    chip: &mut Chip,
) -> Result<RunEnd, TraceFault>
    requires chip { IsNew loaded.now.setup chip.old }
    requires fresh { AreFresh loaded.now.script loaded.now.setup loaded.now.setup.nue crew.old }
    requires evictors { HaveEvictors loaded.now.job.evict crew.old }
    requires judge { (judge.setup ≡ loaded.now.setup) × (judge.run ≡ []) }
    ensures stands { StandsTraced (asked_by loaded.now) chip.new }
    ensures trace { HasTrace (WasRunInPart (asked_by loaded.now) chip.new) chip.new (O.seen out.old) (O.seen out.new) result }
    ensures over { IsTracedOver (asked_by loaded.now) chip.new crew.new result }
    ensures legal { AreLegal chip.new }
{
    chip.known();
    let end = write_run(chip, crew, seed_of(loaded.job.serial), out, judge);
    chip.agrees();
    end
}

/// The seed of the turns.
fn seed_of(serial: Option<u32>) -> u64
    ensures { result ≡ unwrap_or serial 0 }
{
    match serial {
        Some(seed) => u64::from(seed),
        None => 0,
    }
}

/// Writes where the units of execution stand that have not finished.
fn tell_end<'s, E: Sink>(
    loaded: &'s Loaded,
    crew: Vec<Crew<'s, Choice>>,
    end: RunEnd,
    err: &mut E,
) -> Status
    requires ended { HaveEnded loaded.now.script crew.items }
    requires sent { HaveSent loaded.now.script crew.items }
    requires answer { EndsAs end loaded.now.script }
    requires made { IsMadeOf loaded.now.script loaded.now.seed }
    ensures tells { TellsEnd (asked_by loaded.now) (E.seen err.old) (E.seen err.new) result }
{
    let run = Run::new(&loaded.script, crew, end, loaded.seed);
    match run.write_err(err) {
        Ok(()) => {
            if run.is_finished() {
                Status::Finished
            } else {
                Status::Stuck
            }
        }
        Err(WriteFault) => Status::Write,
    }
}

/// Tells why the trace is not whole: nothing behind a failed write.
fn tell_fault<E: Sink>(fault: TraceFault, err: &mut E) -> TraceEnd
    ensures tells { TellsFault fault (E.seen err.old) (E.seen err.new) result }
{
    match fault {
        TraceFault::Write => TraceEnd::Ended(Status::Write),
        TraceFault::Refused { rank, why: _ } => {
            let _ = write_refused(err, rank);
            TraceEnd::Refused
        }
    }
}

/// The line of an event that the judge refused.
fn write_refused<E: Sink>(err: &mut E, rank: Rank) -> Result<(), WriteFault>
    ensures { Sends (refused_line rank) (E.seen err.old) (E.seen err.new) result }
{
    write_texts(
        err,
        &[
            Text("rccetrace: an event of ue "),
            Number(u64::from(rank.number())),
            Text(" is not legal\n"),
        ],
    )
}
