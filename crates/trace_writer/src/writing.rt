//! A run whose trace is written while it goes.

ghost use Rattle.std.specs.Prelude.{◌≡◌, ◌<◌, ℕ, [], is_none, length};
ghost use Rattle.chip_run.specs.Crews.{CrewStands, IsCrew};
ghost use Rattle.scc_mesh.specs.Scenes.{about_in, events_in};
ghost use Rattle.trace_run.specs.Runs.{RunsBy};
ghost use Rattle.trace_run.specs.Seen.{HasSeenAll};
ghost use Rattle.trace_writer.specs.Desks.{HasWritten, IsFrontOf};
ghost use Rattle.trace_writer.specs.Writing.{HasTrace, KeepsUp, RunsTraced};

use crate::desks::{Desk, Origin, TraceFault, begin, close};
use chip_run::{RunEnd, Worker};
use rcce_io::{Buffer, Sink};
use scc_mesh::Chip;
use std::marker::{Brand, PhantomData};
use trace_judge::Judge;
use trace_run::{SeenRun, run_seen};

/// Runs the workers of a chip on one thread, in the order that a seed names, and writes the trace of the run while it goes: how
/// the run ended, or why no more was written. A sink that fails ends the run with the
/// round: no other one is begun. No memory is taken.
pub fn write_run<W: Worker, S: Sink>(
    chip: &mut Chip,
    crew: &mut [W],
    seed: u64,
    out: &mut S,
    judge: Judge,
) -> Result<RunEnd, TraceFault>
    requires crew { IsCrew W.behaviour chip.old crew.old }
    requires some { 0 < length crew.old }
    requires empty { (rank : ℕ) → events_in chip.old rank ≡ [] }
    requires judge { (judge.setup ≡ about_in chip.old) × (judge.run ≡ []) }
    // It is the same chip, whole, with the same workers, each as it is after some turns and tied to its rank's events.
    ensures stands { CrewStands W.behaviour chip.old crew.old chip.new crew.new }
    // What was written is the trace of the chip's events: by rank they are the rank's own, in order, and all are legal. It has all
    // events that the chip had before its last round, so that no round begins after a failed write.
    ensures trace { HasTrace (KeepsUp W.behaviour seed chip.old crew.old chip.new crew.new) chip.new (S.seen out.old) (S.seen out.new)
        result }
    // Where the trace is whole each worker rests, as in any run on one thread; else the run is a part of one.
    ensures ends { RunsTraced W.behaviour seed chip.old crew.old chip.new crew.new result }
{
    let SeenRun { witness, end } = write_as::<W, S, Brand>(chip, crew, seed, out, judge);
    let Desk {
        sink,
        buffer,
        judge,
        fault,
        origin: _,
    } = witness;
    // What the desk owns goes first: the sink is its borrower's again once nothing else of the desk is left.
    drop(judge);
    match close(sink, buffer, fault) {
        Ok(()) => match end {
            Some(end) => Ok(end),
            None => unreachable!(),
        },
        Err(fault) => Err(fault),
    }
}

/// Runs the workers with a desk as their witness, and gives the desk back, on which the last lines may wait.
fn write_as<'o, W: Worker, S: Sink, B: Origin>(
    chip: &mut Chip,
    crew: &mut [W],
    seed: u64,
    out: &'o mut S,
    judge: Judge,
) -> SeenRun<Desk<'o, S, B>>
    requires origin { (B.before ≡ S.seen out.old) × (B.name ≡ out.ghost_name) }
    requires crew { IsCrew W.behaviour chip.old crew.old }
    requires some { 0 < length crew.old }
    requires empty { (rank : ℕ) → events_in chip.old rank ≡ [] }
    requires judge { (judge.setup ≡ about_in chip.old) × (judge.run ≡ []) }
    ensures stands { CrewStands W.behaviour chip.old crew.old chip.new crew.new }
    ensures same { result.witness.sink.ghost_name ≡ B.name }
    ensures seen { HasSeenAll result.witness.judge.setup (λ run. (result.witness.sink.ghost_name ≡ B.name)
        × HasWritten B.before result.witness.judge result.witness.buffer (S.seen result.witness.sink.now) result.witness.fault
        run) chip.new }
    ensures ends { RunsBy W.behaviour (is_none result.witness.fault) (λ run. IsFrontOf run result.witness.judge.run) seed result.end
        chip.old crew.old chip.new crew.new }
{
    let mut buffer = Buffer::new();
    let fault = begin(out, &mut buffer, &judge);
    let desk: Desk<'o, S, B> = Desk {
        sink: out,
        buffer,
        judge,
        fault,
        origin: PhantomData,
    };
    run_seen(chip, crew, seed, desk)
}
