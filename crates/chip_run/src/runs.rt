//! A run: rounds and sweeps, until a sweep in which no worker moves.

ghost use Rattle.std.specs.Prelude.{◌≡◌, ℕ, ◌<◌, length};
ghost use Rattle.chip_run.specs.Away.{behaviour_of_members};
ghost use Rattle.chip_run.specs.Crews.{AllRest, CrewStands, RunEndedAs, IsCrew};
ghost use Rattle.chip_run.specs.Marks.{ThreadsAfter, AsksNext, threads_of};
ghost use Rattle.chip_run.specs.Runs.{InOrder, IsInThreads, NextRound, RoundsTo, rounds_of};
ghost use Rattle.chip_run.specs.Waiting.{NoneDrafts};
ghost use Rattle.scc_mesh.specs.Scenes.{about_in, records_in};

use crate::crews::{round, sweep};
use crate::ends::RunEnd;
use crate::gates::Gate;
use crate::marks::{Counters, Marks};
use crate::members::Member;
use crate::threads::round_in_threads;
use crate::workers::Worker;
use rand_core::SeedableRng;
use rand_pcg::Pcg32;
use scc_mesh::Chip;
use std::thread::Threads;

/// How the turns of a run are taken.
#[derive(Clone, Copy)]
pub enum Mode {
    /// Each rank takes its turns in a thread of its own, or in one that it shares where the system refuses some.
    Threads,
    /// All turns are taken in this thread, in the order that a generator with this seed names.
    Serial(u64),
}

/// How the rounds go on.
#[derive(Drop)]
enum Rounds {
    InThreads,
    Picked(Pcg32),
}

impl Rounds {
    /// Before the first round.
    fn of(mode: Mode) -> Rounds
        ensures gives { result ≡ rounds_of mode }
    {
        match mode {
            Mode::Threads => Rounds::InThreads,
            Mode::Serial(seed) => Rounds::Picked(Pcg32::seed_from_u64(seed)),
        }
    }
}

/// The next round. In threads it asks for `threads` of them, and tells how many the round behind it asks for.
fn next_round<W: Worker + Send, G: Gate + Sync, R: Threads + Sync, M: Marks + Drop + Sync>(
    rt: &R,
    chip: &mut Chip,
    crew: &mut [Member<W>],
    rounds: &mut Rounds,
    gate: &G,
    threads: &mut usize,
)
    requires crew { IsCrew (behaviour_of_members W.behaviour) chip.old crew.old }
    requires some { 0 < length crew.old }
    requires threads { 0 < threads.old }
    ensures threads { 0 < threads.new }
    // In threads each member passed the gate, and the round asked for as many threads as it was told.
    ensures passed { IsInThreads rounds.old → (k : ℕ) → k < length crew.old → G.passed gate.now k }
    ensures asks { IsInThreads rounds.old → AsksNext M.shown (threads_of (length crew.old) threads.old) threads.new }
    ensures stands { CrewStands (behaviour_of_members W.behaviour) chip.old crew.old chip.new crew.new }
    ensures next { NextRound (behaviour_of_members W.behaviour) rounds.old rounds.new chip.old crew.old chip.new crew.new }
{
    match rounds {
        Rounds::InThreads => *threads = round_in_threads::<W, G, R, M>(
            rt, chip, crew, gate, *threads,
        ),
        Rounds::Picked(picks) => round(chip, crew, picks),
    }
}

/// The same with marks of this kind.
fn run_on<W: Worker + Send, G: Gate + Sync, R: Threads + Sync, M: Marks + Drop + Sync>(
    rt: &R,
    chip: &mut Chip,
    crew: &mut [Member<W>],
    mode: Mode,
    gate: &G,
) -> RunEnd
    requires crew { IsCrew (behaviour_of_members W.behaviour) chip.old crew.old }
    requires some { 0 < length crew.old }
    ensures stands { CrewStands (behaviour_of_members W.behaviour) chip.old crew.old chip.new crew.new }
    ensures rests { AllRest (behaviour_of_members W.behaviour) chip.new crew.new (length crew.new) }
    ensures answer { RunEndedAs (behaviour_of_members W.behaviour) result chip.new crew.new }
    ensures no_draft { NoneDrafts (about_in chip.new) (records_in chip.new) }
    ensures order { InOrder (behaviour_of_members W.behaviour) mode chip.old crew.old chip.new crew.new }
    // In threads each member passed the gate.
    ensures passed { IsInThreads (rounds_of mode) → (k : ℕ) → k < length crew.old → G.passed gate.now k }
    // The first round asks for a thread for each member, and each later one for as many as the one before it, or as had begun
    // there where some were missing.
    ensures rounds { (n : ℕ) × (last : _)
        × RoundsTo (behaviour_of_members W.behaviour) (rounds_of mode) n last chip.old crew.old chip.new crew.new
        × (IsInThreads (rounds_of mode) → (threads : ℕ) × ThreadsAfter M.shown (length crew.old) n threads) }
{
    let mut rounds = Rounds::of(mode);
    let mut threads = crew.len();
    loop {
        next_round::<W, G, R, M>(rt, chip, crew, &mut rounds, gate, &mut threads);
        let came = sweep(chip, crew);
        if let Some(end) = came.end() {
            return end;
        }
    }
}

/// Runs the members of a chip's crew, until a sweep in which none moves. No memory is taken.
pub fn run<W: Worker + Send, G: Gate + Sync, R: Threads + Sync>(
    rt: &R,
    chip: &mut Chip,
    crew: &mut [Member<W>],
    mode: Mode,
    gate: &G,
) -> RunEnd
    requires crew { IsCrew (behaviour_of_members W.behaviour) chip.old crew.old }
    requires some { 0 < length crew.old }
    // It is the same chip, whole, with the same members, each as it is after some turns and tied to its rank's events; no member
    // holds a token.
    ensures stands { CrewStands (behaviour_of_members W.behaviour) chip.old crew.old chip.new crew.new }
    // Each worker rests: it has finished, a mismatch stopped it, or it waits.
    ensures rests { AllRest (behaviour_of_members W.behaviour) chip.new crew.new (length crew.new) }
    // It answers Finished where all have finished, and Stuck where one has not.
    ensures answer { RunEndedAs (behaviour_of_members W.behaviour) result chip.new crew.new }
    // A rank that has no call open is in the midst of nothing: it has no message in draft.
    ensures no_draft { NoneDrafts (about_in chip.new) (records_in chip.new) }
    // Under Serial the turns were those of the ranks that the seed's generator names, and in threads each worker took a row of
    // turns in each round; with a sweep behind each round.
    ensures order { InOrder (behaviour_of_members W.behaviour) mode chip.old crew.old chip.new crew.new }
    // In threads each member passed the gate.
    ensures passed { IsInThreads (rounds_of mode) → (k : ℕ) → k < length crew.old → G.passed gate.now k }
{
    run_on::<W, G, R, Counters>(rt, chip, crew, mode, gate)
}
