//! A round in threads: each worker takes a row of turns, in a thread of its own where the system grants one for each.

ghost use Rattle.std.specs.Prelude.{◌≡◌, ◌≢◌, ℕ, ◌+◌, ◌^◌, ◌<◌, length, slice_index_or};
ghost use Rattle.std.specs.Int.{div_ceil};
ghost use Rattle.chip_run.specs.Away.{IsAtHome, IsAway, Served, TookSlice, behaviour_of_members};
ghost use Rattle.chip_run.specs.Crews.{IsCrew};
ghost use Rattle.chip_run.specs.Marks.{AsksNext, BeganFor, threads_of};
ghost use Rattle.chip_run.specs.Runs.{TookSlices};
ghost use Rattle.scc_mesh.specs.Scenes.{IsHomeBelow, IsHomeFrom, IsWhole, about_in, events_in, table_in};

use crate::gates::Gate;
use crate::marks::Marks;
use crate::members::Member;
use crate::rolls::Roll;
use crate::slices::slice_in_thread;
use crate::together::slices_together;
use crate::workers::Worker;
use scc_base::Rank;
use scc_mesh::{Chip, Words};
use std::thread;
use std::thread::Threads;

/// Hands out one rank.
fn give<W: Worker>(chip: &mut Chip, at: usize, member: &mut Member<W>)
    requires from { IsHomeFrom chip.old at }
    requires below { at < (about_in chip.old).nue }
    requires ties { W.behaviour.tied member.old.worker (about_in chip.old) at (events_in chip.old at) }
    ensures from { IsHomeFrom chip.new (at + 1) }
    ensures same { (about_in chip.new ≡ about_in chip.old) × (table_in chip.new ≡ table_in chip.old) }
    ensures others { (q : ℕ) → q ≢ at → events_in chip.new q ≡ events_in chip.old q }
    ensures away { IsAway (W.behaviour.tied member.new.worker) (about_in chip.new) (table_in chip.new) at member.new.token }
    ensures worker { member.new.worker ≡ member.old.worker }
{
    chip.known();
    member.token = Some(chip.spread(Rank::of(at as u8)));
}

/// Takes one rank home.
fn bring<W: Worker>(chip: &mut Chip, at: usize, member: &mut Member<W>)
    requires home { IsHomeBelow chip.old at }
    requires below { at < (about_in chip.old).nue }
    requires away { IsAway (W.behaviour.tied member.old.worker) (about_in chip.old) (table_in chip.old) at member.old.token }
    ensures home { IsHomeBelow chip.new (at + 1) }
    ensures same { (about_in chip.new ≡ about_in chip.old) × (table_in chip.new ≡ table_in chip.old) }
    ensures others { (q : ℕ) → q ≢ at → events_in chip.new q ≡ events_in chip.old q }
    ensures ties { IsAtHome (W.behaviour.tied member.new.worker) member.new.token (about_in chip.new) at (events_in chip.new at) }
    ensures worker { member.new.worker ≡ member.old.worker }
{
    let Some(token) = member.token.take() else {
        unreachable!()
    };
    chip.gather(token);
}

/// One member's row of turns, in its thread.
fn go<W: Worker, G: Gate, M: Marks>(
    words: Words<'_>,
    gate: &G,
    roll: &Roll<M>,
    at: usize,
    member: &mut Member<W>,
)
    requires away { IsAway (W.behaviour.tied member.old.worker) words.space.now.about words.space.now.table at member.old.token }
    ensures away { IsAway (W.behaviour.tied member.new.worker) words.entry.space.now.about words.entry.space.now.table at member.new.token }
    ensures slice { TookSlice W.behaviour words.entry.space.now.about at member.old.worker member.new.worker }
    // Its thread marked that it began, and it passed the gate.
    ensures began { M.shown.began at }
    ensures passed { G.passed gate.now at }
{
    let Some(token) = member.token.take() else {
        unreachable!()
    };
    roll.begin(at);
    gate.pass(token.rank());
    member.token = Some(slice_in_thread(words, token, &mut member.worker, roll));
}

/// Hands out all ranks, in rank order.
fn hand_out<W: Worker>(chip: &mut Chip, crew: &mut [Member<W>])
    requires crew { IsCrew (behaviour_of_members W.behaviour) chip.old crew.old }
    ensures none { IsHomeBelow chip.new 0 }
    ensures same { (about_in chip.new ≡ about_in chip.old) × (table_in chip.new ≡ table_in chip.old) }
    ensures served { Served (λ k m n. (n.worker ≡ m.worker)
        × IsAway (W.behaviour.tied n.worker) (about_in chip.old) (table_in chip.old) k n.token)
        (length crew.old) crew.old crew.new }
{
    for at in 0..crew.len() {
        give(chip, at, &mut crew[at]);
    }
}

/// All members' rows of turns, each in a thread of its own.
fn in_threads<W: Worker + Send, G: Gate + Sync, R: Threads + Sync, M: Marks + Sync>(
    rt: &R,
    words: Words<'_>,
    gate: &G,
    roll: &Roll<M>,
    crew: &mut [Member<W>],
)
    requires some { 0 < length crew.old }
    requires away { (i : ℕ) (d : _) → i < length crew.old
        → let m = slice_index_or crew.old i d in IsAway (W.behaviour.tied m.worker) words.space.now.about words.space.now.table i m.token }
    ensures away { (i : ℕ) (d : _) → i < length crew.old
        → let m = slice_index_or crew.new i d in IsAway (W.behaviour.tied m.worker) words.entry.space.now.about
        words.entry.space.now.table i m.token }
    ensures slices { (i : ℕ) (d : _) → i < length crew.old
        → TookSlice W.behaviour words.entry.space.now.about i (slice_index_or crew.old i d).worker (slice_index_or crew.new i d).worker }
    ensures began { (i : ℕ) → i < length crew.old → M.shown.began i }
    ensures passed { (i : ℕ) → i < length crew.old → G.passed gate.now i }
{
    let threads = crew.len();
    thread::for_each_mut(
        rt,
        crew,
        threads,
        &|at: usize, member: &mut Member<W>|
            requires { IsAway (W.behaviour.tied member.old.worker) words.space.now.about words.space.now.table at member.old.token }
            ensures { IsAway (W.behaviour.tied member.new.worker) words.entry.space.now.about words.entry.space.now.table at
                member.new.token
                × TookSlice W.behaviour words.entry.space.now.about at member.old.worker member.new.worker
                × M.shown.began at × G.passed gate.entry.now at }
        { go(words, gate, roll, at, member) },
    );
}

/// All members' rows of turns, where `each` of them share a thread.
fn in_few_threads<W: Worker + Send, G: Gate + Sync, R: Threads + Sync, M: Marks + Sync>(
    rt: &R,
    words: Words<'_>,
    gate: &G,
    roll: &Roll<M>,
    crew: &mut [Member<W>],
    each: usize,
)
    requires each { 0 < each }
    requires away { (i : ℕ) (d : _) → i < length crew.old
        → let m = slice_index_or crew.old i d in IsAway (W.behaviour.tied m.worker) words.space.now.about words.space.now.table i m.token }
    ensures away { (i : ℕ) (d : _) → i < length crew.old
        → let m = slice_index_or crew.new i d in IsAway (W.behaviour.tied m.worker) words.entry.space.now.about
        words.entry.space.now.table i m.token }
    ensures slices { (i : ℕ) (d : _) → i < length crew.old
        → TookSlice W.behaviour words.entry.space.now.about i (slice_index_or crew.old i d).worker (slice_index_or crew.new i d).worker }
    ensures began { (i : ℕ) → i < length crew.old → BeganFor M.shown each i }
    ensures passed { (i : ℕ) → i < length crew.old → G.passed gate.now i }
{
    thread::for_each_chunk_mut(
        rt,
        crew,
        each,
        &|start: usize, members: &mut [Member<W>]|
            requires { (start + length members.old < 2 ^ 64) × ((k : ℕ) (d : _) → k < length members.old
                → let m = slice_index_or members.old k d in IsAway (W.behaviour.tied m.worker) words.space.now.about words.space.now.table
                (start + k) m.token) }
            ensures { (k : ℕ) (d : _) → k < length members.old
                → let m = slice_index_or members.new k d in IsAway (W.behaviour.tied m.worker) words.entry.space.now.about
                words.entry.space.now.table (start + k) m.token
                × TookSlice W.behaviour words.entry.space.now.about (start + k) (slice_index_or members.old k d).worker m.worker
                × M.shown.began start × G.passed gate.entry.now (start + k) }
        { slices_together(words, gate, roll, start, members) },
    );
}

/// All members' rows of turns, at most `each` of them in a thread.
fn all_slices<W: Worker + Send, G: Gate + Sync, R: Threads + Sync, M: Marks + Sync>(
    rt: &R,
    words: Words<'_>,
    gate: &G,
    roll: &Roll<M>,
    crew: &mut [Member<W>],
    each: usize,
)
    requires some { 0 < length crew.old }
    requires each { 0 < each }
    requires away { (i : ℕ) (d : _) → i < length crew.old
        → let m = slice_index_or crew.old i d in IsAway (W.behaviour.tied m.worker) words.space.now.about words.space.now.table i m.token }
    ensures away { (i : ℕ) (d : _) → i < length crew.old
        → let m = slice_index_or crew.new i d in IsAway (W.behaviour.tied m.worker) words.entry.space.now.about
        words.entry.space.now.table i m.token }
    ensures slices { (i : ℕ) (d : _) → i < length crew.old
        → TookSlice W.behaviour words.entry.space.now.about i (slice_index_or crew.old i d).worker (slice_index_or crew.new i d).worker }
    ensures began { (i : ℕ) → i < length crew.old → BeganFor M.shown each i }
    ensures passed { (i : ℕ) → i < length crew.old → G.passed gate.now i }
{
    if each > 1 {
        in_few_threads(rt, words, gate, roll, crew, each);
    } else {
        in_threads(rt, words, gate, roll, crew);
    }
}

/// Takes all ranks home, in rank order.
fn take_home<W: Worker>(chip: &mut Chip, crew: &mut [Member<W>])
    requires none { IsHomeBelow chip.old 0 }
    requires each { length crew.old ≡ (about_in chip.old).nue }
    requires away { (i : ℕ) (d : _) → i < length crew.old
        → let m = slice_index_or crew.old i d in IsAway (W.behaviour.tied m.worker) (about_in chip.old) (table_in chip.old) i m.token }
    ensures whole { IsWhole chip.new }
    ensures same { (about_in chip.new ≡ about_in chip.old) × (table_in chip.new ≡ table_in chip.old) }
    ensures served { Served (λ k m n. (n.worker ≡ m.worker)
        × IsAtHome (W.behaviour.tied n.worker) n.token (about_in chip.old) k (events_in chip.new k))
        (length crew.old) crew.old crew.new }
{
    for at in 0..crew.len() {
        bring(chip, at, &mut crew[at]);
    }
}

/// A round in threads: every rank is away while its worker takes turns, and at home again afterwards. It asks for
/// `threads` threads, one for each rank at the most, and tells how many the next round asks for.
pub(crate) fn round_in_threads<
    W: Worker + Send,
    G: Gate + Sync,
    R: Threads + Sync,
    M: Marks + Drop + Sync,
>(rt: &R, chip: &mut Chip, crew: &mut [Member<W>], gate: &G, threads: usize) -> usize
    requires crew { IsCrew (behaviour_of_members W.behaviour) chip.old crew.old }
    requires some { 0 < length crew.old }
    requires threads { 0 < threads }
    // Each worker took a row of turns.
    ensures took { TookSlices (behaviour_of_members W.behaviour) chip.old crew.old chip.new crew.new }
    // The thread of each row marked that it began, and each member passed the gate.
    ensures began { (k : ℕ) → k < length crew.old → BeganFor M.shown (div_ceil (length crew.old) threads) k }
    ensures passed { (k : ℕ) → k < length crew.old → G.passed gate.now k }
    // The next round asks for as many threads, unless some were missing.
    ensures asks { AsksNext M.shown (threads_of (length crew.old) threads) result }
    ensures next { 0 < result }
{
    let each = crew.len().div_ceil(threads);
    let roll: Roll<M> = Roll::new(rt, crew.len().div_ceil(each));
    hand_out(chip, crew);
    all_slices(rt, chip.words(), gate, &roll, crew, each);
    take_home(chip, crew);
    roll.next()
}
