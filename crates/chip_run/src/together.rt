//! The rows of several members in one thread, together: a stretch of each that is not over, one after the other, until all are.

ghost use Rattle.std.specs.Prelude.{◌≡◌, ℕ, Bool, true, false, ◌+◌, ◌<◌, ◌≤◌, ◌^◌, length, slice_index_or};
ghost use Rattle.chip_run.specs.Away.{IsAway, Served, Batches, TookSlice, slice_left, slices_left};
ghost use Rattle.chip_run.specs.Marks.{Yields, least_failed};

use crate::gates::Gate;
use crate::marks::Marks;
use crate::members::Member;
use crate::rolls::Roll;
use crate::slices::{MOST_FAILED, failed_after};
use crate::workers::Worker;
use scc_mesh::Words;

/// The row of a member begins.
fn begin<W: Worker, G: Gate>(words: Words<'_>, gate: &G, at: usize, member: &mut Member<W>)
    requires away { IsAway (W.behaviour.tied member.old.worker) words.space.now.about words.space.now.table at member.old.token }
    ensures begins { member.new ≡ record member.old { failed = 0 } }
    ensures passed { G.passed gate.now at }
{
    let Some(token) = &member.token else {
        unreachable!()
    };
    gate.pass(token.rank());
    member.failed = 0;
}

/// The next stretch of a member's row, where it is not over; tells whether there was one.
fn go_on<W: Worker>(words: Words<'_>, at: usize, member: &mut Member<W>) -> bool
    requires away { IsAway (W.behaviour.tied member.old.worker) words.space.now.about words.space.now.table at member.old.token }
    ensures away { IsAway (W.behaviour.tied member.new.worker) words.entry.space.now.about words.entry.space.now.table at member.new.token }
    ensures batches { Batches W.behaviour words.entry.space.now.about member.old.worker member.old.token member.old.failed
        member.new.worker member.new.token member.new.failed }
    ensures less { result ≡ true
        → slice_left 1000 (W.behaviour.seen words.entry.space.now.about at member.new.worker).left member.new.failed
        < slice_left 1000 (W.behaviour.seen words.entry.space.now.about at member.old.worker).left member.old.failed }
    ensures over { result ≡ false → (member.new ≡ member.old) × (1000 ≤ member.new.failed) }
{
    if member.failed >= MOST_FAILED {
        return false;
    }
    let Some(token) = member.token.take() else {
        unreachable!()
    };
    let (answer, port) = member.worker.batch(words.port(token));
    member.failed = failed_after(&answer, member.failed);
    member.token = Some(port.into_token());
    true
}

/// The fewest vain turns in a row of these members.
fn fewest_failed<W: Worker>(members: &[Member<W>]) -> usize
    ensures gives { result ≡ least_failed members.now }
{
    let mut least = MOST_FAILED;
    for at in 0..members.len() {
        least = least.min(members[at].failed);
    }
    least
}

/// The next stretch of each row that is not over; tells whether there was one.
fn pass<W: Worker, M: Marks>(
    words: Words<'_>,
    roll: &Roll<M>,
    start: usize,
    members: &mut [Member<W>],
) -> bool
    requires room { start + length members.old < 2 ^ 64 }
    requires away { (k : ℕ) (d : _) → k < length members.old
        → let m = slice_index_or members.old k d in IsAway (W.behaviour.tied m.worker) words.space.now.about words.space.now.table
        (start + k) m.token }
    ensures served { Served
        (λ k m n. IsAway (W.behaviour.tied n.worker) words.entry.space.now.about words.entry.space.now.table (start + k) n.token
        × Batches W.behaviour words.entry.space.now.about m.worker m.token m.failed n.worker n.token n.failed) (length members.old)
        members.old members.new }
    ensures less { result ≡ true
        → slices_left W.behaviour words.entry.space.now.about start members.new
        < slices_left W.behaviour words.entry.space.now.about start members.old }
    ensures over { result ≡ false → (k : ℕ) (d : _) → k < length members.new → 1000 ≤ (slice_index_or members.new k d).failed }
    ensures yielded_last { Yields M.shown roll.now.asked roll.now.spin_limit (least_failed members.new) }
{
    let mut goes = false;
    for at in 0..members.len() {
        goes |= go_on(words, start + at, &mut members[at]);
    }
    roll.yield_after(fewest_failed(members));
    goes
}

/// The rows of all these members begin.
fn begin_all<W: Worker, G: Gate>(
    words: Words<'_>,
    gate: &G,
    start: usize,
    members: &mut [Member<W>],
)
    requires room { start + length members.old < 2 ^ 64 }
    requires away { (k : ℕ) (d : _) → k < length members.old
        → let m = slice_index_or members.old k d in IsAway (W.behaviour.tied m.worker) words.space.now.about words.space.now.table
        (start + k) m.token }
    ensures served { Served (λ k m n. (n ≡ record m { failed = 0 }) × G.passed gate.now (start + k)) (length members.old) members.old
        members.new }
{
    for at in 0..members.len() {
        begin(words, gate, start + at, &mut members[at]);
    }
}

/// The rows of all these members.
pub(crate) fn slices_together<W: Worker, G: Gate, M: Marks>(
    words: Words<'_>,
    gate: &G,
    roll: &Roll<M>,
    start: usize,
    members: &mut [Member<W>],
)
    requires room { start + length members.old < 2 ^ 64 }
    requires away { (k : ℕ) (d : _) → k < length members.old
        → let m = slice_index_or members.old k d in IsAway (W.behaviour.tied m.worker) words.space.now.about words.space.now.table
        (start + k) m.token }
    ensures count { length members.new ≡ length members.old }
    ensures away { (k : ℕ) (d : _) → k < length members.old
        → let m = slice_index_or members.new k d in IsAway (W.behaviour.tied m.worker) words.entry.space.now.about
        words.entry.space.now.table (start + k) m.token }
    ensures slices { (k : ℕ) (d : _) → k < length members.old
        → TookSlice W.behaviour words.entry.space.now.about (start + k) (slice_index_or members.old k d).worker
        (slice_index_or members.new k d).worker }
    // Their thread marked that it began, and each passed the gate.
    ensures began { M.shown.began start }
    ensures passed { (k : ℕ) → k < length members.old → G.passed gate.now (start + k) }
{
    roll.begin(start);
    begin_all(words, gate, start, members);
    loop {
        if !pass(words, roll, start, members) {
            return;
        }
    }
}
