//! The audit of a log.

ghost use Rattle.std.specs.Prelude.{◌≡◌, ◌<◌, ◌↔◌, ℕ, length};
ghost use Rattle.rcce_audit.specs.Logs.{calls_at_rank};
ghost use Rattle.rcce_audit.specs.Standings.{AreLists, IsQuiet, Leads, Sleeps, SweepDoes, VisitDoes, standing_of};
ghost use Rattle.rcce_audit.specs.Verdicts.{IsLegalLog, IsVerdict, VerdictTells};
ghost use Rattle.rcce_audit.specs.Views.{data_lists};

use crate::logs::{Log, LogCall};
use crate::progress::{Progress, first};
use crate::steps::try_first;
use crate::verdicts::Verdict;
use scc_base::{Rank, Setup};

/// Looks at a rank that is awake: it makes a step, or falls asleep.
fn visit(lists: &[Vec<LogCall>], setup: &Setup, progress: &mut Progress, rank: Rank) -> bool
    requires lists { AreLists setup.now (data_lists lists.now) }
    requires quiet { IsQuiet setup.now (data_lists lists.now) progress.old }
    ensures quiet { IsQuiet setup.now (data_lists lists.now) progress.new }
    ensures visits { VisitDoes setup.now (data_lists lists.now) rank progress.old progress.new result }
{
    let place = rank.number() as usize;
    if !progress.awake[place] {
        return false;
    }
    let stepped = try_first(lists, setup, progress, rank);
    if !stepped {
        progress.awake[place] = false;
    }
    stepped
}

/// Looks once at each rank that is awake, and answers whether some step was made.
fn sweep(lists: &[Vec<LogCall>], setup: &Setup, progress: &mut Progress) -> bool
    requires lists { AreLists setup.now (data_lists lists.now) }
    requires quiet { IsQuiet setup.now (data_lists lists.now) progress.old }
    ensures quiet { IsQuiet setup.now (data_lists lists.now) progress.new }
    ensures leads { Leads setup.now (standing_of (data_lists lists.now) progress.old) (standing_of (data_lists lists.now) progress.new) }
    ensures sweeps { SweepDoes (data_lists lists.now) progress.old progress.new result }
{
    let mut moved = false;
    for number in 0..48 {
        if visit(lists, setup, progress, Rank::of(number)) {
            moved = true;
        }
    }
    moved
}

/// Uses up the lists until nobody has a step.
fn use_up(lists: &[Vec<LogCall>], setup: &Setup, progress: &mut Progress)
    requires lists { AreLists setup.now (data_lists lists.now) }
    requires quiet { IsQuiet setup.now (data_lists lists.now) progress.old }
    ensures quiet { IsQuiet setup.now (data_lists lists.now) progress.new }
    ensures leads { Leads setup.now (standing_of (data_lists lists.now) progress.old) (standing_of (data_lists lists.now) progress.new) }
    ensures sleeps { (b : ℕ) → b < 48 → Sleeps progress.new b }
{
    let mut moved = true;
    while moved {
        moved = sweep(lists, setup, progress);
    }
}

/// What is left, as a verdict.
fn verdict_of(lists: &[Vec<LogCall>], progress: &Progress) -> Verdict
    requires ranks { length lists.now ≡ 48 }
    requires few { (r : ℕ) → length (calls_at_rank (data_lists lists.now) r) < 4294967295 }
    ensures { VerdictTells (calls_at_rank (data_lists lists.now)) result (standing_of (data_lists lists.now) progress.now) }
{
    for number in 0..48 {
        let place = number as usize;
        if first(lists, progress, place).is_some() {
            return Verdict::No {
                rank: Rank::of(number),
                call: progress.next[place] as u32 + 1,
            };
        }
    }
    Verdict::Yes
}

/// Whether the calls of a log are legal. It takes no memory.
///
/// Sweeps go over the ranks, and a rank makes its step if it has one. Who has none sleeps until a step is made that may
/// give it one: a step of its own, of a caller whose next call belongs to it, or one at its slot or with a message for it.
/// So a call wakes at most four ranks, a look at a rank costs at most one comparison of a message or one walk over the
/// ranks of a group, and a sweep without a step is the last one: the time is linear in the log, with a factor for ranks.
pub fn audit(log: &Log) -> Verdict
    ensures legal { (result ≡ Verdict.Yes) ↔ IsLegalLog log.now }
    ensures verdict { IsVerdict log.now result }
{
    let setup = log.setup();
    let lists = log.lists();
    let mut progress = Progress::new();
    use_up(lists, &setup, &mut progress);
    verdict_of(lists, &progress)
}
