//! How far an audit has used up the lists of a log.

ghost use Rattle.std.specs.Prelude.{◌≡◌, ◌<◌, ◌↔◌, ℕ, IsTrue, None, Some, length, option_and_then, option_map, slice_get, slice_index, slice_index_or};
ghost use Rattle.scc_base.specs.Calls.{Bar, Recv};
ghost use Rattle.scc_base.specs.Setups.{setup_key};
ghost use Rattle.rcce_audit.specs.Logs.{calls_at_rank};
ghost use Rattle.rcce_audit.specs.Standings.{Advances, AreLists, Sleeps, calls_left, outgoing_of, partner_of, slot_of_lists};
ghost use Rattle.rcce_audit.specs.Views.{data_lists, data_of};

use crate::logs::LogCall;
use scc_base::{Head, Rank, Setup};

/// How far the lists are used up: the place of each rank's first call left, and the place of the post in its slot. A rank
/// that is not awake has no step.
#[derive(Drop)]
pub(crate) struct Progress {
    pub(crate) next: [usize; 48],
    pub(crate) posted: [Option<usize>; 48],
    pub(crate) awake: [bool; 48],
}

impl Progress {
    /// Nothing is used up, and no slot is full.
    pub(crate) fn new() -> Progress
        ensures next { (k : ℕ) → slice_index result.next k ≡ 0 }
        ensures posted { (k : ℕ) → slice_index_or result.posted k None ≡ None }
        ensures awake { (b : ℕ) → b < 48 → Sleeps result b → ⊥ }
    {
        Progress {
            next: [0; 48],
            posted: [None; 48],
            awake: [true; 48],
        }
    }
}

/// The call of a rank at a place of its list.
pub(crate) fn call_at(lists: &[Vec<LogCall>], rank: usize, i: usize) -> Option<&LogCall>
    requires { rank < length lists.now }
    ensures { option_map (λ call. data_of call.now) result ≡ slice_get (calls_at_rank (data_lists lists.now) rank) i }
{
    lists[rank].get(i)
}

/// The first call that is left to a rank.
pub(crate) fn first<'a>(
    lists: &'a [Vec<LogCall>],
    progress: &Progress,
    rank: usize,
) -> Option<&'a LogCall>
    requires ranks { length lists.now ≡ 48 }
    requires below { rank < 48 }
    ensures { option_map (λ call. data_of call.now) result
        ≡ slice_get (calls_at_rank (data_lists lists.now) rank) (slice_index progress.now.next rank) }
{
    call_at(lists, rank, progress.next[rank])
}

/// The post in a rank's slot.
pub(crate) fn posted<'a>(
    lists: &'a [Vec<LogCall>],
    progress: &Progress,
    rank: usize,
) -> Option<&'a LogCall>
    requires ranks { length lists.now ≡ 48 }
    requires below { rank < 48 }
    ensures { option_and_then (λ call. outgoing_of (data_of call.now)) result
        ≡ slot_of_lists (data_lists lists.now) progress.now.posted rank }
{
    match progress.posted[rank] {
        Some(i) => call_at(lists, rank, i),
        None => None,
    }
}

/// Whether a rank's slot is empty.
pub(crate) fn is_slot_empty(lists: &[Vec<LogCall>], progress: &Progress, rank: usize) -> bool
    requires ranks { length lists.now ≡ 48 }
    requires below { rank < 48 }
    ensures { IsTrue result ↔ (slot_of_lists (data_lists lists.now) progress.now.posted rank ≡ None) }
{
    !matches!(posted(lists, progress, rank), Some(LogCall::Post { .. }))
}

/// Whether two messages have the same head and the same bytes.
fn same_message(head: Head, bytes: &[u8], other: Head, others: &[u8]) -> bool
    ensures { IsTrue result ↔ ((head ≡ other) × (bytes.now ≡ others.now)) }
{
    head == other && bytes == others
}

/// Whether a rank's slot holds this message.
pub(crate) fn is_posted(
    lists: &[Vec<LogCall>],
    progress: &Progress,
    rank: usize,
    target: Rank,
    head: Head,
    bytes: &[u8],
) -> bool
    requires ranks { length lists.now ≡ 48 }
    requires below { rank < 48 }
    ensures { IsTrue result ↔ (slot_of_lists (data_lists lists.now) progress.now.posted rank
        ≡ Some (record { to = target; head = head; bytes = bytes.now })) }
{
    match posted(lists, progress, rank) {
        Some(
            LogCall::Post {
                to,
                head: sent,
                bytes: held,
            },
        ) => *to == target && same_message(sent.head(), held.as_slice(), head, bytes),
        Some(LogCall::Send { .. } | LogCall::Recv { .. } | LogCall::Bar { .. }) | None => false,
    }
}

/// Whether a rank's first call left receives this message from another one.
pub(crate) fn is_receiving(
    lists: &[Vec<LogCall>],
    progress: &Progress,
    rank: usize,
    sender: Rank,
    head: Head,
    bytes: &[u8],
) -> bool
    requires ranks { length lists.now ≡ 48 }
    requires below { rank < 48 }
    ensures { IsTrue result ↔ (slice_get (calls_at_rank (data_lists lists.now) rank) (slice_index progress.now.next rank)
        ≡ Some (Recv sender head bytes.now)) }
{
    match first(lists, progress, rank) {
        Some(
            LogCall::Recv {
                from,
                head: asked,
                bytes: held,
            },
        ) => *from == sender && same_message(*asked, held.as_slice(), head, bytes),
        Some(LogCall::Send { .. } | LogCall::Post { .. } | LogCall::Bar { .. }) | None => false,
    }
}

/// Whether a rank's first call left is a barrier of this communicator.
pub(crate) fn is_at_barrier(
    lists: &[Vec<LogCall>],
    progress: &Progress,
    rank: usize,
    comm: u8,
) -> bool
    requires ranks { length lists.now ≡ 48 }
    requires below { rank < 48 }
    ensures { IsTrue result ↔ (slice_get (calls_at_rank (data_lists lists.now) rank) (slice_index progress.now.next rank)
        ≡ Some (Bar comm)) }
{
    match first(lists, progress, rank) {
        Some(LogCall::Bar { comm: named }) => *named == comm,
        Some(LogCall::Send { .. } | LogCall::Recv { .. } | LogCall::Post { .. }) | None => false,
    }
}

/// The rank, besides this one, that this one's first call left may give a step.
fn partner(lists: &[Vec<LogCall>], setup: &Setup, progress: &Progress, rank: usize) -> usize
    requires lists { AreLists setup.now (data_lists lists.now) }
    requires below { rank < 48 }
    ensures gives { result ≡ partner_of (setup_key setup.now) rank (calls_left (data_lists lists.now) progress.now.next rank) }
    ensures within { result < 48 }
{
    match first(lists, progress, rank) {
        Some(LogCall::Send { .. }) => rank,
        Some(LogCall::Recv { from, .. }) => from.number() as usize,
        Some(LogCall::Post { .. }) => rank,
        Some(LogCall::Bar { comm }) => setup.root(*comm, Rank::of(rank as u8)).number() as usize,
        None => rank,
    }
}

/// Uses up a rank's first call left, and wakes the ranks to which its next one may give a step.
pub(crate) fn advance(lists: &[Vec<LogCall>], setup: &Setup, progress: &mut Progress, rank: usize)
    requires lists { AreLists setup.now (data_lists lists.now) }
    requires below { rank < 48 }
    requires left { slice_index progress.old.next rank < length (calls_at_rank (data_lists lists.now) rank) }
    ensures { Advances setup.now (data_lists lists.now) rank progress.old progress.new }
{
    progress.next[rank] += 1;
    progress.awake[rank] = true;
    let partner = partner(lists, setup, progress, rank);
    progress.awake[partner] = true;
}
