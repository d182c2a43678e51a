//! The steps of legality, each tried on the calls that are left.

ghost use Rattle.std.specs.Prelude.{◌≡◌, ◌≢◌, ◌<◌, ◌↔◌, ℕ, IsTrue, List, Some, length, slice_get, slice_index, true};
ghost use Rattle.scc_base.specs.Calls.{Bar, Post, Recv, Send};
ghost use Rattle.scc_base.specs.Communicators.{rule_of};
ghost use Rattle.scc_base.specs.declared.communicators.CommRule.TheVariants.{Absent};
ghost use Rattle.scc_base.specs.Setups.{setup_key};
ghost use Rattle.scc_base.specs.Heads.{MessageHead};
ghost use Rattle.scc_proto.specs.Legality.{Meeting, Pairing, Posting, Taking, in_group};
ghost use Rattle.rcce_audit.specs.Logs.{calls_at_rank};
ghost use Rattle.rcce_audit.specs.Standings.{AreLists, Meets, Tries, TriesFirst};
ghost use Rattle.rcce_audit.specs.Views.{data_lists};

use crate::logs::LogCall;
use crate::progress::{
    Progress, advance, first, is_at_barrier, is_posted, is_receiving, is_slot_empty,
};
use scc_base::{Head, Rank, Setup};

/// A rank puts its post into its slot, if the slot is empty.
fn try_post(
    lists: &[Vec<LogCall>],
    setup: &Setup,
    progress: &mut Progress,
    rank: Rank,
    to: Rank,
) -> bool
    requires lists { AreLists setup.now (data_lists lists.now) }
    requires left { slice_index progress.old.next rank < length (calls_at_rank (data_lists lists.now) rank) }
    ensures { (head : MessageHead) (bytes : List ℕ)
        → slice_get (calls_at_rank (data_lists lists.now) rank) (slice_index progress.old.next rank) ≡ Some (Post to head bytes)
        → Tries setup.now (data_lists lists.now) (Posting rank (record { to = to; head = head; bytes = bytes })) progress.old
        progress.new result }
{
    let place = rank.number() as usize;
    if !is_slot_empty(lists, progress, place) {
        return false;
    }
    progress.posted[place] = Some(progress.next[place]);
    progress.awake[to.number() as usize] = true;
    advance(lists, setup, progress, place);
    true
}

/// A rank takes the message that it receives out of the sender's slot, if the message is there.
fn try_take(
    lists: &[Vec<LogCall>],
    setup: &Setup,
    progress: &mut Progress,
    rank: Rank,
    from: Rank,
    head: Head,
    bytes: &[u8],
) -> bool
    requires lists { AreLists setup.now (data_lists lists.now) }
    requires front { slice_get (calls_at_rank (data_lists lists.now) rank) (slice_index progress.old.next rank)
        ≡ Some (Recv from head bytes.now) }
    ensures { Tries setup.now (data_lists lists.now) (Taking from (record { to = rank; head = head; bytes = bytes.now })) progress.old
        progress.new result }
{
    let sender = from.number() as usize;
    if !is_posted(lists, progress, sender, rank, head, bytes) {
        return false;
    }
    progress.posted[sender] = None;
    progress.awake[sender] = true;
    advance(lists, setup, progress, rank.number() as usize);
    true
}

/// A rank's send meets the receive of its target, if the rank's slot is empty.
fn try_pair(
    lists: &[Vec<LogCall>],
    setup: &Setup,
    progress: &mut Progress,
    rank: Rank,
    to: Rank,
    head: Head,
    bytes: &[u8],
) -> bool
    requires lists { AreLists setup.now (data_lists lists.now) }
    requires front { slice_get (calls_at_rank (data_lists lists.now) rank) (slice_index progress.old.next rank)
        ≡ Some (Send to head bytes.now) }
    ensures { Tries setup.now (data_lists lists.now) (Pairing rank (record { to = to; head = head; bytes = bytes.now })) progress.old
        progress.new result }
{
    let sender = rank.number() as usize;
    let receiver = to.number() as usize;
    if !is_slot_empty(lists, progress, sender) {
        return false;
    }
    if !is_receiving(lists, progress, receiver, rank, head, bytes) {
        return false;
    }
    advance(lists, setup, progress, sender);
    advance(lists, setup, progress, receiver);
    true
}

/// Whether a rank is in the group of another one.
fn is_in_group(setup: &Setup, comm: u8, rank: Rank, other: u8) -> bool
    requires comm_below { comm < 16 }
    requires present { rule_of setup.now.comms comm ≢ Absent }
    requires below { rank < setup.now.nue }
    ensures { result ≡ in_group setup.now.nue (setup_key setup.now) comm rank other }
{
    other < setup.nue() && setup.root(comm, Rank::of(other)) == setup.root(comm, rank)
}

/// Whether all members of a rank's group stand at the barrier of its communicator.
fn are_met(lists: &[Vec<LogCall>], setup: &Setup, progress: &Progress, rank: Rank, comm: u8) -> bool
    requires lists { AreLists setup.now (data_lists lists.now) }
    requires comm_below { comm < 16 }
    requires present { rule_of setup.now.comms comm ≢ Absent }
    requires below { rank < setup.now.nue }
    ensures { IsTrue result ↔ ((k : ℕ) → in_group setup.now.nue (setup_key setup.now) comm rank k ≡ true
        → slice_get (calls_at_rank (data_lists lists.now) k) (slice_index progress.now.next k) ≡ Some (Bar comm)) }
{
    for other in 0..48 {
        if is_in_group(setup, comm, rank, other)
            && !is_at_barrier(lists, progress, other as usize, comm)
        {
            return false;
        }
    }
    true
}

/// All members of a rank's group pass the barrier at which they stand.
fn meet(lists: &[Vec<LogCall>], setup: &Setup, progress: &mut Progress, rank: Rank, comm: u8)
    requires lists { AreLists setup.now (data_lists lists.now) }
    requires comm_below { comm < 16 }
    requires present { rule_of setup.now.comms comm ≢ Absent }
    requires below { rank < setup.now.nue }
    requires met { (k : ℕ) → in_group setup.now.nue (setup_key setup.now) comm rank k ≡ true
        → slice_get (calls_at_rank (data_lists lists.now) k) (slice_index progress.old.next k) ≡ Some (Bar comm) }
    ensures { Meets setup.now (data_lists lists.now) (in_group setup.now.nue (setup_key setup.now) comm rank) 48 progress.old progress.new }
{
    for other in 0..48 {
        if is_in_group(setup, comm, rank, other) {
            advance(lists, setup, progress, other as usize);
        }
    }
}

/// The members of a rank's group meet at a barrier, if the rank is their first one and all stand there.
fn try_meet(
    lists: &[Vec<LogCall>],
    setup: &Setup,
    progress: &mut Progress,
    rank: Rank,
    comm: u8,
) -> bool
    requires lists { AreLists setup.now (data_lists lists.now) }
    requires front { slice_get (calls_at_rank (data_lists lists.now) rank) (slice_index progress.old.next rank) ≡ Some (Bar comm) }
    ensures { Tries setup.now (data_lists lists.now) (Meeting comm rank) progress.old progress.new result }
{
    if setup.place(comm, rank) != 0 || !are_met(lists, setup, progress, rank, comm) {
        return false;
    }
    meet(lists, setup, progress, rank, comm);
    true
}

/// The step of a rank's first call left, if it can be made.
pub(crate) fn try_first(
    lists: &[Vec<LogCall>],
    setup: &Setup,
    progress: &mut Progress,
    rank: Rank,
) -> bool
    requires lists { AreLists setup.now (data_lists lists.now) }
    ensures { TriesFirst setup.now (data_lists lists.now) rank progress.old progress.new result }
{
    match first(lists, progress, rank.number() as usize) {
        Some(LogCall::Send { to, head, bytes }) => {
            try_pair(lists, setup, progress, rank, *to, *head, bytes.as_slice())
        }
        Some(LogCall::Recv { from, head, bytes }) => {
            try_take(lists, setup, progress, rank, *from, *head, bytes.as_slice())
        }
        Some(LogCall::Post { to, .. }) => try_post(lists, setup, progress, rank, *to),
        Some(LogCall::Bar { comm }) => try_meet(lists, setup, progress, rank, *comm),
        None => false,
    }
}
