//! The step that a rank owns, by the calls at which the ranks stand.

ghost use Rattle.std.specs.Prelude.{◌≡◌, ◌<◌, None, length, slice_index_or};
ghost use Rattle.scc_base.specs.Setups.{setup_key};
ghost use Rattle.script_plain.specs.Code.{IsSetupOfUes, barrier_decision, call_of_rank, call_decision, decision, fetch_decision, match_decision, post_decision, receive_decision};

use crate::barriers::{all_at_barrier, root_of};
use crate::posts::Left;
use crate::steps::Step;
use crate::ues::Ue;
use scc_base::{Call, Head, Rank, Setup};

/// The step that a rank owns.
pub(crate) fn decide(setup: &Setup, ues: &[Ue], slots: &[Option<Left>], rank: Rank) -> Step
    requires rank { rank < setup.now.nue }
    requires run { IsSetupOfUes setup.now ues.now slots.now }
    ensures { result ≡ decision (setup_key setup.now) ues.now slots.now rank }
{
    let i = rank.number() as usize;
    let ue = &ues[i];
    if ue.is_going() {
        return Step::Goes;
    }
    decide_at(setup, ues, slots, rank, &ue.call())
}

/// The step of a rank that stands at this call, or at none.
fn decide_at(
    setup: &Setup,
    ues: &[Ue],
    slots: &[Option<Left>],
    rank: Rank,
    call: &Option<Call>,
) -> Step
    requires rank { rank < setup.now.nue }
    requires run { IsSetupOfUes setup.now ues.now slots.now }
    ensures { result ≡ call_decision (setup_key setup.now) ues.now slots.now rank call.now }
{
    match call {
        None => Step::Stays,
        Some(Call::Post { .. }) => post_of(slots, rank),
        Some(Call::Send { to, head }) => match_of(ues, slots, rank, *to, *head),
        Some(Call::Recv { from, head }) => receive_of(ues, slots, rank, *from, *head),
        Some(Call::Bar { comm }) => barrier_of(setup, ues, rank, *comm),
    }
}

/// The step of a rank that stands at a post.
fn post_of(slots: &[Option<Left>], rank: Rank) -> Step
    ensures { result ≡ post_decision (slice_index_or slots.now rank None) }
{
    match slots.get(rank.number() as usize) {
        Some(Some(_)) => Step::Stays,
        Some(None) | None => Step::Posts,
    }
}

/// The step of a rank that stands at a send of this head.
fn match_of(ues: &[Ue], slots: &[Option<Left>], rank: Rank, to: Rank, head: Head) -> Step
    ensures { result ≡ match_decision rank to head (slice_index_or slots.now rank None) (call_of_rank ues.now to) }
{
    if let Some(Some(_)) = slots.get(rank.number() as usize) {
        return Step::Stays;
    }
    match &call_at(ues, to) {
        Some(Call::Recv { from, head: asked }) if *from == rank && head == *asked => {
            Step::Matches { to }
        }
        Some(Call::Recv { .. } | Call::Post { .. } | Call::Send { .. } | Call::Bar { .. }) | None =>
            Step::Stays,
    }
}

/// The step of a rank that stands at a receive of this head.
fn receive_of(ues: &[Ue], slots: &[Option<Left>], rank: Rank, from: Rank, asked: Head) -> Step
    ensures { result ≡ receive_decision rank from asked (slice_index_or slots.now from None) (call_of_rank ues.now from) }
{
    match slots.get(from.number() as usize) {
        Some(Some(message)) => fetch_of(message.to(), message.head(), rank, from, asked),
        Some(None) | None => mismatch_of(ues, rank, from, asked),
    }
}

/// The step of a rank that stands at a receive of this head from a rank that left a message with this other head
/// behind, for the rank `to`.
fn fetch_of(to: Rank, sent: Head, rank: Rank, from: Rank, asked: Head) -> Step
    ensures { result ≡ fetch_decision rank from asked to sent }
{
    if to != rank {
        return Step::Stays;
    }
    if sent == asked {
        Step::Takes { from }
    } else {
        Step::Mismatches { sent }
    }
}

/// The step of a rank that stands at a receive of this head from a rank that left no message behind.
fn mismatch_of(ues: &[Ue], rank: Rank, from: Rank, asked: Head) -> Step
    ensures { result ≡ receive_decision rank from asked None (call_of_rank ues.now from) }
{
    match &call_at(ues, from) {
        Some(Call::Send { to, head: sent }) if *to == rank && *sent != asked => {
            Step::Mismatches { sent: *sent }
        }
        Some(Call::Send { .. } | Call::Post { .. } | Call::Recv { .. } | Call::Bar { .. }) | None =>
            Step::Stays,
    }
}

/// The step of a rank that stands at a barrier of this communicator.
fn barrier_of(setup: &Setup, ues: &[Ue], rank: Rank, comm: u8) -> Step
    requires rank { rank < setup.now.nue }
    requires ranks { length ues.now ≡ setup.now.nue }
    requires sixteen { length setup.now.comms ≡ 16 }
    ensures { result ≡ barrier_decision (setup_key setup.now) ues.now rank comm }
{
    if root_of(setup, comm, rank) == rank && all_at_barrier(setup, ues, comm, rank) {
        Step::Passes { comm }
    } else {
        Step::Stays
    }
}

/// The call at which a rank stands.
pub(crate) fn call_at(ues: &[Ue], rank: Rank) -> Option<Call>
    ensures { result ≡ call_of_rank ues.now rank }
{
    ues.get(rank.number() as usize)?.call()
}
