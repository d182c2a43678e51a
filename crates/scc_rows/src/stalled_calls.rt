//! Rows of whole calls in turn: the result of each, and that a call that stalled goes on.

use crate::callers::{Caller, Deed, End, POLLS, calling};
use crate::fixtures::{LAYOUTS, as_named};
use crate::whole_messages::{answer_spot, sent_spot};
use chip_teams::Team;
use scc_base::{Head, Layout, Spot};
use std::alloc::Global;
use std::test::Fail;

/// The result that a call of a rank must have.
#[derive(Clone, Copy)]
enum Want {
    Done,
    // It is done, and the receiver's bytes are then those that were sent last.
    Arrives,
    NothingSent,
    // It stalls at the flag by which rank 0 announces a message.
    Unsent,
    // It stalls at the flag at which rank 0 waits for the answer.
    Unanswered,
    // It asked for 4 bytes and met a head of 8.
    EightForFour,
}

fn eight_for_four() -> Option<End> {
    Some(End::OtherHead {
        sent: Head::plain(8)?,
        asked: Head::plain(4)?,
    })
}

fn stalled_at(spot: Spot) -> Option<End> {
    Some(End::Stalled { spot, polls: POLLS })
}

fn end_of(want: Want, layout: Layout) -> Option<End> {
    match want {
        Want::Done | Want::Arrives => Some(End::Done),
        Want::NothingSent => Some(End::NothingSent),
        Want::Unsent => stalled_at(sent_spot()),
        Want::Unanswered => stalled_at(answer_spot(layout)),
        Want::EightForFour => eight_for_four(),
    }
}

// Whether the next call of a rank has this result.
fn comes_to(team: &mut Team<Caller>, at: usize, end: Option<End>) -> bool {
    let _ = team.turn(at);
    match team.player(at) {
        Some(caller) => end.is_some() && caller.end == end,
        None => false,
    }
}

// Whether the receiver's bytes are those that were sent last.
fn has_arrived(team: &Team<Caller>) -> bool {
    match (team.player(0), team.player(1)) {
        (Some(sender), Some(receiver)) => sender.bytes == receiver.bytes,
        _ => false,
    }
}

// Whether the next calls of these ranks have the wanted results, one after the other.
fn come_to(team: &mut Team<Caller>, layout: Layout, wants: &[(usize, Want)]) -> bool {
    for &(at, want) in wants {
        if !comes_to(team, at, end_of(want, layout)) {
            return false;
        }
        if matches!(want, Want::Arrives) && !has_arrived(team) {
            return false;
        }
    }
    true
}

// Shows that the calls of both ranks have the wanted results.
fn shows_calls(
    alloc: Global,
    layout: Layout,
    first: &[(Deed, usize)],
    second: &[(Deed, usize)],
    wants: &[(usize, Want)],
) -> Result<(), Fail> {
    let mut team = calling(alloc, layout, first, second)?;
    as_named(come_to(&mut team, layout, wants))
}

// The same in both layouts.
fn shows_calls_in_both(
    alloc: Global,
    first: &[(Deed, usize)],
    second: &[(Deed, usize)],
    wants: &[(usize, Want)],
) -> Result<(), Fail> {
    for layout in LAYOUTS {
        shows_calls(alloc, *layout, first, second, wants)?;
    }
    Ok(())
}

const SEND: &[(Deed, usize)] = &[(Deed::Send, 100)];

const POST: &[(Deed, usize)] = &[(Deed::Post, 100)];

const RECEIVE: &[(Deed, usize)] = &[(Deed::Receive, 100)];

const STALLED_RECEIVE: &[(usize, Want)] = &[(1, Want::Unsent), (0, Want::Done), (1, Want::Arrives)];

#[test]
fn a_receive_that_stalled_goes_on(rt: HostRuntime) -> Result<(), Fail> {
    shows_calls_in_both(rt.alloc(), POST, RECEIVE, STALLED_RECEIVE)
}

/// Calls that receive what was posted, each with a number of bytes.
const POSTED: &[(Deed, usize)] = &[
    (Deed::Receive, 0),
    (Deed::Receive, 1),
    (Deed::Receive, 3_584),
    (Deed::Test, 0),
    (Deed::Test, 1),
    (Deed::Test, 3_584),
];

const POST_ARRIVES: &[(usize, Want)] = &[(0, Want::Done), (1, Want::Arrives)];

// Shows that a message of `len` bytes that was posted arrives by this call.
fn shows_post(alloc: Global, deed: Deed, len: usize) -> Result<(), Fail> {
    shows_calls_in_both(alloc, &[(Deed::Post, len)], &[(deed, len)], POST_ARRIVES)
}

#[test]
fn a_posted_message_is_received_and_tested(rt: HostRuntime) -> Result<(), Fail> {
    for &(deed, len) in POSTED {
        shows_post(rt.alloc(), deed, len)?;
    }
    Ok(())
}

const POST_EIGHT: &[(Deed, usize)] = &[(Deed::Post, 8)];

const RECEIVES: &[(Deed, usize)] = &[(Deed::Receive, 4), (Deed::Receive, 8)];

const TESTS: &[(Deed, usize)] = &[(Deed::Test, 4), (Deed::Test, 8)];

/// A call of 4 bytes reports that 8 were posted, and a call of 8 bytes then receives them.
const TOLD: &[(usize, Want)] = &[(0, Want::Done), (1, Want::EightForFour), (1, Want::Arrives)];

#[test]
fn another_length_is_told_and_leaves_the_message(rt: HostRuntime) -> Result<(), Fail> {
    shows_calls_in_both(rt.alloc(), POST_EIGHT, RECEIVES, TOLD)?;
    shows_calls_in_both(rt.alloc(), POST_EIGHT, TESTS, TOLD)
}

/// A byte more than a line.
const POST_MORE: &[(Deed, usize)] = &[(Deed::Post, 33)];

const TEST_AND_RECEIVE: &[(Deed, usize)] = &[(Deed::Test, 33), (Deed::Receive, 33)];

const EARLY_TEST: &[(usize, Want)] = &[(1, Want::NothingSent), (0, Want::Done), (1, Want::Arrives)];

#[test]
fn a_test_of_nothing_leaves_a_later_receive(rt: HostRuntime) -> Result<(), Fail> {
    shows_calls_in_both(rt.alloc(), POST_MORE, TEST_AND_RECEIVE, EARLY_TEST)
}

const TWO_POSTS: &[(Deed, usize)] = &[(Deed::Post, 40), (Deed::Post, 40)];

const TWO_RECEIVES: &[(Deed, usize)] = &[(Deed::Receive, 40), (Deed::Receive, 40)];

const STALLED_POST: &[(usize, Want)] = &[
    (0, Want::Done),
    (0, Want::Unanswered),
    (1, Want::Arrives),
    (0, Want::Arrives),
    (1, Want::Arrives),
];

#[test]
fn a_post_that_stalled_goes_on(rt: HostRuntime) -> Result<(), Fail> {
    shows_calls_in_both(rt.alloc(), TWO_POSTS, TWO_RECEIVES, STALLED_POST)
}

const STALLED_SEND: &[(usize, Want)] = &[
    (0, Want::Unanswered),
    (0, Want::Unanswered),
    (1, Want::Done),
    (0, Want::Arrives),
];

#[test]
fn a_send_that_stalled_goes_on(rt: HostRuntime) -> Result<(), Fail> {
    shows_calls_in_both(rt.alloc(), SEND, RECEIVE, STALLED_SEND)
}

/// A byte more than a chunk.
const TWO_CHUNKS: &[(Layout, usize)] = &[(Layout::LineFlags, 3_585), (Layout::BitFlags, 6_625)];

const TWICE_STALLED_SEND: &[(usize, Want)] = &[
    (0, Want::Unanswered),
    (1, Want::Unsent),
    (0, Want::Unanswered),
    (1, Want::Done),
    (0, Want::Arrives),
];

// Shows that a send of `len` bytes, which are two chunks, stalls at each.
fn shows_two_chunks(alloc: Global, layout: Layout, len: usize) -> Result<(), Fail> {
    let (send, receive) = (&[(Deed::Send, len)], &[(Deed::Receive, len)]);
    shows_calls(alloc, layout, send, receive, TWICE_STALLED_SEND)
}

#[test]
fn a_send_of_two_chunks_stalls_at_each(rt: HostRuntime) -> Result<(), Fail> {
    for &(layout, len) in TWO_CHUNKS {
        shows_two_chunks(rt.alloc(), layout, len)?;
    }
    Ok(())
}
