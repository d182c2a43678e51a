//! Rows of messages whose calls wait: a receive before its message, one of another length, and a second post.

use crate::fixtures::{LAYOUTS, as_named};
use crate::messages::{Deed, IN_TURN, Talker, arrive_by, shows_exchange, talking};
use crate::steps::{Answer, Step};
use chip_teams::Team;
use line_cache::Never;
use scc_base::{Head, Layout};
use std::alloc::Global;
use std::test::Fail;

const SEND: &[(Deed, usize)] = &[(Deed::Send, 100)];

const RECEIVE: &[(Deed, usize)] = &[(Deed::Receive, 100)];

/// A receive waits until the sender has taken its turns. After the message is sent, the sender waits in its turn, and the receive
/// continues.
const RECEIVE_WAITS: &[Step] = &[
    Step::Rounds(&[1], 20, false),
    Step::Turn(1, Answer::Waits),
    Step::Rounds(&[0], 20, false),
    Step::Turn(0, Answer::Waits),
    Step::Turn(1, Answer::Moves),
    Step::Rounds(&[1, 0], 20, true),
];

fn shows_receive(alloc: Global, layout: Layout) -> Result<(), Fail> {
    shows_exchange::<Never>(alloc, layout, SEND, RECEIVE, RECEIVE_WAITS, 1)
}

const SEND_FORTY: &[(Deed, usize)] = &[(Deed::Send, 40)];

const RECEIVE_MORE: &[(Deed, usize)] = &[(Deed::Receive, 41), (Deed::Receive, 40)];

// Whether a receive of rank 1 asked for 41 bytes and met a head of 40.
fn met_forty(team: &Team<Talker<Never>>) -> bool {
    match team.player(1) {
        Some(receiver) => receiver.met == Head::plain(40) && receiver.asked == 41,
        None => false,
    }
}

// Shows that a receive of another length meets the head that was sent, and leaves the message to the next receive.
fn shows_other_length(alloc: Global, layout: Layout) -> Result<(), Fail> {
    let mut team = talking::<Never>(alloc, layout, SEND_FORTY, RECEIVE_MORE)?;
    as_named(arrive_by(&mut team, IN_TURN, 1) && met_forty(&team))
}

const LONG_AND_SHORT: &[(Deed, usize)] = &[(Deed::Post, 3_584), (Deed::Post, 7)];

const THEIR_RECEIVES: &[(Deed, usize)] = &[(Deed::Receive, 3_584), (Deed::Receive, 7)];

/// A second post waits. The first is received while the sender does nothing, and the second has not arrived.
const SECOND_POST_WAITS: &[Step] = &[
    Step::Rounds(&[0], 300, false),
    Step::Turn(0, Answer::Waits),
    Step::Rounds(&[1], 300, false),
];

// Whether a second post waits until the first is taken.
fn second_post_waits(team: &mut Team<Talker<Never>>) -> bool {
    arrive_by(team, SECOND_POST_WAITS, 1) && arrive_by(team, IN_TURN, 2)
}

fn shows_second_post(alloc: Global, layout: Layout) -> Result<(), Fail> {
    let mut team = talking::<Never>(alloc, layout, LONG_AND_SHORT, THEIR_RECEIVES)?;
    as_named(second_post_waits(&mut team))
}

#[test]
fn a_call_that_waits_goes_on(rt: HostRuntime) -> Result<(), Fail> {
    for layout in LAYOUTS {
        shows_receive(rt.alloc(), *layout)?;
        shows_other_length(rt.alloc(), *layout)?;
        shows_second_post(rt.alloc(), *layout)?;
    }
    Ok(())
}
