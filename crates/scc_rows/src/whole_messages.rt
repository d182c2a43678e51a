//! Receives, tests and posts as whole calls, by a rank of a chip with one seat.

ghost use Rattle.std.specs.Prelude.{◌≡◌, ◌≤◌, length, true, IfOk};
ghost use Rattle.scc_base.specs.Heads.{most_message, most_post};
ghost use Rattle.scc_proto.specs.Words.{are_peers};
ghost use Rattle.send_recv.specs.Calling.{IsBetweenMessages};

use crate::fixtures::{Meeting, shows_in_both};
use line_cache::{Evict, Never};
use put_get::Core;
use scc_base::{CoreId, Head, Layout, Place, PostHead, Rank, Signal, Spot};
use scc_ports::CountingPort;
use scc_proto::Port;
use send_recv::{RecvOp, RecvStop, SendOp, SendStop, Slot, recv, recv_test, send};
use std::test::Fail;

/// Receives a message of as many bytes as the buffer has from rank 0.
fn receive<P: Port, V: Evict>(
    core: &mut Core<V>,
    port: &mut P,
    slot: &Slot,
    bytes: &mut [u8],
    polls: u32,
) -> Result<(), RecvStop>
    requires free { IsBetweenMessages (P.sight port.old) core.old slot.now }
    requires peers { are_peers (P.sight port.old).seat.setup (P.sight port.old).seat.rank 0 ≡ true }
    requires short { length bytes.old ≤ most_message }
    requires some { 1 ≤ polls }
{
    let Some(head) = Head::plain(bytes.len() as u32) else {
        unreachable!()
    };
    recv(core, port, RecvOp::new(Rank::of(0), head), bytes, polls)
}

/// Receives such a message if one was sent.
fn receive_if_sent<P: Port, V: Evict>(
    core: &mut Core<V>,
    port: &mut P,
    slot: &Slot,
    bytes: &mut [u8],
    polls: u32,
) -> Result<bool, RecvStop>
    requires free { IsBetweenMessages (P.sight port.old) core.old slot.now }
    requires peers { are_peers (P.sight port.old).seat.setup (P.sight port.old).seat.rank 0 ≡ true }
    requires short { length bytes.old ≤ most_message }
    requires some { 1 ≤ polls }
{
    let Some(head) = Head::plain(bytes.len() as u32) else {
        unreachable!()
    };
    recv_test(core, port, RecvOp::new(Rank::of(0), head), bytes, polls)
}

/// Posts bytes to rank 1.
fn post<P: Port, V: Evict>(
    core: &mut Core<V>,
    port: &mut P,
    slot: &mut Slot,
    bytes: &[u8],
    polls: u32,
) -> Result<(), SendStop>
    requires free { IsBetweenMessages (P.sight port.old) core.old slot.old }
    requires peers { are_peers (P.sight port.old).seat.setup (P.sight port.old).seat.rank 1 ≡ true }
    requires short { length bytes.now ≤ most_post }
    requires some { 1 ≤ polls }
    ensures free { IfOk result (λ done. IsBetweenMessages (P.sight port.new) core.new slot.new) }
    ensures seat { IfOk result (λ done. (P.sight port.new).seat ≡ (P.sight port.old).seat) }
{
    let Some(head) = PostHead::plain(bytes.len() as u32) else {
        unreachable!()
    };
    send(
        core,
        port,
        slot,
        SendOp::post(Rank::of(1), head),
        bytes,
        polls,
    )
}

/// What a buffer holds before a receive.
const SEVENS: &[u8] = &[7, 7, 7, 7];

// Whether a buffer holds it still.
fn is_kept(bytes: &[u8]) -> bool {
    bytes == SEVENS
}

// Whether a receive stalled here, after `tries` failed polls.
fn is_stalled(answer: Result<(), RecvStop>, at: Spot, tries: u32) -> bool {
    match answer {
        Err(RecvStop::Stalled { op: _, spot, polls }) => spot == at && polls == tries,
        _ => false,
    }
}

// Whether a test found nothing.
fn is_nothing(answer: Result<bool, RecvStop>) -> bool {
    matches!(answer, Ok(false))
}

// The flag by which rank 0 announces a message to rank 1.
pub(crate) fn sent_spot() -> Spot {
    Spot::Flag {
        place: Place::new(CoreId::of(1), 1, 0),
        bit: 0,
    }
}

// The flag at which rank 0 waits for the answer of rank 1.
pub(crate) fn answer_spot(layout: Layout) -> Spot {
    let place = match layout {
        Layout::LineFlags => Place::new(CoreId::of(0), 50, 0),
        Layout::BitFlags => Place::new(CoreId::of(0), 1, 1),
    };
    Spot::Flag {
        place,
        bit: layout
            .signal(Signal::Ready, Rank::of(1))
            .bit_number()
            .unwrap_or(0),
    }
}

// Whether a post stalled at that flag, after `tries` failed polls.
fn is_unanswered(answer: Result<(), SendStop>, layout: Layout, tries: u32) -> bool {
    match answer {
        Err(SendStop::Stalled { op: _, spot, polls }) => {
            spot == answer_spot(layout) && polls == tries
        }
        Ok(()) => false,
    }
}

/// Rank 1 receives, and nothing was sent.
struct ReceiveOfNothing;

impl Meeting for ReceiveOfNothing {
    #[tactic(auto, using(crate::proofs::MessageLemmas::fresh_free, crate::proofs::MessageLemmas::second_peers))]
    fn holds<P: Port, Q: Port>(_first: &mut CountingPort<P>, second: &mut CountingPort<Q>) -> bool {
        let mut core = Core::new(Never);
        let slot = Slot::new();
        let mut got = [7; 4];
        let answer = receive(&mut core, second, &slot, &mut got, 3);
        is_stalled(answer, sent_spot(), 3) && second.loads() == 12 && is_kept(&got)
    }
}

#[test]
fn a_receive_of_nothing_stalls_after_its_polls(rt: HostRuntime) -> Result<(), Fail> {
    shows_in_both::<ReceiveOfNothing>(rt.alloc())
}

/// Rank 1 tests, and nothing was sent.
struct TestOfNothing;

impl Meeting for TestOfNothing {
    #[tactic(auto, using(crate::proofs::MessageLemmas::fresh_free, crate::proofs::MessageLemmas::second_peers))]
    fn holds<P: Port, Q: Port>(_first: &mut CountingPort<P>, second: &mut CountingPort<Q>) -> bool {
        let mut core = Core::new(Never);
        let slot = Slot::new();
        let mut got = [7; 4];
        let answer = receive_if_sent(&mut core, second, &slot, &mut got, 3);
        is_nothing(answer) && second.loads() == 4 && is_kept(&got)
    }
}

#[test]
fn a_test_of_nothing_makes_one_look(rt: HostRuntime) -> Result<(), Fail> {
    shows_in_both::<TestOfNothing>(rt.alloc())
}

/// Rank 0 posts twice, and nothing is received.
struct TwoPosts;

impl Meeting for TwoPosts {
    #[tactic(auto, using(crate::proofs::MessageLemmas::fresh_free, crate::proofs::MessageLemmas::first_peers, crate::proofs::MessageLemmas::still_peers))]
    fn holds<P: Port, Q: Port>(first: &mut CountingPort<P>, _second: &mut CountingPort<Q>) -> bool {
        let layout = first.setup().layout();
        let mut core = Core::new(Never);
        let mut slot = Slot::new();
        let Ok(()) = post(&mut core, first, &mut slot, &[1, 2], 2) else {
            return false;
        };
        let held = slot.holds() == Some(Rank::of(1));
        let answer = post(&mut core, first, &mut slot, &[3, 4], 2);
        held && is_unanswered(answer, layout, 2)
    }
}

#[test]
fn a_second_post_waits_for_the_first(rt: HostRuntime) -> Result<(), Fail> {
    shows_in_both::<TwoPosts>(rt.alloc())
}
