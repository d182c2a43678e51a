//! What each of a station's stops prints, against texts that are written out.

use barrier::BarOp;
use coll_more::{More, MoreOp};
use groups::Coll;
use mpb_alloc::MallocFault;
use put_get::RangeFault;
use scc_base::{CoreId, Head, Kind, Place, Rank, Spot, Stalled};
use send_recv::{RecvOp, SendOp};
use station::{
    BarStall, CollStall, CollStop, GroupOp, GroupStall, GroupStop, Hand, RecvStall, RecvStop,
    SendStall, Stop,
};
use std::alloc::Global;
use std::test::Fail;

/// Shows that a stop has this text.
fn prints(alloc: Global, stop: &Stop, text: &str) -> Result<(), Fail> {
    let shown = stop.to_string(alloc)?;
    if shown.as_str() == text {
        return Ok(());
    }
    Err(shown.into())
}

/// A flag whose four numbers differ.
fn flag() -> Spot {
    let place = Place::new(CoreId::of(7), 50, 3);
    Spot::Flag { place, bit: 13 }
}

/// A core's register.
fn register() -> Spot {
    let core = CoreId::of(47);
    Spot::Register { core }
}

/// The heads of two messages: what was sent, and what was asked.
fn heads() -> Result<(Head, Head), Fail> {
    let sent = Head::new(Kind::AllDown, 15, 65_536).ok_or("a head")?;
    let asked = Head::plain(4).ok_or("a plain head")?;
    Ok((sent, asked))
}

/// A broadcast that has come to no step.
fn broadcast() -> GroupOp {
    GroupOp {
        coll: Coll::Bcast {
            comm: 0,
            root: 1,
            len: 5,
        },
        folding: None,
        at: 0,
        hand: Hand::Between,
    }
}

#[test]
fn messages_and_barriers_that_give_up_say_how_often_they_tried_and_where(
    rt: HostRuntime,
) -> Result<(), Fail> {
    let alloc = rt.alloc();
    let (_, head) = heads()?;
    let send = SendStall {
        op: SendOp::new(Rank::of(1), head),
        spot: flag(),
        polls: 1_000_000,
    };
    prints(
        alloc,
        &Stop::from(send),
        "a send stalled after 1000000 tries at the flag of core 7, line 50, word 3, bit 13",
    )?;
    let receive = RecvStall {
        op: RecvOp::new(Rank::of(1), head),
        spot: register(),
        polls: 4_294_967_295,
    };
    prints(
        alloc,
        &Stop::from(RecvStop::Stalled(receive)),
        "a receive stalled after 4294967295 tries at the register of core 47",
    )?;
    let barrier = BarStall {
        op: BarOp::new(3),
        spot: flag(),
        polls: 2,
    };
    prints(
        alloc,
        &Stop::from(barrier),
        "a barrier stalled after 2 tries at the flag of core 7, line 50, word 3, bit 13",
    )?;
    let flag = Stalled {
        spot: flag(),
        polls: 1,
    };
    prints(
        alloc,
        &Stop::from(flag),
        "a flag stalled after 1 tries at the flag of core 7, line 50, word 3, bit 13",
    )
}

#[test]
fn collective_calls_that_give_up_say_how_often_they_tried_and_where(
    rt: HostRuntime,
) -> Result<(), Fail> {
    let alloc = rt.alloc();
    let pieces = CollStall {
        op: MoreOp::new(More::Alltoall, 32),
        spot: flag(),
        polls: 5,
    };
    prints(
        alloc,
        &Stop::from(CollStop::Stalled(pieces)),
        "a collective call stalled after 5 tries at the flag of core 7, line 50, word 3, bit 13",
    )?;
    let group = GroupStall {
        op: broadcast(),
        spot: register(),
        polls: 6,
    };
    prints(
        alloc,
        &Stop::from(GroupStop::Stalled(group)),
        "a collective call stalled after 6 tries at the register of core 47",
    )
}

#[test]
fn calls_that_meet_another_message_say_its_head(rt: HostRuntime) -> Result<(), Fail> {
    let alloc = rt.alloc();
    let (sent, asked) = heads()?;
    let receive = RecvStop::Mismatch { sent, asked };
    prints(
        alloc,
        &Stop::from(receive),
        "a receive met another message: sent alldown 15 65536, asked plain 0 4",
    )?;
    let pieces = CollStop::Mismatch {
        op: MoreOp::new(More::Gather, 32),
        sent,
    };
    prints(
        alloc,
        &Stop::from(pieces),
        "a collective call met another message: sent alldown 15 65536",
    )?;
    let group = GroupStop::Mismatch {
        op: broadcast(),
        sent: asked,
        asked: sent,
    };
    prints(
        alloc,
        &Stop::from(group),
        "a collective call met another message: sent plain 0 4, asked alldown 15 65536",
    )
}

#[test]
fn calls_that_ask_too_much_say_what_there_is(rt: HostRuntime) -> Result<(), Fail> {
    let alloc = rt.alloc();
    let range = RangeFault { asked: 5, len: 4 };
    prints(
        alloc,
        &Stop::from(range),
        "a put or a get asked 5 lines of a buffer of 4",
    )?;
    prints(
        alloc,
        &Stop::from(MallocFault::Empty),
        "a malloc asked nothing",
    )?;
    let full = MallocFault::Full {
        asked: 32,
        longest: 31,
    };
    prints(
        alloc,
        &Stop::from(full),
        "a malloc asked 32 lines, longest run 31",
    )
}
