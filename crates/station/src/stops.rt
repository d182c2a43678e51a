//! Why a call of a station stopped. Each of these prints itself (`texts`).

ghost use Rattle.std.specs.Prelude.{◌≡◌};
ghost use Rattle.station.specs.declared.stops.Stop.TheVariants.{Send, Recv, Barrier, Collective, Group, Flag, Range, Malloc};

use crate::steps::GroupOp;
use barrier::BarOp;
use coll_more::MoreOp;
use mpb_alloc::MallocFault;
use put_get::RangeFault;
use scc_base::{Head, Spot, Stalled};
use send_recv::{RecvOp, SendOp};

/// A send or a post gave up: the last `polls` tries at this spot were vain. It can go on with the same bytes.
#[derive(Drop)]
pub struct SendStall {
    pub op: SendOp,
    pub spot: Spot,
    pub polls: u32,
}

/// A receive gave up: the last `polls` tries at this spot were vain. It can go on with the same buffer.
#[derive(Drop)]
pub struct RecvStall {
    pub op: RecvOp,
    pub spot: Spot,
    pub polls: u32,
}

/// Why a receive stopped.
#[derive(Drop)]
pub enum RecvStop {
    /// It gave up.
    Stalled(RecvStall),
    /// The message that was sent has another head. It stays untaken.
    Mismatch { sent: Head, asked: Head },
}

/// A barrier gave up: the last `polls` looks at this flag were vain. It can go on.
#[derive(Drop)]
pub struct BarStall {
    pub op: BarOp,
    pub spot: Spot,
    pub polls: u32,
}

/// A collective call gave up: the last `polls` tries at this spot were vain. It can go on with the same bytes.
#[derive(Drop)]
pub struct CollStall {
    pub op: MoreOp,
    pub spot: Spot,
    pub polls: u32,
}

/// Why a collective call stopped.
#[derive(Drop)]
pub enum CollStop {
    /// It gave up.
    Stalled(CollStall),
    /// A message was sent that is none of the call: it has this head. It stays untaken, and the rank's calls end here: unlike a
    /// receive, the rank stands in the call still (clause `open`), and nothing goes on with it.
    Mismatch { op: MoreOp, sent: Head },
}

/// A broadcast or a reduction gave up: the last `polls` tries at this spot were vain. It can go on with the same bytes.
#[derive(Drop)]
pub struct GroupStall {
    pub op: GroupOp,
    pub spot: Spot,
    pub polls: u32,
}

/// Why a broadcast or a reduction stopped.
#[derive(Drop)]
pub enum GroupStop {
    /// It gave up.
    Stalled(GroupStall),
    /// The message that was sent has another head. It stays untaken, and the rank is between two calls: it can take the message by
    /// a call of its head. `op` says which steps were done.
    Mismatch {
        op: GroupOp,
        sent: Head,
        asked: Head,
    },
}

/// Why a call of a station stopped, whichever call it was: for a caller's `?`.
#[derive(Drop)]
pub enum Stop {
    /// A send or a post.
    Send(SendStall),
    /// A receive.
    Recv(RecvStop),
    /// A barrier.
    Barrier(BarStall),
    /// A gather, a scatter, an allgather or an alltoall.
    Collective(CollStop),
    /// A broadcast or a reduction.
    Group(GroupStop),
    /// A flag's write, or a wait for a flag.
    Flag(Stalled),
    /// A put or a get.
    Range(RangeFault),
    /// A buffer or a flag that was asked for.
    Malloc(MallocFault),
}

impl From<SendStall> for Stop {
    ghost from_gives = { λ given stop. stop ≡ Send given };

    fn from(stall: SendStall) -> Stop {
        Stop::Send(stall)
    }
}

impl From<RecvStop> for Stop {
    ghost from_gives = { λ given stop. stop ≡ Recv given };

    fn from(stop: RecvStop) -> Stop {
        Stop::Recv(stop)
    }
}

impl From<BarStall> for Stop {
    ghost from_gives = { λ given stop. stop ≡ Barrier given };

    fn from(stall: BarStall) -> Stop {
        Stop::Barrier(stall)
    }
}

impl From<CollStop> for Stop {
    ghost from_gives = { λ given stop. stop ≡ Collective given };

    fn from(stop: CollStop) -> Stop {
        Stop::Collective(stop)
    }
}

impl From<GroupStop> for Stop {
    ghost from_gives = { λ given stop. stop ≡ Group given };

    fn from(stop: GroupStop) -> Stop {
        Stop::Group(stop)
    }
}

impl From<Stalled> for Stop {
    ghost from_gives = { λ given stop. stop ≡ Flag given };

    fn from(stalled: Stalled) -> Stop {
        Stop::Flag(stalled)
    }
}

impl From<RangeFault> for Stop {
    ghost from_gives = { λ given stop. stop ≡ Range given };

    fn from(fault: RangeFault) -> Stop {
        Stop::Range(fault)
    }
}

impl From<MallocFault> for Stop {
    ghost from_gives = { λ given stop. stop ≡ Malloc given };

    fn from(fault: MallocFault) -> Stop {
        Stop::Malloc(fault)
    }
}
