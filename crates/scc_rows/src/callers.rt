//! Ranks that make whole calls on a chip with one seat, one call a turn.

ghost use Rattle.std.specs.Prelude.{◌≡◌, ℕ, true, [], IfOk};
ghost use Rattle.scc_base.specs.Setups.{SetupView};
ghost use Rattle.scc_proto.specs.Words.{are_peers};
ghost use Rattle.chip_teams.specs.Teams.{sight_alone};
ghost use Rattle.scc_rows.specs.Talkers.{IsTalking};

use crate::fixtures::pair_in;
use crate::messages::{bytes_from, head_of, post_head_of, team_of_two, zeros};
use chip_teams::{Player, Team};
use line_cache::Never;
use put_get::Core;
use scc_base::{Head, Layout, Rank, Spot, Turn};
use scc_proto::Port;
use send_recv::{RecvOp, RecvStop, SendOp, SendStop, Slot, recv, recv_test, send};
use std::alloc::Global;
use std::test::Fail;

/// How many failed polls in a row end a call.
pub(crate) const POLLS: u32 = 3;

/// A call of a rank.
#[derive(Clone, Copy)]
pub(crate) enum Deed {
    Send,
    Post,
    Receive,
    Test,
}

/// The result of a call.
#[derive(Drop, PartialEq)]
pub(crate) enum End {
    Done,
    NothingSent,
    Stalled { spot: Spot, polls: u32 },
    OtherHead { sent: Head, asked: Head },
}

/// A call that is not made yet, with its bytes.
#[derive(Drop)]
struct Call {
    deed: Deed,
    bytes: Vec<u8>,
}

/// A rank that has messages with one other. If a call gives up, the next turn continues it.
#[derive(Drop)]
pub(crate) struct Caller {
    core: Core<Never>,
    slot: Slot,
    peer: Rank,
    // The bytes of the last call.
    pub bytes: Vec<u8>,
    // The call that gave up, if one did.
    sending: Option<SendOp>,
    receiving: Option<RecvOp>,
    // The calls not made yet, the next one last.
    calls: Vec<Call>,
    // The result of the last call.
    pub end: Option<End>,
}

impl Caller {
    ghost use Rattle.std.specs.Prelude.{◌≡◌, ℕ, List, [], true, None};
    ghost use Rattle.scc_base.specs.Setups.{SetupView};
    ghost use Rattle.scc_base.specs.declared.events.Event.{Event};
    ghost use Rattle.scc_proto.specs.Words.{are_peers};
    ghost use Rattle.scc_proto.specs.Ports.{Did, record_in};
    ghost use Rattle.send_recv.specs.Receiving.{RecvStands};
    ghost use Rattle.send_recv.specs.Sending.{SendStands, SlotStands};
    ghost use Rattle.chip_teams.specs.Teams.{sight_alone};
    ghost use Rattle.scc_rows.specs.Talkers.{IsTalking};

    fn new(alloc: Global, peer: Rank, calls: Vec<Call>) -> Caller
        ensures ready { (s : SetupView) (r : ℕ) → are_peers s r peer ≡ true
            → IsTalking (sight_alone s r []) result.core result.slot result.peer result.bytes.items result.sending result.receiving }
    {
        Caller {
            core: Core::new(Never),
            slot: Slot::new(),
            peer,
            bytes: Vec::new(alloc),
            sending: None,
            receiving: None,
            calls,
            end: None,
        }
    }

    // Continues a send or a post.
    fn send_on<P: Port>(&mut self, port: &mut P, op: SendOp)
        requires peers { are_peers (P.sight port.old).seat.setup (P.sight port.old).seat.rank self.old.peer ≡ true }
        requires stands { SendStands (P.sight port.old) self.old.core op self.old.slot self.old.bytes.items }
        requires not_sending { self.old.sending ≡ None }
        requires not_receiving { self.old.receiving ≡ None }
        ensures talks { IsTalking (P.sight port.new) self.new.core self.new.slot self.new.peer self.new.bytes.items self.new.sending
            self.new.receiving }
        ensures did { (events : List Event) × Did (P.sight port.old) events (P.sight port.new) }
    {
        match send(&mut self.core, port, &mut self.slot, op, &self.bytes, POLLS) {
            Ok(()) => {
                self.end = Some(End::Done);
            }
            Err(SendStop::Stalled { op, spot, polls }) => {
                self.sending = Some(op);
                self.end = Some(End::Stalled { spot, polls });
            }
        }
    }

    // Continues a receive.
    fn receive_on<P: Port>(&mut self, port: &mut P, op: RecvOp)
        requires peers { are_peers (P.sight port.old).seat.setup (P.sight port.old).seat.rank self.old.peer ≡ true }
        requires stands { RecvStands (P.sight port.old) self.old.core op self.old.bytes.items }
        requires slot_stands { SlotStands (P.sight port.old).seat (record_in (P.sight port.old)) self.old.slot }
        requires not_sending { self.old.sending ≡ None }
        requires not_receiving { self.old.receiving ≡ None }
        ensures talks { IsTalking (P.sight port.new) self.new.core self.new.slot self.new.peer self.new.bytes.items self.new.sending
            self.new.receiving }
        ensures did { (events : List Event) × Did (P.sight port.old) events (P.sight port.new) }
    {
        match recv(&mut self.core, port, op, &mut self.bytes, POLLS) {
            Ok(()) => {
                self.end = Some(End::Done);
            }
            Err(stop) => match stop {
                RecvStop::Stalled { op, spot, polls } => {
                    self.receiving = Some(op);
                    self.end = Some(End::Stalled { spot, polls });
                }
                RecvStop::Mismatch { sent, asked } => {
                    self.end = Some(End::OtherHead { sent, asked });
                }
            },
        }
    }

    // A plain send from its start.
    fn send<P: Port>(&mut self, port: &mut P)
        requires talks { IsTalking (P.sight port.old) self.old.core self.old.slot self.old.peer self.old.bytes.items None None }
        requires not_sending { self.old.sending ≡ None }
        requires not_receiving { self.old.receiving ≡ None }
        ensures talks { IsTalking (P.sight port.new) self.new.core self.new.slot self.new.peer self.new.bytes.items self.new.sending
            self.new.receiving }
        ensures did { (events : List Event) × Did (P.sight port.old) events (P.sight port.new) }
    {
        if let Some(head) = head_of(&self.bytes) {
            self.send_on(port, SendOp::new(self.peer, head));
        }
    }

    // A post from its start.
    fn post<P: Port>(&mut self, port: &mut P)
        requires talks { IsTalking (P.sight port.old) self.old.core self.old.slot self.old.peer self.old.bytes.items None None }
        requires not_sending { self.old.sending ≡ None }
        requires not_receiving { self.old.receiving ≡ None }
        ensures talks { IsTalking (P.sight port.new) self.new.core self.new.slot self.new.peer self.new.bytes.items self.new.sending
            self.new.receiving }
        ensures did { (events : List Event) × Did (P.sight port.old) events (P.sight port.new) }
    {
        if let Some(head) = post_head_of(&self.bytes) {
            self.send_on(port, SendOp::post(self.peer, head));
        }
    }

    // A receive from its start.
    fn receive<P: Port>(&mut self, port: &mut P)
        requires talks { IsTalking (P.sight port.old) self.old.core self.old.slot self.old.peer self.old.bytes.items None None }
        requires not_sending { self.old.sending ≡ None }
        requires not_receiving { self.old.receiving ≡ None }
        ensures talks { IsTalking (P.sight port.new) self.new.core self.new.slot self.new.peer self.new.bytes.items self.new.sending
            self.new.receiving }
        ensures did { (events : List Event) × Did (P.sight port.old) events (P.sight port.new) }
    {
        if let Some(head) = head_of(&self.bytes) {
            self.receive_on(port, RecvOp::new(self.peer, head));
        }
    }

    // A test.
    fn test<P: Port>(&mut self, port: &mut P)
        requires talks { IsTalking (P.sight port.old) self.old.core self.old.slot self.old.peer self.old.bytes.items None None }
        requires not_sending { self.old.sending ≡ None }
        requires not_receiving { self.old.receiving ≡ None }
        ensures talks { IsTalking (P.sight port.new) self.new.core self.new.slot self.new.peer self.new.bytes.items self.new.sending
            self.new.receiving }
        ensures did { (events : List Event) × Did (P.sight port.old) events (P.sight port.new) }
    {
        let Some(head) = head_of(&self.bytes) else {
            return;
        };
        let op = RecvOp::new(self.peer, head);
        match recv_test(&mut self.core, port, op, &mut self.bytes, POLLS) {
            Ok(true) => {
                self.end = Some(End::Done);
            }
            Ok(false) => {
                self.end = Some(End::NothingSent);
            }
            Err(stop) => match stop {
                RecvStop::Stalled { op, spot, polls } => {
                    self.receiving = Some(op);
                    self.end = Some(End::Stalled { spot, polls });
                }
                RecvStop::Mismatch { sent, asked } => {
                    self.end = Some(End::OtherHead { sent, asked });
                }
            },
        }
    }
}

impl Player for Caller {
    ghost use Rattle.chip_teams.specs.Teams.{sight_alone};
    ghost use Rattle.scc_rows.specs.Talkers.{IsTalking};

    ghost stands = { λ m s r events. IsTalking (sight_alone s r events) m.core m.slot m.peer m.bytes.items m.sending m.receiving };

    fn turn<P: Port>(&mut self, port: &mut P) -> Turn {
        let sending = self.sending.take();
        let receiving = self.receiving.take();
        if let Some(op) = sending {
            self.send_on(port, op);
            return Turn::Moved;
        }
        if let Some(op) = receiving {
            self.receive_on(port, op);
            return Turn::Moved;
        }
        let Some(call) = self.calls.pop() else {
            return Turn::Done;
        };
        self.bytes = call.bytes;
        match call.deed {
            Deed::Send => {
                self.send(port);
                Turn::Moved
            }
            Deed::Post => {
                self.post(port);
                Turn::Moved
            }
            Deed::Receive => {
                self.receive(port);
                Turn::Moved
            }
            Deed::Test => {
                self.test(port);
                Turn::Moved
            }
        }
    }
}

// A call, with the length of its bytes.
fn call_of(alloc: Global, deed: Deed, len: usize) -> Result<Call, Fail> {
    let bytes = match deed {
        Deed::Send | Deed::Post => bytes_from(alloc, 1, len)?,
        Deed::Receive | Deed::Test => zeros(alloc, len)?,
    };
    Ok(Call { deed, bytes })
}

// These calls, in this order, each with the length of its bytes.
fn calls_of(alloc: Global, deeds: &[(Deed, usize)]) -> Result<Vec<Call>, Fail> {
    let mut calls = Vec::new(alloc);
    for k in 0..deeds.len() {
        let (deed, len) = deeds[deeds.len() - 1 - k];
        calls.push(call_of(alloc, deed, len)?)?;
    }
    Ok(calls)
}

// A rank that makes these calls with its peer.
fn rank_with_calls(alloc: Global, peer: Rank, deeds: &[(Deed, usize)]) -> Result<Caller, Fail>
    ensures ready { IfOk result (λ m. (s : SetupView) (r : ℕ) → are_peers s r peer ≡ true
        → IsTalking (sight_alone s r []) m.core m.slot m.peer m.bytes.items m.sending m.receiving) }
{
    let calls = calls_of(alloc, deeds)?;
    Ok(Caller::new(alloc, peer, calls))
}

/// A pair of ranks, on cores 0 and 1. Rank 0 makes the first calls and rank 1 the others.
pub(crate) fn calling(
    alloc: Global,
    layout: Layout,
    first: &[(Deed, usize)],
    second: &[(Deed, usize)],
) -> Result<Team<Caller>, Fail> {
    let first = rank_with_calls(alloc, Rank::of(1), first)?;
    let second = rank_with_calls(alloc, Rank::of(0), second)?;
    let chip = pair_in(alloc, layout)?;
    team_of_two(alloc, chip, first, second)
}
