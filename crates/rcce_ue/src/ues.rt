//! A unit of execution: one script on one core.

ghost use Rattle.std.specs.Prelude.{◌≡◌};
ghost use Rattle.script_machine.specs.Local.{local_next};
ghost use Rattle.rcce_ue.specs.Ues.{post_left};

use crate::calls::{Open, begin};
use crate::receiving::front_of;
use barrier::Parity;
use line_cache::Evict;
use put_get::Core;
use scc_base::{Call, Head, Rank, Setup, Turn};
use scc_proto::Port;
use script_machine::{InFlight, Machine, PrintedItem, UeEnd};
use script_rules::Scripts;
use send_recv::{RecvTurn, Slot};
use std::alloc::{AllocError, Global};
use std::marker::Model;

/// A unit of execution (RCCE specification 2.0: UE), which runs the script of one rank on one core.
#[derive(Drop)]
pub struct Ue<'s, V: Evict> {
    pub(crate) machine: Machine<'s>,
    pub(crate) core: Core<V>,
    pub(crate) slot: Slot,
    parity: Parity,
    pub(crate) op: Open,
    /// The bytes that a receive has so far stand in front.
    pub(crate) inbox: Vec<u8>,
    posted: Option<InFlight>,
    sent: u64,
    sent_bytes: u64,
}

impl<'s, V: Evict> Model for Ue<'s, V> {
    ghost use Rattle.rcce_ue.specs.Ues.{UeView};

    ghost Value = { UeView };

    ghost view = { λ a. record {
      machine = a.machine;
      core = a.core;
      slot = a.slot;
      parity = a.parity;
      op = a.op;
      inbox = a.inbox.items;
      posted = a.posted;
      sent = a.sent;
      sent_bytes = a.sent_bytes;
    } };
}

// The message that the call leaves behind, where it is a post of this line, and the earlier one where it is none.
fn post_left(call: &Option<Call>, line: u32, earlier: Option<InFlight>) -> Option<InFlight>
    ensures { result ≡ post_left call.now line earlier }
{
    match call {
        Some(Call::Post { to, head }) => Some(InFlight {
            line,
            to: *to,
            head: *head,
        }),
        Some(Call::Send { .. } | Call::Recv { .. } | Call::Bar { .. }) | None => earlier,
    }
}

impl<'s, V: Evict> Ue<'s, V> {
    ghost use Rattle.std.specs.Prelude.{◌≡◌, ◌≤◌, length, IsTrue, Some};
    ghost use Rattle.scc_base.specs.declared.events.Spot.{Spot};
    ghost use Rattle.put_get.specs.Cores.{MadeSteps};
    ghost use Rattle.sync_flags.specs.Turns.{waits_at};
    ghost use Rattle.script_machine.specs.Moves.{is_passable, is_receiving, length_asked};
    ghost use Rattle.rcce_ue.specs.Passing.{ue_after_call, ue_after_receive, ue_past_call, ue_past_mismatch, ue_past_receive, told_by_call, told_by_receive, with_message_sent};
    ghost use Rattle.rcce_ue.specs.Standing.{Tied};
    ghost use Rattle.rcce_ue.specs.Turns.{UeTurned};
    ghost use Rattle.rcce_ue.specs.Ues.{at_next_call};
    ghost use Rattle.rcce_ue.specs.declared.calls.Open.TheVariants.{Nothing};

    // Comes to what stands next: the op of the next call is made.
    fn enter(&mut self)
        ensures { self.new ≡ at_next_call self.old }
    {
        self.op = begin(&self.machine.call());
    }

    // Counts the message that has been sent, where a send or a post is open, and keeps a post.
    fn count_message(&mut self)
        ensures { self.new ≡ with_message_sent self.old.op self.old }
    {
        match self.op {
            Open::Sending(_) => {
                self.posted = post_left(&self.machine.call(), self.machine.line(), self.posted);
                self.sent = self.sent.saturating_add(1);
                self.sent_bytes = self
                    .sent_bytes
                    .saturating_add(self.machine.bytes().len() as u64);
            }
            Open::Nothing | Open::Receiving(_) | Open::Meeting(_) => {}
        }
    }

    // Goes past the send, the post or the barrier that has ended.
    #[inline(always)]
    fn pass_call(&mut self)
        requires { IsTrue (is_passable (local_next self.old.machine.local)) }
        ensures { self.new ≡ ue_past_call self.old }
    {
        self.count_message();
        self.machine.pass();
        self.enter();
    }

    // Takes the message that has come.
    fn receive(&mut self)
        requires at_receive { IsTrue (is_receiving (local_next self.old.machine.local)) }
        requires room { length_asked (local_next self.old.machine.local) ≤ length self.old.inbox }
        ensures { self.new ≡ ue_past_receive self.old }
    {
        let len = self.machine.asked();
        self.machine.receive(front_of(self.inbox.as_slice(), len));
        self.enter();
    }

    // Stops at the receive: a message with another head has come.
    fn refuse(&mut self, sent: Head)
        requires { IsTrue (is_receiving (local_next self.old.machine.local)) }
        ensures { self.new ≡ ue_past_mismatch sent self.old }
    {
        self.machine.refuse(sent);
        self.enter();
    }

    // What a turn of a send, a post or a barrier comes to: where that has ended, the UE goes past it.
    #[inline(always)]
    fn settle_call(&mut self, answer: Turn) -> Turn
        requires { IsTrue (is_passable (local_next self.old.machine.local)) }
        ensures leaves { self.new ≡ ue_after_call answer self.old }
        ensures tells { result ≡ told_by_call answer }
    {
        match answer {
            Turn::Moved => Turn::Moved,
            Turn::Waiting(spot) => Turn::Waiting(spot),
            Turn::Done => {
                self.pass_call();
                Turn::Moved
            }
        }
    }

    // What a turn of a receive comes to: where that has ended, the UE goes past it.
    #[inline(always)]
    fn settle_receive(&mut self, answer: RecvTurn) -> Turn
        requires at_receive { IsTrue (is_receiving (local_next self.old.machine.local)) }
        requires room { length_asked (local_next self.old.machine.local) ≤ length self.old.inbox }
        ensures leaves { self.new ≡ ue_after_receive answer self.old }
        ensures tells { result ≡ told_by_receive answer }
    {
        match answer {
            RecvTurn::Moved => Turn::Moved,
            RecvTurn::Waiting(spot) => Turn::Waiting(spot),
            RecvTurn::Done => {
                self.receive();
                Turn::Moved
            }
            RecvTurn::Mismatch(sent) => {
                self.refuse(sent);
                Turn::Moved
            }
        }
    }

    // Goes on by one turn where no call stands next: one statement of the rank's own, or one turn of the slot.
    #[inline(always)]
    fn turn_alone<P: Port>(&mut self, port: &mut P) -> Turn
        requires tied { Tied self.old (P.sight port.old) }
        requires alone { self.old.op ≡ Nothing }
        ensures tied { Tied self.new (P.sight port.new) }
        ensures turned { UeTurned self.old (P.sight port.old) self.new (P.sight port.new) result }
        ensures steps { (spot : Spot) → waits_at result ≡ Some spot → MadeSteps P.stepped (P.sight port.old) (P.sight port.new) }
    {
        if self.machine.is_going() {
            self.machine.go();
            self.enter();
            return Turn::Moved;
        }
        if self.machine.is_stopped() {
            return Turn::Done;
        }
        self.slot.turn(&mut self.core, port)
    }

    /// Goes on by one turn: one statement of the rank's own, or one turn of the call that stands next, or of the slot.
    #[inline(always)]
    pub fn turn<P: Port>(&mut self, port: &mut P) -> Turn
        requires tied { Tied self.old (P.sight port.old) }
        ensures tied { Tied self.new (P.sight port.new) }
        ensures turned { UeTurned self.old (P.sight port.old) self.new (P.sight port.new) result }
        ensures steps { (spot : Spot) → waits_at result ≡ Some spot → MadeSteps P.stepped (P.sight port.old) (P.sight port.new) }
    {
        match &mut self.op {
            Open::Nothing => self.turn_alone(port),
            Open::Sending(op) => {
                let answer = op.turn(&mut self.core, port, &mut self.slot, self.machine.bytes());
                self.settle_call(answer)
            }
            Open::Receiving(op) => {
                let answer = op.turn(&mut self.core, port, self.inbox.as_mut_slice());
                self.settle_receive(answer)
            }
            Open::Meeting(op) => {
                let answer = op.turn(&mut self.core, port, &mut self.parity);
                self.settle_call(answer)
            }
        }
    }
}

impl<'s, V: Evict + Drop> Ue<'s, V> {
    ghost use Rattle.std.specs.Prelude.{◌≡◌, ◌≤◌, ◌<◌, ◌+◌, [], IfOk};
    ghost use Rattle.scc_proto.specs.Ports.{Sight};
    ghost use Rattle.script_rules.specs.Script.{rules_of};
    ghost use Rattle.script_machine.specs.Local.{local_start};
    ghost use Rattle.rcce_ue.specs.Bounds.{bounds_of, visits};
    ghost use Rattle.rcce_ue.specs.Left.{ue_left};
    ghost use Rattle.rcce_ue.specs.Standing.{Tied};

    /// The UE of a rank before its first turn. All its memory is taken here.
    pub fn new(
        alloc: Global,
        scripts: &'s Scripts,
        setup: Setup,
        rank: Rank,
        evict: V,
    ) -> Result<Ue<'s, V>, AllocError>
        requires within { rank < setup.nue }
        requires ranks { setup.nue ≡ scripts.now.nue }
        requires communicators { setup.comms ≡ rules_of scripts.now.items }
        ensures machine { IfOk result (λ u. u.machine
            ≡ record { script = scripts.now; setup = setup; rank = rank; local = local_start scripts.now rank }) }
        ensures tied { IfOk result (λ u. (s : Sight) → s.seat.setup ≡ setup → s.seat.rank ≡ rank → s.events ≡ [] → Tied u s) }
        ensures left { IfOk result (λ u. ue_left u ≤ visits scripts.now rank + bounds_of setup scripts.now rank) }
        ensures evictor { IfOk result (λ u. u.core.answers ≡ V.answers evict) }
    {
        scripts.acceptance_law();
        let inbox = vec![in alloc; 0u8; Head::MOST as usize]?;
        let machine = Machine::new(alloc, scripts, setup, rank)?;
        let op = begin(&machine.call());
        Ok(Ue {
            machine,
            core: Core::new(evict),
            slot: Slot::new(),
            parity: Parity::new(),
            op,
            inbox,
            posted: None,
            sent: 0,
            sent_bytes: 0,
        })
    }
}

impl<'s, V: Evict> Ue<'s, V> {
    ghost use Rattle.std.specs.Prelude.{◌≡◌, ◌<◌, false, not, length, slice_get, Option, Some};
    ghost use Rattle.std.specs.Option.{option_map};
    ghost use Rattle.script_machine.specs.Local.{end_of};
    ghost use Rattle.script_machine.specs.Machine.{in_flight};
    ghost use Rattle.script_machine.specs.Moves.{is_stopped};
    ghost use Rattle.script_machine.specs.Next.{is_going};
    ghost use Rattle.script_machine.specs.declared.posts.Posted.{Posted};
    ghost use Rattle.rcce_ue.specs.Ues.{in_slot};

    /// Whether no statement of the rank's own stands next, so that it can be told how the run stands.
    pub fn is_pausing(&self) -> bool
        ensures tells { result ≡ not (is_going (local_next self.now.machine.local)) }
    {
        !self.machine.is_going()
    }

    /// Whether a mismatch stopped the rank.
    pub fn is_stopped(&self) -> bool
        ensures tells { result ≡ is_stopped self.now.machine.local }
    {
        self.machine.is_stopped()
    }

    /// How the rank's run stands: finished, stopped by a mismatch, or at what it waits.
    pub fn end(&self) -> UeEnd
        requires rests { is_going (local_next self.now.machine.local) ≡ false }
        ensures gives { (last : Option Posted) → self.now.posted ≡ option_map in_flight last
            → result ≡ end_of (in_slot self.now.slot last) self.now.machine.local }
    {
        match self.slot.holds() {
            Some(_) => self.machine.end(self.posted),
            None => self.machine.end(None),
        }
    }

    /// How many items the rank has printed.
    pub fn items(&self) -> usize
        ensures gives { result ≡ length self.now.machine.local.printed }
    {
        self.machine.items()
    }

    /// An item that the rank printed, in the order of printing.
    pub fn item(&self, i: usize) -> PrintedItem<'_>
        requires below { i < length self.now.machine.local.printed }
        ensures gives { slice_get self.now.machine.local.printed i ≡ Some result }
    {
        self.machine.item(i)
    }

    /// The rank.
    pub fn rank(&self) -> Rank
        ensures gives { result ≡ self.now.machine.rank }
    {
        self.machine.rank()
    }

    /// How many sends and posts have ended. The count stays at the largest value of u64 once it is there.
    pub fn sent(&self) -> u64
        ensures gives { result ≡ self.now.sent }
    {
        self.sent
    }

    /// How many bytes they had. The count stays at the largest value of u64 once it is there.
    pub fn sent_bytes(&self) -> u64
        ensures gives { result ≡ self.now.sent_bytes }
    {
        self.sent_bytes
    }
}
