//! A rank in a run, which drives the machine of its program.
#![tactic(auto, unfolding(script_machine::specs::Local::local_next))]

use crate::posts::{Left, in_slot};
use scc_base::{Call, Head, Rank, Setup};
use script_machine::{Facing, Machine, Posted, Prints, Register, UeEnd};
use script_rules::Scripts;
use std::alloc::{AllocError, Global};
use std::marker::Model;

/// A rank in a run: the machine of its program. What it holds has the lengths that the script says.
#[derive(Drop)]
pub struct Ue<'s> {
    machine: Machine<'s>,
}

impl<'s> Model for Ue<'s> {
    ghost use Rattle.script_machine.specs.Local.{Local};
    ghost use Rattle.plain_meaning.specs.Kept.{Fits, reckoned_at};

    ghost Value = { Local };

    ghost view = { λ u. u.machine.local };

    ghost invariant = { λ u. Fits (reckoned_at u.machine.script u.machine.rank) u.machine.local };
}

impl<'s> Ue<'s> {
    ghost use Rattle.std.specs.Prelude.{◌≡◌, ◌<◌, false, length, IfOk, IsTrue};
    ghost use Rattle.script_machine.specs.Local.{end_of, local_next, local_start, statement_line};
    ghost use Rattle.script_machine.specs.Next.{facing_of, call_next, is_at_barrier, is_going, past_barrier};
    ghost use Rattle.script_machine.specs.Next.Next.{Goes};
    ghost use Rattle.script_rules.specs.Script.{rules_of};
    ghost use Rattle.script_plain.specs.Code.{HasLength, HasPosted, HasRefused, HasSent, HasTaken, IsAtPost, IsAtReceive, IsAtSend};
    ghost use Rattle.script_machine.specs.Moves.{length_asked};

    /// A rank before its first statement.
    pub fn new(
        alloc: Global,
        scripts: &'s Scripts,
        setup: &Setup,
        rank: Rank,
    ) -> Result<Ue<'s>, AllocError>
        requires within { rank < setup.now.nue }
        requires ranks { setup.now.nue ≡ scripts.now.nue }
        requires communicators { setup.now.comms ≡ rules_of scripts.now.items }
        ensures { IfOk result (λ u. u ≡ local_start scripts.now rank) }
    {
        scripts.acceptance_law();
        let machine = Machine::new(alloc, scripts, setup.copy(), rank)?;
        Ok(Ue { machine })
    }

    /// Whether the rank stands at a statement of its own.
    pub fn is_going(&self) -> bool
        ensures { result ≡ is_going (local_next self.now) }
    {
        self.machine.is_going()
    }

    /// The call at which the rank stands.
    pub fn call(&self) -> Option<Call>
        ensures { result ≡ call_next (local_next self.now) }
    {
        self.machine.call()
    }

    /// Whom the rank faces.
    pub fn facing(&self) -> Facing
        ensures { result ≡ facing_of (local_next self.now) }
    {
        self.machine.facing()
    }

    /// The line of the statement at which the rank stands.
    pub fn line(&self) -> u32
        ensures { result ≡ statement_line self.now }
    {
        self.machine.stands_at()
    }

    /// Does the statement of its own at which the rank stands.
    pub fn go(&mut self)
        requires { IsTrue (is_going (local_next self.old)) }
        ensures { local_next self.old ≡ Goes self.new }
    {
        self.machine.go();
    }

    /// Whether the rank stands at a barrier of this communicator.
    pub fn is_at_barrier(&self, comm: u8) -> bool
        ensures { result ≡ is_at_barrier comm (local_next self.now) }
    {
        match &self.machine.call() {
            Some(Call::Bar { comm: asked }) => *asked == comm,
            Some(Call::Post { .. } | Call::Send { .. } | Call::Recv { .. }) | None => false,
        }
    }

    /// Goes past the barrier at which the rank stands.
    pub fn pass(&mut self, comm: u8)
        requires { IsTrue (is_at_barrier comm (local_next self.old)) }
        ensures { self.new ≡ past_barrier (local_next self.old) self.old }
    {
        self.machine.pass();
    }

    /// Goes past the post at which the rank stands, and gives the message.
    pub fn post(&mut self, alloc: Global) -> Result<Left, AllocError>
        requires { IsAtPost (local_next self.old) }
        ensures { IfOk result (λ posted. HasPosted (local_next self.old) posted self.new) }
    {
        let Some(post) = self.machine.post() else {
            unreachable!()
        };
        let bytes = Register::new(alloc, self.machine.sent())?;
        self.machine.pass();
        Ok(Left::of(Posted {
            to: post.to,
            head: post.head,
            bytes,
            line: post.line,
        }))
    }

    /// Goes past the send at which the rank stands, and gives the message's bytes.
    pub fn send(&mut self, alloc: Global) -> Result<Register, AllocError>
        requires { IsAtSend (local_next self.old) }
        ensures same { IfOk result (λ bytes. HasSent (local_next self.old) bytes self.new) }
        ensures long { IfOk result (λ bytes. HasLength (local_next self.old) bytes) }
    {
        let bytes = Register::new(alloc, self.machine.sent())?;
        self.machine.pass();
        Ok(bytes)
    }

    /// Goes past the receive at which the rank stands, with the message's bytes.
    pub fn receive(&mut self, bytes: &Register)
        requires at_receive { IsAtReceive (local_next self.old) }
        requires long { length bytes.now ≡ length_asked (local_next self.old) }
        ensures { HasTaken (local_next self.old) bytes.now self.new }
    {
        self.machine.receive(bytes.as_slice());
    }

    /// Stops at the receive at which the rank stands: the message has another head.
    pub fn refuse(&mut self, sent: Head)
        requires { IsAtReceive (local_next self.old) }
        ensures { HasRefused (local_next self.old) sent self.new }
    {
        self.machine.refuse(sent);
    }

    /// How the rank's run ended, with this message in its slot.
    pub fn end(&self, slot: &Option<Left>) -> UeEnd
        requires { is_going (local_next self.now) ≡ false }
        ensures { result ≡ end_of slot.now self.now }
    {
        self.machine.end(in_slot(slot))
    }

    /// The items that the rank printed, in order.
    pub fn take_items(&mut self, alloc: Global) -> Prints
        ensures { result.items ≡ self.old.printed }
    {
        self.machine.take_items(alloc)
    }
}
