//! The machine that runs the program of a rank. It allocates all its memory at the start.
#![tactic(auto, unfolding(crate::specs::Local::local_next))]

ghost use Rattle.std.specs.Prelude.{◌≡◌, ◌≤◌, Option};
ghost use Rattle.std.specs.Option.{option_map};
ghost use Rattle.script_machine.specs.Local.{end_by_slot, head_with_length};
ghost use Rattle.script_machine.specs.Machine.{in_flight};
ghost use Rattle.script_machine.specs.declared.posts.Posted.{Posted};
ghost use Rattle.scc_base.specs.Heads.{most_message};

use crate::ends::UeEnd;
use crate::held::Held;
use crate::posts::InFlight;
use crate::prims::{Action, Primitive, Source, Standing};
use crate::prints::{PrintedItem, Prints};
use crate::trials::{Reckoned, reckon};
use crate::walk::Walk;
use scc_base::{Call, Head, PostHead, Rank, Setup};
use script_rules::Scripts;
use std::alloc::{AllocError, Global};
use std::marker::Model;

/// The machine that runs the program of a rank. It states the rank's next action and moves the rank past it. `new` allocates
/// all its memory: for the open repeats, for each register and each work buffer at its greatest length, and for all that the
/// rank prints.
#[derive(Drop)]
pub struct Machine<'s> {
    walk: Walk<'s>,
    held: Held,
    state: Standing,
}

impl<'s> Model for Machine<'s> {
    ghost use Rattle.script_machine.specs.Lengths.{lengths_of};
    ghost use Rattle.script_machine.specs.Machine.{MachineView};
    ghost use Rattle.script_machine.specs.Rooms.{AreWithin, local_by, rooms_by};

    ghost Value = { MachineView };

    ghost view = { λ m. record {
      script = m.walk.script;
      setup = m.walk.setup;
      rank = m.walk.rank;
      local = local_by m.held.registers m.held.folded m.held.taken m.walk m.held.prints m.state;
    } };

    ghost invariant = { λ m.
        AreWithin (rooms_by m.held.registers m.held.folded m.held.taken m.held.spare m.held.prints)
        (lengths_of (local_by m.held.registers m.held.folded m.held.taken m.walk m.held.prints m.state)) m.walk.left };
}

impl<'s> Machine<'s> {
    ghost use Rattle.std.specs.Prelude.{◌≡◌, ◌<◌, ◌≤◌, [], false, length, min, slice_get, IfOk, IfSome, IsTrue, Option, Some};
    ghost use Rattle.std.specs.Option.{option_map};
    ghost use Rattle.scc_base.specs.Heads.{plain_head, most_message, most_post};
    ghost use Rattle.script_rules.specs.Script.{rules_of};
    ghost use Rattle.script_machine.specs.Local.{asked_head, end_of, local_next, local_start, next_prim, register_at, source_bytes, stopped_at, statement_line};
    ghost use Rattle.script_machine.specs.Holds.{empty, local_with};
    ghost use Rattle.script_machine.specs.Machine.{in_flight};
    ghost use Rattle.script_machine.specs.Rooms.{AreWithin, nothing_held, rooms_of};
    ghost use Rattle.script_machine.specs.declared.prims.Standing.TheVariants as standing;
    ghost use Rattle.script_machine.specs.Moves.{bytes_out, is_passable, is_receiving, is_stopped, length_asked, line_out, after_pass, post_of, after_refusal, after_take, went};
    ghost use Rattle.script_machine.specs.Next.{call_next, is_going};
    ghost use Rattle.script_machine.specs.Walk.{IsShort, prim_meant};
    ghost use Rattle.script_machine.specs.declared.posts.Posted.{Posted};

    /// The machine of a rank before its first statement.
    pub fn new(
        alloc: Global,
        scripts: &'s Scripts,
        setup: Setup,
        rank: Rank,
    ) -> Result<Machine<'s>, AllocError>
        requires within { rank < setup.nue }
        requires ranks { setup.nue ≡ scripts.now.nue }
        requires communicators { setup.comms ≡ rules_of scripts.now.items }
        ensures { IfOk result (λ m. m ≡ record { script = scripts.now; setup = setup; rank = rank; local = local_start scripts.now rank }) }
    {
        let trial = Walk::new(alloc, scripts, setup, rank)?;
        let reckoned = reckon(alloc, scripts.registers(), trial)?;
        Machine::at_start(alloc, reckoned)
    }

    /// The machine of a walk whose needs are known, before its first statement.
    fn at_start(alloc: Global, reckoned: Reckoned<'s>) -> Result<Machine<'s>, AllocError>
        requires { AreWithin (rooms_of reckoned.needs) (nothing_held (length reckoned.needs.registers.items)) reckoned.walk.left }
        ensures { IfOk result (λ m. m
            ≡ record {
              script = reckoned.entry.walk.script;
              setup = reckoned.entry.walk.setup;
              rank = reckoned.entry.walk.rank;
              local = local_with (empty (rooms_of reckoned.entry.needs)) reckoned.entry.walk standing.Running;
            }) }
    {
        let Reckoned { needs, walk } = reckoned;
        let held = Held::new(alloc, &needs)?;
        Ok(Machine {
            walk,
            held,
            state: Standing::Running,
        })
    }

    /// The rank whose program this is.
    pub fn rank(&self) -> Rank
        ensures { result ≡ self.now.rank }
    {
        self.walk.rank()
    }

    /// The rank's next primitive.
    pub(crate) fn prim(&self) -> Option<&Primitive<'s>>
        ensures same { option_map (λ p. prim_meant p.now) result ≡ next_prim self.now.local }
        ensures short { IfSome result (λ p. IsShort p.now.action) }
    {
        match &self.state {
            Standing::Running => self.walk.front_lent(),
            Standing::Mismatched { .. } => None,
        }
    }

    /// How many bytes a register has.
    fn len(&self, reg: u8) -> u32
        ensures same { result ≡ length (register_at self.now.local reg) }
        ensures within { result ≤ most_message }
    {
        self.held.registers.bytes(reg).len() as u32
    }

    /// The bytes that a send sends.
    pub(crate) fn source(&self, source: Source) -> &[u8]
        ensures same { result.now ≡ source_bytes self.now.local source }
        ensures within { length (source_bytes self.now.local source) ≤ most_message }
    {
        match source {
            Source::Own { reg } => self.held.registers.bytes(reg),
            Source::Accumulator => self.held.folded.bytes(),
        }
    }

    /// The head that a receive of a collective call asks for.
    pub(crate) fn asked_head(&self, head: Head, sized: Option<u8>) -> Head
        ensures { result ≡ asked_head self.now.local head sized }
    {
        match sized {
            Some(reg) => with_length(head, self.len(reg)),
            None => head,
        }
    }

    /// The head of the message that a post of a register puts into its slot.
    pub(crate) fn post_head(&self, reg: u8) -> PostHead
        ensures { result ≡ plain_head (min (length (register_at self.now.local reg)) most_post) }
    {
        match PostHead::plain(self.len(reg).min(PostHead::MOST)) {
            Some(head) => head,
            None => unreachable!(),
        }
    }

    /// Whether the rank was stopped by a mismatch.
    pub fn is_stopped(&self) -> bool
        ensures { result ≡ is_stopped self.now.local }
    {
        match &self.state {
            Standing::Running => false,
            Standing::Mismatched { .. } => true,
        }
    }

    /// Runs the next action, which is a local statement.
    pub fn go(&mut self)
        requires { IsTrue (is_going (local_next self.old.local)) }
        ensures { self.new ≡ record self.old { local = went (local_next self.old.local) self.old.local } }
    {
        let Some(prim) = self.prim() else {
            unreachable!()
        };
        let prim = prim.copy();
        self.walk.advance();
        self.held.work(&prim.action);
    }

    /// Passes the next action, which is a send, a post or a barrier.
    pub fn pass(&mut self)
        requires { IsTrue (is_passable (local_next self.old.local)) }
        ensures { self.new ≡ record self.old { local = after_pass (local_next self.old.local) self.old.local } }
    {
        self.walk.advance();
    }

    /// Passes the next action, which is a receive, and takes the message's bytes.
    pub fn receive(&mut self, bytes: &[u8])
        requires at_receive { IsTrue (is_receiving (local_next self.old.local)) }
        requires long { length bytes.now ≡ length_asked (local_next self.old.local) }
        ensures { self.new ≡ record self.old { local = after_take (local_next self.old.local) bytes.now self.old.local } }
    {
        let Some(prim) = self.prim() else {
            unreachable!()
        };
        let prim = prim.copy();
        self.walk.advance();
        match prim.action {
            Action::Recv { reg, .. } => self.held.registers.write(reg, bytes),
            Action::Gather { .. } => self.held.taken.write(bytes),
            _ => unreachable!(),
        }
    }

    /// Stops the rank at the next action, a receive: the message has another head.
    pub fn refuse(&mut self, sent: Head)
        requires { IsTrue (is_receiving (local_next self.old.local)) }
        ensures { self.new ≡ record self.old { local = after_refusal (local_next self.old.local) sent self.old.local } }
    {
        let Some(prim) = self.prim() else {
            unreachable!()
        };
        let prim = prim.copy();
        let line = prim.line;
        match &prim.action {
            Action::Recv { from, head, .. } => self.stop(line, *from, sent, *head),
            Action::Gather { from, head, sized } => {
                let asked = self.asked_head(*head, *sized);
                self.stop(line, *from, sent, asked);
            }
            _ => unreachable!(),
        }
    }

    fn stop(&mut self, line: u32, from: Rank, sent: Head, asked: Head)
        ensures { self.new ≡ record self.old { local = stopped_at self.old.local line from asked sent } }
    {
        self.state = Standing::Mismatched {
            line,
            from,
            sent,
            asked,
        };
    }

    /// How the rank's run ended, given its posted message that is in flight, if any.
    pub fn end(&self, post: Option<InFlight>) -> UeEnd
        requires { is_going (local_next self.now.local) ≡ false }
        ensures { (slot : Option Posted) → option_map in_flight slot ≡ post → result ≡ end_of slot self.now.local }
    {
        if let Standing::Mismatched {
            line,
            from,
            sent,
            asked,
        } = &self.state
        {
            return UeEnd::Mismatch {
                line: *line,
                from: *from,
                sent: *sent,
                asked: *asked,
            };
        }
        match self.walk.front_lent() {
            None => end_by_slot(post),
            Some(next) => match self.call() {
                Some(call) => UeEnd::Waits {
                    line: next.line,
                    call,
                },
                None => unreachable!(),
            },
        }
    }

    /// Hands out the items that the rank printed, in order, and ends the machine.
    pub fn take_items(&mut self, alloc: Global) -> Prints
        ensures gives { result.items ≡ self.old.local.printed }
        ensures ends { self.new ≡ record self.old { local = record self.old.local { left = []; printed = [] } } }
    {
        self.walk.finish();
        std::mem::replace(&mut self.held.prints, Prints::none(alloc))
    }

    /// How many items the rank has printed.
    pub fn items(&self) -> usize
        ensures { result ≡ length self.now.local.printed }
    {
        self.held.prints.len()
    }

    /// An item that the rank printed, in the order of printing.
    pub fn item(&self, i: usize) -> PrintedItem<'_>
        requires { i < length self.now.local.printed }
        ensures { slice_get self.now.local.printed i ≡ Some result }
    {
        self.held.prints.item(i)
    }
}

/// A head with another length.
pub(crate) fn with_length(head: Head, len: u32) -> Head
    requires { len ≤ most_message }
    ensures { result ≡ head_with_length head len }
{
    match Head::new(head.kind(), head.comm(), len) {
        Some(head) => head,
        None => unreachable!(),
    }
}

/// How the run of a rank ended whose program has ended.
fn end_by_slot(post: Option<InFlight>) -> UeEnd
    ensures { (slot : Option Posted) → option_map in_flight slot ≡ post → result ≡ end_by_slot slot }
{
    match post {
        None => UeEnd::Finished,
        Some(message) => UeEnd::Waits {
            line: message.line,
            call: Call::Post {
                to: message.to,
                head: message.head,
            },
        },
    }
}
