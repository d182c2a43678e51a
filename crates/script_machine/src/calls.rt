//! A rank's next action: the call, the bytes that it sends and the bytes that it asks for.
#![tactic(auto, unfolding(crate::specs::Local::local_next))]

ghost use Rattle.std.specs.Prelude.{◌≡◌};
ghost use Rattle.script_machine.specs.Walk.{is_own};

use crate::facing::Facing;
use crate::machines::{Machine, with_length};
use crate::posts::InFlight;
use crate::prims::{Action, Primitive, Source};
use crate::reckoning::Lengths;
use crate::rooms::Length;
use scc_base::{Call, Head, PostHead};

impl<'s> Machine<'s> {
    ghost use Rattle.std.specs.Prelude.{◌≡◌, ◌≤◌, length};
    ghost use Rattle.script_machine.specs.Next.{facing_of, call_next, is_going};
    ghost use Rattle.script_machine.specs.Local.{local_next, statement_line};
    ghost use Rattle.script_machine.specs.Moves.{bytes_out, length_asked, line_out, post_of};
    ghost use Rattle.scc_base.specs.Heads.{most_message};

    /// Whether the next action is a local statement.
    pub fn is_going(&self) -> bool
        ensures { result ≡ is_going (local_next self.now.local) }
    {
        match self.prim() {
            Some(prim) => is_own(&prim.action),
            None => false,
        }
    }

    /// The call that the rank makes next, if it makes one.
    #[inline(always)]
    pub fn call(&self) -> Option<Call>
        ensures { result ≡ call_next (local_next self.now.local) }
    {
        let Some(prim) = self.prim() else {
            return None;
        };
        match &prim.action {
            Action::Send { to, head, source } => Some(Call::Send {
                to: *to,
                head: with_length(*head, self.source(*source).len() as u32),
            }),
            Action::Post { to, reg } => Some(Call::Post {
                to: *to,
                head: self.post_head(*reg),
            }),
            Action::Recv { from, head, .. } => Some(Call::Recv {
                from: *from,
                head: *head,
            }),
            Action::Gather { from, head, sized } => Some(Call::Recv {
                from: *from,
                head: self.asked_head(*head, *sized),
            }),
            Action::Bar { comm } => Some(Call::Bar { comm: *comm }),
            Action::Set { .. }
            | Action::Own(_)
            | Action::Begin { .. }
            | Action::Fold { .. }
            | Action::Accept { .. }
            | Action::Finish { .. } => None,
        }
    }

    /// Whom the rank's next call is with.
    pub fn facing(&self) -> Facing
        ensures { result ≡ facing_of (local_next self.now.local) }
    {
        let Some(prim) = self.prim() else {
            return Facing::Nobody;
        };
        match &prim.action {
            Action::Send { to, .. } => Facing::One { rank: *to },
            Action::Recv { from, .. } => Facing::One { rank: *from },
            Action::Gather { from, .. } => Facing::One { rank: *from },
            Action::Bar { .. } => Facing::Group,
            Action::Set { .. }
            | Action::Own(_)
            | Action::Post { .. }
            | Action::Begin { .. }
            | Action::Fold { .. }
            | Action::Accept { .. }
            | Action::Finish { .. } => Facing::Nobody,
        }
    }

    /// The bytes of the next send or post; none if the next action is another one.
    pub fn bytes(&self) -> &[u8]
        ensures { result.now ≡ bytes_out (local_next self.now.local) }
    {
        self.sent()
    }

    /// The same bytes: no more than a message may have.
    pub fn sent(&self) -> &[u8]
        ensures same { result.now ≡ bytes_out (local_next self.now.local) }
        ensures within { length (bytes_out (local_next self.now.local)) ≤ most_message }
    {
        let Some(prim) = self.prim() else {
            return &[];
        };
        match &prim.action {
            Action::Send { source, .. } => self.source(*source),
            Action::Post { reg, .. } => self.source(Source::Own { reg: *reg }),
            Action::Set { .. }
            | Action::Own(_)
            | Action::Recv { .. }
            | Action::Gather { .. }
            | Action::Bar { .. }
            | Action::Begin { .. }
            | Action::Fold { .. }
            | Action::Accept { .. }
            | Action::Finish { .. } => &[],
        }
    }

    /// The line of the rank's next statement, or 0 if its program has ended.
    pub fn stands_at(&self) -> u32
        ensures { result ≡ statement_line self.now.local }
    {
        match self.prim() {
            Some(prim) => prim.line,
            None => 0,
        }
    }

    /// The message of the next post, without its bytes.
    pub fn post(&self) -> Option<InFlight>
        ensures { result ≡ post_of (local_next self.now.local) }
    {
        let Some(prim) = self.prim() else {
            return None;
        };
        match &prim.action {
            Action::Post { to, reg } => Some(InFlight {
                line: prim.line,
                to: *to,
                head: self.post_head(*reg),
            }),
            Action::Set { .. }
            | Action::Own(_)
            | Action::Send { .. }
            | Action::Recv { .. }
            | Action::Gather { .. }
            | Action::Bar { .. }
            | Action::Begin { .. }
            | Action::Fold { .. }
            | Action::Accept { .. }
            | Action::Finish { .. } => None,
        }
    }

    /// The line of the next post, or 0 if the next action is another one.
    pub fn line(&self) -> u32
        ensures { result ≡ line_out (local_next self.now.local) }
    {
        let Some(prim) = self.prim() else {
            return 0;
        };
        match &prim.action {
            Action::Post { .. } => prim.line,
            Action::Set { .. }
            | Action::Own(_)
            | Action::Send { .. }
            | Action::Recv { .. }
            | Action::Gather { .. }
            | Action::Bar { .. }
            | Action::Begin { .. }
            | Action::Fold { .. }
            | Action::Accept { .. }
            | Action::Finish { .. } => 0,
        }
    }

    /// How many bytes the next receive asks for, or 0 if the next action is another one.
    pub fn asked(&self) -> usize
        ensures { result ≡ length_asked (local_next self.now.local) }
    {
        let Some(prim) = self.prim() else {
            return 0;
        };
        match &prim.action {
            Action::Recv { head, .. } => head.len() as usize,
            Action::Gather { head, sized, .. } => self.asked_head(*head, *sized).len() as usize,
            Action::Set { .. }
            | Action::Own(_)
            | Action::Send { .. }
            | Action::Post { .. }
            | Action::Bar { .. }
            | Action::Begin { .. }
            | Action::Fold { .. }
            | Action::Accept { .. }
            | Action::Finish { .. } => 0,
        }
    }
}

impl Lengths {
    ghost use Rattle.std.specs.Option.{option_to_list};
    ghost use Rattle.std.specs.Prelude.{◌≡◌, map};
    ghost use Rattle.scc_base.specs.Calls.{bytes_asked};
    ghost use Rattle.script_machine.specs.CallLists.{calls_made};
    ghost use Rattle.script_machine.specs.Lengths.{asked_length, source_length};
    ghost use Rattle.script_machine.specs.Walk.{act_meant};

    /// How many bytes a send sends.
    fn sent(&self, source: &Source) -> Length
        ensures { result ≡ source_length self.now source.now }
    {
        match source {
            Source::Own { reg } => self.len(*reg),
            Source::Accumulator => self.accumulator(),
        }
    }

    /// How many bytes a receive of a collective call asks for.
    pub(crate) fn asked(&self, head: Head, sized: Option<u8>) -> Length
        ensures { result ≡ asked_length self.now head sized }
    {
        match sized {
            Some(reg) => self.len(reg),
            None => Length::of(head.len()),
        }
    }

    /// How many bytes the call of a primitive moves, if it makes a call.
    pub fn moved(&self, action: &Action) -> Option<u32>
        ensures { option_to_list result ≡ map bytes_asked (calls_made self.now (act_meant action.now)) }
    {
        match action {
            Action::Send { source, .. } => Some(self.sent(source).get()),
            Action::Post { reg, .. } => Some(self.len(*reg).get().min(PostHead::MOST)),
            Action::Recv { head, .. } => Some(head.len()),
            Action::Gather { head, sized, .. } => Some(self.asked(*head, *sized).get()),
            Action::Bar { .. } => Some(0),
            Action::Set { .. }
            | Action::Own(_)
            | Action::Begin { .. }
            | Action::Fold { .. }
            | Action::Accept { .. }
            | Action::Finish { .. } => None,
        }
    }
}

/// Whether a primitive needs no other rank.
fn is_own(action: &Action) -> bool
    ensures { result ≡ is_own action.now }
{
    match action {
        Action::Set { .. }
        | Action::Own(_)
        | Action::Begin { .. }
        | Action::Fold { .. }
        | Action::Accept { .. }
        | Action::Finish { .. } => true,
        Action::Send { .. }
        | Action::Post { .. }
        | Action::Recv { .. }
        | Action::Gather { .. }
        | Action::Bar { .. } => false,
    }
}
