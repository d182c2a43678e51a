//! Messages that were posted and not taken yet.

ghost use Rattle.std.specs.Prelude.{◌≡◌};
ghost use Rattle.std.specs.Option.{option_map};
ghost use Rattle.script_machine.specs.Machine.{in_flight};

use scc_base::{Head, Rank};
use script_machine::{InFlight, Posted, Register};
use std::marker::Model;

/// A message that was posted and not taken yet. It has as many bytes as its head says.
#[derive(Drop)]
pub struct Left {
    message: Posted,
}

impl Model for Left {
    ghost use Rattle.std.specs.Prelude.{◌≡◌, length};
    ghost use Rattle.script_machine.specs.declared.posts.Posted.{Posted};

    ghost Value = { Posted };

    ghost view = { λ l. l.message };

    ghost invariant = { λ l. length l.message.bytes ≡ l.message.head.len };
}

impl Left {
    ghost use Rattle.std.specs.Prelude.{◌≡◌, length};
    ghost use Rattle.script_machine.specs.Machine.{in_flight};

    pub fn of(message: Posted) -> Left
        requires { length message.bytes ≡ message.head.len }
        ensures { result ≡ message }
    {
        Left { message }
    }

    pub fn to(&self) -> Rank
        ensures { result ≡ self.now.to }
    {
        self.message.to
    }

    pub fn head(&self) -> Head
        ensures { result ≡ self.now.head }
    {
        self.message.head.head()
    }

    pub fn line(&self) -> u32
        ensures { result ≡ self.now.line }
    {
        self.message.line
    }

    pub fn bytes(&self) -> &Register
        ensures same { result.now ≡ self.now.bytes }
        ensures even { length self.now.bytes ≡ self.now.head.len }
    {
        &self.message.bytes
    }

    pub fn in_flight(&self) -> InFlight
        ensures { result ≡ in_flight self.now }
    {
        InFlight {
            line: self.message.line,
            to: self.message.to,
            head: self.message.head,
        }
    }
}

/// The message in a slot, without its bytes.
pub fn in_slot(slot: &Option<Left>) -> Option<InFlight>
    ensures { result ≡ option_map in_flight slot.now }
{
    match slot {
        Some(message) => Some(message.in_flight()),
        None => None,
    }
}
