//! The bytes of a message in flight.

ghost use Rattle.std.specs.Prelude.{◌≡◌, ◌≤◌};
ghost use Rattle.scc_base.specs.Heads.{plain_head, most_message};

use scc_base::Head;
use std::alloc::{AllocError, Global};
use std::marker::Model;

/// The head of a plain message of this many bytes.
pub fn plain_message(len: u32) -> Head
    requires { len ≤ most_message }
    ensures { result ≡ plain_head len }
{
    match Head::plain(len) {
        Some(head) => head,
        None => unreachable!(),
    }
}

/// The bytes of a register: at most as many as a message may have.
#[derive(Drop)]
pub struct Register {
    bytes: Vec<u8>,
}

impl Model for Register {
    ghost use Rattle.std.specs.Prelude.{ℕ, ◌≤◌, List, length};
    ghost use Rattle.scc_base.specs.Heads.{most_message};

    ghost Value = { List ℕ };

    ghost view = { λ r. r.bytes.items };

    ghost invariant = { λ r. length r.bytes.items ≤ most_message };
}

impl Register {
    ghost use Rattle.std.specs.Prelude.{◌≡◌, ◌≤◌, length, IfOk};
    ghost use Rattle.scc_base.specs.Heads.{most_message};

    /// A copy of these bytes.
    pub fn new(alloc: Global, bytes: &[u8]) -> Result<Register, AllocError>
        requires { length bytes.now ≤ most_message }
        ensures { IfOk result (λ r. r ≡ bytes.now) }
    {
        Ok(Register {
            bytes: Vec::from_slice(alloc, bytes)?,
        })
    }

    pub fn as_slice(&self) -> &[u8]
        ensures { result.now ≡ self.now }
    {
        self.bytes.as_slice()
    }
}
