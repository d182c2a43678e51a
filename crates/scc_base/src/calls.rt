//! The calls of a unit of execution, without their bytes.

use crate::heads::{Head, PostHead};
use crate::names::Rank;

/// A call of a unit of execution without its bytes (RCCE specification 2.0; a post is this project's own).
#[derive(Drop, PartialEq, Eq)]
pub enum Call {
    /// A synchronous send: it ends when the receiver has taken the last chunk.
    Send { to: Rank, head: Head },
    /// A receive from one rank, of one head.
    Recv { from: Rank, head: Head },
    /// A send that ends once its message is on its way.
    Post { to: Rank, head: PostHead },
    /// A barrier of a communicator.
    Bar { comm: u8 },
}

impl Call {
    ghost use Rattle.std.specs.Prelude.{◌≡◌};

    /// A copy of the call.
    pub fn copy(&self) -> Call
        ensures gives { result ≡ self.now }
    {
        match self {
            Call::Send { to, head } => Call::Send {
                to: *to,
                head: *head,
            },
            Call::Recv { from, head } => Call::Recv {
                from: *from,
                head: *head,
            },
            Call::Post { to, head } => Call::Post {
                to: *to,
                head: *head,
            },
            Call::Bar { comm } => Call::Bar { comm: *comm },
        }
    }
}
