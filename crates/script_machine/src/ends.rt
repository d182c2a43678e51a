//! How the run of a rank ended.

use scc_base::{Call, Head, Rank};

/// How the run of a rank ended.
#[derive(Drop, PartialEq, Eq)]
pub enum UeEnd {
    /// Its program has ended.
    Finished,
    /// It waits in the call of this line.
    Waits {
        line: u32,
        call: Call,
    },
    /// A message from this rank has another head than the receive of this line asked for.
    Mismatch {
        line: u32,
        from: Rank,
        sent: Head,
        asked: Head,
    },
}

impl UeEnd {
    ghost use Rattle.std.specs.Prelude.{◌≡◌};

    /// A copy of the end.
    pub fn copy(&self) -> UeEnd
        ensures { result ≡ self.now }
    {
        match self {
            UeEnd::Finished => UeEnd::Finished,
            UeEnd::Waits { line, call } => UeEnd::Waits {
                line: *line,
                call: call.copy(),
            },
            UeEnd::Mismatch {
                line,
                from,
                sent,
                asked,
            } => UeEnd::Mismatch {
                line: *line,
                from: *from,
                sent: *sent,
                asked: *asked,
            },
        }
    }
}
