//! How a run whose trace is written ends.

ghost use Rattle.std.specs.Prelude.{◌≡◌};
ghost use Rattle.trace_script.specs.Ends.{trace_status_number};

use outcomes::Status;

/// How a run whose trace is written ends. The number is the status with which the process ends.
#[derive(Clone, Copy)]
pub enum TraceEnd {
    /// As any program does.
    Ended(Status),
    /// The judge refused an event of the run, which cannot come.
    Refused,
}

impl TraceEnd {
    pub fn number(self) -> u8
        ensures { result ≡ trace_status_number self }
    {
        match self {
            TraceEnd::Ended(status) => status.number(),
            TraceEnd::Refused => 7,
        }
    }
}
