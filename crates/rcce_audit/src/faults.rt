//! The faults of a log's text, and why a reading stops.

ghost use Rattle.std.specs.Prelude.{◌≡◌, codes};
ghost use Rattle.rcce_audit.specs.Kinds.{fault_name};

use std::alloc::{AllocError, AllocFailed};

/// What is wrong in a line.
#[derive(Clone, Copy)]
pub enum LogKind {
    /// The file has more bytes than a log may have.
    TooLong,
    /// The first line is not `rcce log N`, or there is none.
    BadHead,
    /// A line that begins with `comm` is not of its form, or not in its place.
    BadComm,
    /// Another line is not of its form, or not in its place.
    BadCall,
}

impl LogKind {
    /// The name of the kind, as a program prints it.
    pub fn name(self) -> &'static str
        ensures { result.now ≡ fault_name self }
    {
        match self {
            LogKind::TooLong => "TooLong",
            LogKind::BadHead => "BadHead",
            LogKind::BadComm => "BadComm",
            LogKind::BadCall => "BadCall",
        }
    }
}

/// The first fault of a file. Lines count from 1; line 0 stands for the file as a whole.
#[derive(Clone, Copy)]
pub struct LogFault {
    pub line: u32,
    pub kind: LogKind,
}

/// Why a reading stops: the file has a fault, or no memory is left.
#[derive(Clone, Copy)]
pub enum LogStop {
    Fault(LogFault),
    Memory,
}

impl From<AllocError> for LogStop {
    ghost use Rattle.rcce_audit.specs.declared.faults.LogStop.TheVariants.{Memory};

    ghost from_gives = { λ _ stop. stop ≡ Memory };

    fn from(_error: AllocError) -> LogStop {
        LogStop::Memory
    }
}

impl<T: Drop> From<AllocFailed<T>> for LogStop {
    ghost use Rattle.rcce_audit.specs.declared.faults.LogStop.TheVariants.{Memory};

    ghost from_gives = { λ _ stop. stop ≡ Memory };

    fn from(_error: AllocFailed<T>) -> LogStop {
        LogStop::Memory
    }
}
