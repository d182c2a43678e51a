//! The first fault of a file, and why a reading stops.

ghost use Rattle.std.specs.Prelude.{◌≡◌};

use script_rules::FaultKind;
use std::alloc::{AllocError, AllocFailed};

/// The faults that a statement may have, in the order of the fault table. The first one found is reported.
pub(crate) const FAULT_TABLE: [FaultKind; 12] = [
    FaultKind::RankRange,
    FaultKind::SelfMessage,
    FaultKind::UnknownComm,
    FaultKind::NotSplit,
    FaultKind::Unset,
    FaultKind::Shape,
    FaultKind::NoSection,
    FaultKind::StrayEnd,
    FaultKind::TooDeep,
    FaultKind::TooManyOps,
    FaultKind::TooLong,
    FaultKind::TooManyNames,
];

/// The first fault of a file. Lines count from 1; line 0 means the file as a whole.
#[derive(Clone, Copy, Debug, PartialEq, Eq)]
pub struct ReadFault {
    pub line: u32,
    pub kind: FaultKind,
}

/// Why a reading stops: the file has a fault, or memory has run out.
#[derive(Clone, Copy, Debug)]
pub enum ReadStop {
    Fault(ReadFault),
    Memory,
}

/// Why a reading stops inside a line.
#[derive(Clone, Copy)]
pub(crate) enum LineStop {
    Kind(FaultKind),
    Memory,
}

impl From<FaultKind> for LineStop {
    ghost use Rattle.script_reader.specs.declared.fault.LineStop.TheVariants.{Kind};

    ghost from_gives = { λ kind stop. stop ≡ Kind kind };

    fn from(kind: FaultKind) -> LineStop {
        LineStop::Kind(kind)
    }
}

impl From<AllocError> for LineStop {
    ghost use Rattle.script_reader.specs.declared.fault.LineStop.TheVariants.{Memory};

    ghost from_gives = { λ _ stop. stop ≡ Memory };

    fn from(_error: AllocError) -> LineStop {
        LineStop::Memory
    }
}

impl<T: Drop> From<AllocFailed<T>> for LineStop {
    ghost use Rattle.script_reader.specs.declared.fault.LineStop.TheVariants.{Memory};

    ghost from_gives = { λ _ stop. stop ≡ Memory };

    fn from(_error: AllocFailed<T>) -> LineStop {
        LineStop::Memory
    }
}

impl From<AllocError> for ReadStop {
    ghost use Rattle.script_reader.specs.declared.fault.ReadStop.TheVariants.{Memory};

    ghost from_gives = { λ _ stop. stop ≡ Memory };

    fn from(_error: AllocError) -> ReadStop {
        ReadStop::Memory
    }
}
