//! The faults of a lab, and why a reading stops.

ghost use Rattle.std.specs.Prelude.{◌≡◌, codes};
ghost use Rattle.lab_reader.specs.Faults.{lab_kind_name};

use std::alloc::{AllocError, AllocFailed};

/// What is wrong with a line.
#[derive(Clone, Copy)]
pub enum LabKind {
    /// The file is longer than `MOST_LAB_BYTES`.
    TooLong,
    /// A byte outside a comment is neither a blank nor a printable character.
    NotText,
    /// A line does not begin with `core C`.
    BadCore,
    /// The words after `core C` are no step.
    BadStep,
}

impl LabKind {
    /// The name of the kind, as a program prints it.
    pub fn name(self) -> &'static str
        ensures { result.now ≡ lab_kind_name self }
    {
        match self {
            LabKind::TooLong => "TooLong",
            LabKind::NotText => "NotText",
            LabKind::BadCore => "BadCore",
            LabKind::BadStep => "BadStep",
        }
    }
}

/// The first fault of a file. Lines count from 1; line 0 means the whole file.
#[derive(Clone, Copy)]
pub struct LabFault {
    pub line: u32,
    pub kind: LabKind,
}

/// Why a reading stops: the file has a fault, or memory ran out.
#[derive(Clone, Copy)]
pub enum LabStop {
    Fault(LabFault),
    Memory,
}

impl From<AllocError> for LabStop {
    ghost use Rattle.lab_reader.specs.declared.faults.LabStop.TheVariants.{Memory};

    ghost from_gives = { λ _ stop. stop ≡ Memory };

    fn from(_error: AllocError) -> LabStop {
        LabStop::Memory
    }
}

impl<T: Drop> From<AllocFailed<T>> for LabStop {
    ghost use Rattle.lab_reader.specs.declared.faults.LabStop.TheVariants.{Memory};

    ghost from_gives = { λ _ stop. stop ≡ Memory };

    fn from(_error: AllocFailed<T>) -> LabStop {
        LabStop::Memory
    }
}
