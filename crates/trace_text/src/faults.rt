//! The faults of a trace's text, and why a reading stops.

ghost use Rattle.std.specs.Prelude.{◌≡◌, codes};
ghost use Rattle.trace_text.specs.Kinds.{trace_fault_name};

/// What is wrong in a line.
#[derive(Clone, Copy)]
pub enum TraceKind {
    /// The file has more bytes or lines than a trace may have.
    TooLong,
    /// The first line is not `rcce trace 1 nue N layout L hosts C,C,..`, or there is none.
    BadHead,
    /// A line that begins with `comm` is not of its form, or not in its place.
    BadComm,
    /// Another line is not of its form.
    BadEvent,
}

impl TraceKind {
    /// The name of the kind, as a program prints it.
    pub fn name(self) -> &'static str
        ensures { result.now ≡ trace_fault_name self }
    {
        match self {
            TraceKind::TooLong => "TooLong",
            TraceKind::BadHead => "BadHead",
            TraceKind::BadComm => "BadComm",
            TraceKind::BadEvent => "BadEvent",
        }
    }
}

/// The first fault of a file. Lines count from 1; line 0 stands for the file as a whole.
#[derive(Clone, Copy)]
pub struct TraceFault {
    pub line: u32,
    pub kind: TraceKind,
}
