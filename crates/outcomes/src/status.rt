ghost use Rattle.std.specs.Prelude.{◌≡◌};
ghost use Rattle.outcomes.specs.Statuses.{status_number};

/// How a program ends. The number is the status with which the process ends.
#[derive(Clone, Copy)]
pub enum Status {
    /// What was to run has finished.
    Finished = 0,
    /// The words are refused.
    Words = 1,
    /// A file is refused for what stands in it.
    Script = 2,
    /// What was to run has not finished.
    Stuck = 3,
    /// No memory is left.
    Memory = 4,
    /// A file is absent, or could not be read.
    Files = 5,
    /// A text could not be written.
    Write = 6,
}

impl Status {
    pub fn number(self) -> u8
        ensures { result ≡ status_number self }
    {
        self as u8
    }
}
