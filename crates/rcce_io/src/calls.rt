ghost use Rattle.std.specs.Prelude.{◌≡◌, Some};
ghost use Rattle.rcce_io.specs.Memory.{Calls, no_file_calls, fails_next, after_call};

use std::marker::Model;

/// The calls on a memory form: how many were made, which one fails, and how many failed.
#[derive(Drop)]
pub struct CallCounter {
    made: u64,
    failing: Option<u64>,
    faults: u64,
}

impl Model for CallCounter {
    ghost use Rattle.rcce_io.specs.Memory.{Calls};

    ghost Value = { Calls };

    ghost view = { λ c. record { made = c.made; failing = c.failing; faults = c.faults } };
}

impl CallCounter {
    pub fn new() -> Self
        ensures { result ≡ no_file_calls }
    {
        CallCounter {
            made: 0,
            failing: None,
            faults: 0,
        }
    }

    pub fn fail_at(&mut self, call: u64)
        ensures { self.new ≡ record self.old { failing = Some call } }
    {
        self.failing = Some(call);
    }

    /// How many calls were made.
    pub fn made(&self) -> u64
        ensures { result ≡ self.now.made }
    {
        self.made
    }

    /// Whether the next call is to fail.
    pub fn fails_next(&self) -> bool
        ensures { result ≡ fails_next self.now }
    {
        let number = self.made.saturating_add(1);
        match self.failing {
            Some(call) => call == number,
            None => false,
        }
    }

    /// Counts the next call, which failed or did not.
    pub fn count(&mut self, failed: bool)
        ensures { self.new ≡ after_call failed self.old }
    {
        self.made = self.made.saturating_add(1);
        if failed {
            self.faults = self.faults.saturating_add(1);
        }
    }
}
