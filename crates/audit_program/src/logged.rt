//! The log of a run, as it is written. No memory is taken.

ghost use Rattle.std.specs.Prelude.{◌≡◌};
ghost use Rattle.rcce_audit.specs.Held.{held_view};
ghost use Rattle.audit_program.specs.Program.{script_log};

use chip_run::RunEnd;
use log_run::LogRun;
use outcomes::Report;
use rcce_audit::{CallList, HeldLog};
use rcce_io::{Sink, TextSource, WriteFault};
use scc_base::Rank;

/// A run whose log is to be written.
#[derive(Drop)]
pub struct Logged<'s> {
    pub run: LogRun<'s>,
}

/// The log of a run, as the run holds it.
fn held_log<'a>(run: &'a LogRun<'_>) -> HeldLog<'a>
    ensures { held_view result ≡ script_log run.now }
{
    let none = CallList {
        calls: &[],
        bytes: &[],
    };
    let mut lists = [none; 48];
    for number in 0..run.nue() {
        let rank = Rank::of(number);
        lists[number as usize] = CallList {
            calls: run.calls(rank),
            bytes: run.bytes(rank),
        };
    }
    HeldLog {
        nue: run.nue(),
        comms: run.comms(),
        lists,
    }
}

impl<'s> Report for Logged<'s> {
    ghost use Rattle.audit_program.specs.Loading.{logged_ran};

    ghost ran = { logged_ran };

    fn is_finished(&self) -> bool {
        match self.run.end() {
            RunEnd::Finished => true,
            RunEnd::Stuck => false,
        }
    }

    fn write_out<S: Sink>(&self, sink: &mut S) -> Result<(), WriteFault> {
        held_log(&self.run).write_to(sink)
    }

    fn write_err<S: Sink>(&self, sink: &mut S) -> Result<(), WriteFault> {
        Ok(())
    }
}
