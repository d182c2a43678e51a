//! Writing the texts of an ending to the sinks. No memory is taken.

ghost use Rattle.std.specs.Prelude.{◌≡◌, ℕ, List};
ghost use Rattle.outcomes.specs.Complaints.{outcome_of};
ghost use Rattle.outcomes.specs.Delivery.{Delivers, WroteTexts, sinks};
ghost use Rattle.outcomes.specs.Outcomes.{run_outcome};

use crate::{Complaint, Report, Status};
use rcce_io::{Sink, WriteFault};

/// Writes the texts of a report or of a complaint, first out's and then err's, and answers how the program ends. Nothing
/// is written behind a failed write.
pub fn deliver<'a, R: Report + Drop, O: Sink, E: Sink>(
    program: &'a str,
    ending: Result<R, Complaint<'a>>,
    out: &mut O,
    err: &mut E,
) -> Status
    ensures { Delivers (outcome_of program.now R.ran ending.entry) (sinks (O.seen out.old) (E.seen err.old))
        (sinks (O.seen out.new) (E.seen err.new)) result }
{
    match write_ending(program, &ending, out, err) {
        Ok(()) => status(&ending),
        Err(WriteFault) => Status::Write,
    }
}

fn status<R: Report>(ending: &Result<R, Complaint>) -> Status
    ensures { (program : List ℕ) → result ≡ (outcome_of program R.ran ending.now).status }
{
    match ending {
        Ok(report) => {
            if report.is_finished() {
                Status::Finished
            } else {
                Status::Stuck
            }
        }
        Err(complaint) => complaint.status(),
    }
}

fn write_ending<'a, R: Report, O: Sink, E: Sink>(
    program: &'a str,
    ending: &Result<R, Complaint<'a>>,
    out: &mut O,
    err: &mut E,
) -> Result<(), WriteFault>
    ensures { WroteTexts (outcome_of program.now R.ran ending.now) (sinks (O.seen out.old) (E.seen err.old))
        (sinks (O.seen out.new) (E.seen err.new)) result }
{
    match ending {
        Ok(report) => write_report(report, out, err),
        Err(complaint) => complaint.write(program, err),
    }
}

fn write_report<R: Report, O: Sink, E: Sink>(
    report: &R,
    out: &mut O,
    err: &mut E,
) -> Result<(), WriteFault>
    ensures { WroteTexts (run_outcome (R.ran report.now)) (sinks (O.seen out.old) (E.seen err.old))
        (sinks (O.seen out.new) (E.seen err.new)) result }
{
    report.write_out(out)?;
    report.write_err(err)
}
