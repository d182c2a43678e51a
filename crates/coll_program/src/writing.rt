//! The texts of a report.

use crate::lines::write_lines;
use crate::report::Report;
use rcce_io::{Sink, WriteFault};

impl outcomes::Report for Report {
    ghost use Rattle.coll_program.specs.Reports.{coll_report_ran};

    ghost ran = { coll_report_ran };

    fn is_finished(&self) -> bool {
        true
    }

    fn write_out<S: Sink>(&self, sink: &mut S) -> Result<(), WriteFault> {
        write_lines(sink, self.job.more, self.job.nue, self.team.as_slice())
    }

    fn write_err<S: Sink>(&self, _sink: &mut S) -> Result<(), WriteFault> {
        Ok(())
    }
}
