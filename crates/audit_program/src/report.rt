//! A verdict, and its line on out.

use outcomes::Report;
use rcce_audit::Verdict;
use rcce_io::Piece::{Number, Text};
use rcce_io::{Sink, WriteFault, write_all, write_texts};

/// What the audit of a log came to.
#[derive(Clone, Copy)]
pub struct Judged {
    pub verdict: Verdict,
}

impl Report for Judged {
    ghost use Rattle.audit_program.specs.Program.{judged_ran};

    ghost ran = { judged_ran };

    fn is_finished(&self) -> bool {
        matches!(self.verdict, Verdict::Yes)
    }

    fn write_out<S: Sink>(&self, sink: &mut S) -> Result<(), WriteFault> {
        match self.verdict {
            Verdict::Yes => write_all(sink, b"legal\n"),
            Verdict::No { rank, call } => write_texts(
                sink,
                &[
                    Text("not legal: ue "),
                    Number(rank.number() as u64),
                    Text(" call "),
                    Number(call as u64),
                    Text("\n"),
                ],
            ),
        }
    }

    fn write_err<S: Sink>(&self, sink: &mut S) -> Result<(), WriteFault> {
        Ok(())
    }
}
