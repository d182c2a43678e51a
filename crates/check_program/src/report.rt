//! What was found of a script, and its lines on out.

ghost use Rattle.std.specs.Prelude.{◌≡◌, map, IfOk};
ghost use Rattle.rcce_io.specs.Sending.{Sends, joined_texts};
ghost use Rattle.script_plain.specs.Matches.{plain_matches};
ghost use Rattle.plain_meaning.specs.Meaning.{keys_of, plain_ends};
ghost use Rattle.check_program.specs.Program.{check_ran_of};
ghost use Rattle.check_program.specs.Reports.{report_ran};
ghost use Rattle.check_program.specs.Texts.{match_line};

use crate::lines::MatchLine;
use crate::trouble::{Found, all_found};
use rcce_io::{Buffer, Sink, WriteFault, write_texts};
use script_plain::{History, Matches, have_finished, plain_history};
use script_rules::Scripts;
use std::alloc::{AllocError, Global};

/// Whether each rank has finished, the messages that came, and what is the matter with each rank.
#[derive(Drop)]
pub struct Report {
    pub finished: bool,
    pub matches: Matches,
    pub found: Vec<Found>,
}

impl outcomes::Report for Report {
    ghost use Rattle.check_program.specs.Reports.{report_ran};

    ghost ran = { report_ran };

    fn is_finished(&self) -> bool {
        self.finished
    }

    fn write_out<S: Sink>(&self, sink: &mut S) -> Result<(), WriteFault> {
        write_matches(sink, &self.matches)?;
        write_texts(sink, self.found.as_slice())
    }

    fn write_err<S: Sink>(&self, sink: &mut S) -> Result<(), WriteFault> {
        Ok(())
    }
}

/// Writes a line for each message.
fn write_matches<S: Sink>(sink: &mut S, matches: &Matches) -> Result<(), WriteFault>
    ensures { Sends (joined_texts (map match_line matches.now)) (S.seen sink.old) (S.seen sink.new) result }
{
    let mut buffer = Buffer::new();
    for i in 0..matches.len() {
        let one = matches.get(i);
        let line = MatchLine { one };
        buffer.gather(sink, &line)?;
    }
    buffer.flush(sink)
}

/// What is found of a script: its messages, and its end.
pub fn report_of(alloc: Global, script: &Scripts) -> Result<Report, AllocError>
    ensures { IfOk result (λ report. report_ran report
        ≡ check_ran_of (keys_of script.now) (plain_matches script.now) (plain_ends script.now)) }
{
    let History { matches, end } = plain_history(alloc, script)?;
    let found = all_found(alloc, &end, script)?;
    Ok(Report {
        finished: have_finished(&end, script),
        matches,
        found,
    })
}
