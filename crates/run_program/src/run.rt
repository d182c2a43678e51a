//! A run that is over, and what it writes.

use crate::counts::{printed_in, sends_in, sent_bytes_in, write_counts};
use crate::endings::Endings;
use crate::report::{write_printed, write_unfinished};
use chip_run::RunEnd;
use line_cache::Choice;
use rcce_io::{Sink, WriteFault};
use rcce_run::Crew;
use scc_base::Rank;
use script_machine::{PrintedItem, UeEnd};
use script_rules::Scripts;
use std::marker::Model;

/// A script whose units of execution have come to its plain end, and the number that the script was made of, if it was. It is
/// seen as both.
#[derive(Drop)]
pub struct Run<'s> {
    scripts: &'s Scripts,
    crew: Vec<Crew<'s, Choice>>,
    end: RunEnd,
    seed: Option<u32>,
}

impl<'s> Model for Run<'s> {
    ghost use Rattle.rcce_run.specs.Crews.{EndsAs};
    ghost use Rattle.run_program.specs.Reports.{Shown};
    ghost use Rattle.run_program.specs.Runs.{HaveEnded, HaveSent, IsMadeOf};

    ghost Value = { Shown };

    ghost view = { λ r. record { script = r.scripts.now; seed = r.seed } };

    ghost invariant = { λ r. HaveEnded r.scripts.now r.crew.items × HaveSent r.scripts.now r.crew.items
        × EndsAs r.end r.scripts.now × IsMadeOf r.scripts.now r.seed };
}

impl<'s> Run<'s> {
    ghost use Rattle.std.specs.Prelude.{◌≡◌, Some};
    ghost use Rattle.rcce_io.specs.Sending.{Sends};
    ghost use Rattle.rcce_run.specs.Crews.{EndsAs};
    ghost use Rattle.script_gen.specs.Outcome.{script_line};
    ghost use Rattle.run_program.specs.Runs.{HaveEnded, HaveSent, IsMadeOf};

    /// A run of a script that ended so.
    pub fn new(
        scripts: &'s Scripts,
        crew: Vec<Crew<'s, Choice>>,
        end: RunEnd,
        seed: Option<u32>,
    ) -> Run<'s>
        requires ended { HaveEnded scripts.now crew.items }
        requires sent { HaveSent scripts.now crew.items }
        requires answer { EndsAs end scripts.now }
        requires made { IsMadeOf scripts.now seed }
        ensures { result ≡ record { script = scripts.now; seed = seed } }
    {
        Run {
            scripts,
            crew,
            end,
            seed,
        }
    }

    /// Writes the line of a run whose script was made of this number.
    fn write_line<S: Sink>(&self, sink: &mut S, seed: u32) -> Result<(), WriteFault>
        requires { self.now.seed ≡ Some seed }
        ensures { Sends (script_line seed self.now.script) (S.seen sink.old) (S.seen sink.new) result }
    {
        self.scripts.acceptance_law();
        let sends = sends_in(self.scripts, self.crew.as_slice());
        let bytes = sent_bytes_in(self.scripts, self.crew.as_slice());
        let sum = printed_in(self.scripts, self);
        write_counts(sink, self.scripts.nue(), seed, sends, bytes, sum)
    }
}

impl<'s> Endings for Run<'s> {
    ghost use Rattle.plain_meaning.specs.Meaning.{plain_ends};

    ghost ended = { λ r. plain_ends r.script };

    fn end(&self, rank: Rank) -> UeEnd {
        self.crew[rank.number() as usize].worker.end()
    }

    fn items(&self, rank: Rank) -> usize {
        self.crew[rank.number() as usize].worker.items()
    }

    fn item(&self, rank: Rank, i: usize) -> PrintedItem<'_> {
        self.crew[rank.number() as usize].worker.item(i)
    }
}

impl<'s> outcomes::Report for Run<'s> {
    ghost use Rattle.run_program.specs.Reports.{shown_ran};

    ghost ran = { shown_ran };

    fn is_finished(&self) -> bool {
        match self.end {
            RunEnd::Finished => true,
            RunEnd::Stuck => false,
        }
    }

    fn write_out<S: Sink>(&self, sink: &mut S) -> Result<(), WriteFault> {
        match self.seed {
            Some(seed) => self.write_line(sink, seed),
            None => write_printed(sink, self.scripts, self),
        }
    }

    fn write_err<S: Sink>(&self, sink: &mut S) -> Result<(), WriteFault> {
        write_unfinished(sink, self.scripts, self)
    }
}
