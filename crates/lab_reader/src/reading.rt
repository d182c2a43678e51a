//! Parses the lines of a lab's file, one after another.

ghost use Rattle.std.specs.Prelude.{◌≡◌, ◌<◌, ◌^◌, length, map};
ghost use Rattle.lab_reader.specs.Faults.{LabGives};
ghost use Rattle.lab_reader.specs.Reading.{lab_of, lab_lines_said, says_version};
ghost use Rattle.lab_reader.specs.declared.faults.LabStop.TheVariants.{Fault};

use crate::faults::{LabFault, LabKind, LabStop};
use crate::said::{action_said, core_said};
use crate::steps::Step;
use scc_base::CoreId;
use std::alloc::Global;
use std::marker::Model;
use texts::{Bytes, is_number, is_text, lines, number, words};

/// The most bytes of a lab's file: 1 MiB.
pub const MOST_LAB_BYTES: usize = 1_048_576;

/// Whether the words are `rcce lab 1`.
fn says_version(words: &[&[u8]]) -> bool
    ensures { result ≡ says_version (map (λ word. word.now) words.now) }
{
    match words {
        [first, second, version] => {
            *first == b"rcce".as_slice()
                && *second == b"lab".as_slice()
                && is_number(number(version), 1)
        }
        _ => false,
    }
}

fn fault(line: u32, kind: LabKind) -> LabStop
    ensures { result ≡ Fault (record { line = line; kind = kind }) }
{
    LabStop::Fault(LabFault { line, kind })
}

/// A lab of which some lines are read, and whether none of them had words.
#[derive(Drop)]
struct Reader {
    opening: bool,
    steps: Vec<Step>,
}

impl Model for Reader {
    ghost use Rattle.lab_reader.specs.Reading.{LabReading};

    ghost Value = { LabReading };

    ghost view = { λ r. record { opening = r.opening; steps = r.steps.items } };
}

impl Reader {
    ghost use Rattle.std.specs.Prelude.{◌≡◌, map};
    ghost use Rattle.lab_reader.specs.Faults.{LabGives};
    ghost use Rattle.lab_reader.specs.Reading.{core_by, lab_line_said, nothing_read, step_said, words_said};

    fn new(alloc: Global) -> Reader
        ensures { result ≡ nothing_read }
    {
        Reader {
            opening: true,
            steps: Vec::new(alloc),
        }
    }

    /// Adds a step of a core, by the words after `core C`.
    fn read_action(
        &mut self,
        alloc: Global,
        number: u32,
        line: &[u8],
        core: CoreId,
        words: &[&[u8]],
    ) -> Result<(), LabStop>
        ensures { LabGives (λ _. self.new) result (core_by number line.now self.old (map (λ word. word.now) words.now) (Some core)) }
    {
        let Some(action) = action_said(core, words) else {
            return Err(fault(number, LabKind::BadStep));
        };
        let text = Bytes::from_slice(alloc, line)?;
        self.opening = false;
        self.steps.push(Step {
            line: number,
            text,
            core,
            action,
        })?;
        Ok(())
    }

    /// Adds a step, by the words of its line.
    fn read_step(
        &mut self,
        alloc: Global,
        number: u32,
        line: &[u8],
        words: &[&[u8]],
    ) -> Result<(), LabStop>
        ensures { LabGives (λ _. self.new) result (step_said number line.now self.old (map (λ word. word.now) words.now)) }
    {
        match words {
            [word, core, rest @ ..] if *word == b"core".as_slice() => match core_said(core) {
                Some(core) => self.read_action(alloc, number, line, core, rest),
                None => Err(fault(number, LabKind::BadCore)),
            },
            _ => Err(fault(number, LabKind::BadCore)),
        }
    }

    fn read_words(
        &mut self,
        alloc: Global,
        number: u32,
        line: &[u8],
        words: &[&[u8]],
    ) -> Result<(), LabStop>
        ensures { LabGives (λ _. self.new) result (words_said number line.now self.old (map (λ word. word.now) words.now)) }
    {
        if words.is_empty() {
            return Ok(());
        }
        if self.opening && says_version(words) {
            self.opening = false;
            return Ok(());
        }
        self.read_step(alloc, number, line, words)
    }

    fn read_line(&mut self, alloc: Global, number: u32, line: &[u8]) -> Result<(), LabStop>
        ensures { LabGives (λ _. self.new) result (lab_line_said number self.old line.now) }
    {
        if !is_text(line) {
            return Err(fault(number, LabKind::NotText));
        }
        let words = words(alloc, line)?;
        self.read_words(alloc, number, line, words.as_slice())
    }
}

fn read_lines(alloc: Global, reader: &mut Reader, lines: &[&[u8]]) -> Result<(), LabStop>
    requires few { length lines.now < 2 ^ 32 }
    ensures { LabGives (λ _. reader.new) result (lab_lines_said 0 reader.old (map (λ line. line.now) lines.now)) }
{
    let mut number: u32 = 0;
    for line in lines {
        number += 1;
        reader.read_line(alloc, number, line)?;
    }
    Ok(())
}

/// Reads a lab, or returns its first fault with its line and kind.
pub fn read_lab(alloc: Global, bytes: &[u8]) -> Result<Vec<Step>, LabStop>
    ensures { LabGives (λ steps. steps.items) result (lab_of bytes.now) }
{
    if bytes.len() > MOST_LAB_BYTES {
        return Err(fault(0, LabKind::TooLong));
    }
    let lines = lines(alloc, bytes)?;
    let mut reader = Reader::new(alloc);
    read_lines(alloc, &mut reader, lines.as_slice())?;
    let Reader { steps, opening: _ } = reader;
    Ok(steps)
}
