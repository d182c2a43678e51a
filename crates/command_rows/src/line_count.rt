//! A test program: it reads one file, and prints how many lines end in it.

ghost use Rattle.std.specs.Prelude.{◌≡◌, ◌≤◌, codes, length, map, string_bytes};
ghost use Rattle.outcomes.specs.Coming.{Comes, IsMeant};
ghost use Rattle.outcomes.specs.Complaints.{outcome_of};
ghost use Rattle.outcomes.specs.Delivery.{sinks};
ghost use Rattle.outcomes.specs.Promises.{Promises};
ghost use Rattle.command_rows.specs.LineCount.{count_ran, count_file_plan, lines, lines_in, count_words_plan};

use outcomes::{Complaint, Report, Status, deliver, is_option, read_file};
use rcce_io::Piece::{Number, Text};
use rcce_io::{Files, Sink, WriteFault, write_texts};
use std::alloc::Global;
use std::marker::Model;

/// The longest file, in bytes.
const FILE_BYTES: usize = 5_000;

/// How many lines were counted.
#[derive(Drop)]
struct Count {
    lines: u32,
}

impl Model for Count {
    ghost use Rattle.std.specs.Prelude.{ℕ};

    ghost Value = { ℕ };

    ghost view = { λ count. count.lines };
}

impl Report for Count {
    ghost ran = { count_ran };

    fn is_finished(&self) -> bool {
        true
    }

    fn write_out<S: Sink>(&self, sink: &mut S) -> Result<(), WriteFault> {
        write_texts(sink, &[Number(self.lines as u64), Text("\n")])
    }

    fn write_err<S: Sink>(&self, sink: &mut S) -> Result<(), WriteFault> {
        Ok(())
    }
}

/// Counts the lines of the file that the words name.
pub fn line_count<F: Files, O: Sink, E: Sink>(
    alloc: Global,
    words: &[String],
    files: &mut F,
    out: &mut O,
    err: &mut E,
) -> Status
    ensures { Promises lines (map string_bytes words.now) (F.seen files.old) (F.seen files.new)
        (sinks (O.seen out.old) (E.seen err.old)) (sinks (O.seen out.new) (E.seen err.new)) result }
{
    let ending = count_words(alloc, words, files);
    deliver("lines", ending, out, err)
}

fn count_words<'a, F: Files>(
    alloc: Global,
    words: &'a [String],
    files: &mut F,
) -> Result<Count, Complaint<'a>>
    ensures { IsMeant (codes "lines") (count_words_plan (map string_bytes words.now)) (F.seen files.old) (F.seen files.new)
        (outcome_of (codes "lines") count_ran result) }
{
    match words {
        [file] if !is_option(file.as_str()) => count_file(alloc, files, file.as_str()),
        _ => Err(Complaint::words("words refused")),
    }
}

fn count_file<'a, F: Files>(
    alloc: Global,
    files: &mut F,
    file: &'a str,
) -> Result<Count, Complaint<'a>>
    ensures { Comes (codes "lines") (count_file_plan file.now) (F.seen files.old) (F.seen files.new)
        (outcome_of (codes "lines") count_ran result) }
{
    match read_file(alloc, files, file, FILE_BYTES) {
        Ok(bytes) => Ok(Count {
            lines: lines_in(bytes.as_slice()),
        }),
        Err(complaint) => Err(complaint),
    }
}

fn lines_in(bytes: &[u8]) -> u32
    requires { length bytes.now ≤ 5000 }
    ensures { result ≡ lines_in bytes.now }
{
    bytes.iter().filter(|b| **b == b'\n').count() as u32
}
