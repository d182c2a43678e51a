//! The top call of a separate program over the library. `rcce_io` has its files and sinks. `outcomes` reads the file, and has the statuses
//! and what is written at the end. `lab_reader` has the grammar. `lab_run` runs the steps, by the cores of `put_get` and the chip of
//! `chip_memory`.

ghost use Rattle.std.specs.Prelude.{◌≡◌, ◌≤◌, codes, length, map, string_bytes, Some, None, Ok};
ghost use Rattle.rcce_io.specs.Files.{FilesView};
ghost use Rattle.rcce_io.specs.Reading.{ReadsAll};
ghost use Rattle.outcomes.specs.Coming.{Comes, IsMeant};
ghost use Rattle.outcomes.specs.Complaints.{outcome_of};
ghost use Rattle.outcomes.specs.Delivery.{sinks};
ghost use Rattle.outcomes.specs.Numbers.{file_named};
ghost use Rattle.outcomes.specs.Promises.{EndsWith, Promises};
ghost use Rattle.rcce_words.specs.ScriptWords.{plan_of};
ghost use Rattle.lab_reader.specs.Reading.{most_lab_bytes};
ghost use Rattle.lab_program.specs.History.{LabTells};
ghost use Rattle.lab_program.specs.Program.{lab_bytes_plan, lab_file_plan, lab_ran, rccelab};

use crate::report::Lab;
use lab_reader::{LabStop, MOST_LAB_BYTES, read_lab};
use lab_run::{LabLeft, run_lab};
use outcomes::{Complaint, Status, deliver, file_named, read_file};
use rcce_io::{Files, Sink};
use std::alloc::Global;

/// Runs the steps of a lab in the order of its file, and prints their results. The words are those after the program's name: `LAB`.
///
/// It checks the words, the reading of the file and its grammar in this order, and reports the first fault. The reading, the grammar and
/// the steps take their memory before anything is printed. If a sink fails, neither sink is written to again. The chip and the cores that
/// made the steps are left.
pub fn rccelab<F: Files, O: Sink, E: Sink>(
    alloc: Global,
    words: &[String],
    files: &mut F,
    out: &mut O,
    err: &mut E,
    left: &mut Option<LabLeft>,
) -> Status
    requires blank { left.old ≡ None }
    // What is printed and the status equal those of the lab's meaning. Each fact that is promised has a name, among them `output`, the
    // output theorem.
    ensures promises { Promises rccelab (map string_bytes words.now) (F.seen files.old) (F.seen files.new)
        (sinks (O.seen out.old) (E.seen err.old)) (sinks (O.seen out.new) (E.seen err.new)) result }
    // With the statuses 0 and 3, the chip that is left made exactly the printed accesses, each once and in order. Each was a step of its
    // words, and its rank's record permitted it. The cores hold what the lab's cores hold at its end. The lab is parsed from the bytes that
    // were read, with no fault. If the files report their contents, these are the file's bytes. With 1, 2, 4 and 5 nothing is left. If a
    // write failed, what is left is that of the outcome that was being written.
    ensures history { EndsWith (LabTells (F.seen files.old) (F.seen files.new) (file_named (map string_bytes words.now)) left.new)
        rccelab (map string_bytes words.now) (F.seen files.old) (F.seen files.new)
        (sinks (O.seen out.old) (E.seen err.old)) (sinks (O.seen out.new) (E.seen err.new)) result }
{
    let ending = run_words(alloc, words, files, left);
    deliver("rccelab", ending, out, err)
}

fn run_words<'a, F: Files>(
    alloc: Global,
    words: &'a [String],
    files: &mut F,
    left: &mut Option<LabLeft>,
) -> Result<Lab, Complaint<'a>>
    requires blank { left.old ≡ None }
    ensures meant { IsMeant (codes "rccelab") (plan_of lab_file_plan (file_named (map string_bytes words.now)))
        (F.seen files.old) (F.seen files.new) (outcome_of (codes "rccelab") lab_ran result) }
    ensures tells { LabTells (F.seen files.old) (F.seen files.new) (file_named (map string_bytes words.now)) left.new
        (outcome_of (codes "rccelab") lab_ran result) }
{
    match file_named(words) {
        Some(file) => run_file(alloc, files, file, left),
        None => Err(Complaint::words("words refused")),
    }
}

fn run_file<'a, F: Files>(
    alloc: Global,
    files: &mut F,
    file: &'a str,
    left: &mut Option<LabLeft>,
) -> Result<Lab, Complaint<'a>>
    requires blank { left.old ≡ None }
    ensures comes { Comes (codes "rccelab") (lab_file_plan file.now) (F.seen files.old) (F.seen files.new)
        (outcome_of (codes "rccelab") lab_ran result) }
    ensures tells { LabTells (F.seen files.old) (F.seen files.new) (Some file.now) left.new
        (outcome_of (codes "rccelab") lab_ran result) }
{
    match read_file(alloc, files, file, MOST_LAB_BYTES) {
        Ok(bytes) => run_bytes(alloc, file, bytes.as_slice(), left),
        Err(complaint) => Err(complaint),
    }
}

fn run_bytes<'a>(
    alloc: Global,
    file: &'a str,
    bytes: &[u8],
    left: &mut Option<LabLeft>,
) -> Result<Lab, Complaint<'a>>
    requires blank { left.old ≡ None }
    requires few { length bytes.now ≤ most_lab_bytes }
    ensures comes { (files : FilesView) → Comes (codes "rccelab") (lab_bytes_plan file.now bytes.now) files files
        (outcome_of (codes "rccelab") lab_ran result) }
    ensures tells { (before after : FilesView) → ReadsAll file.now most_lab_bytes before after (Ok bytes.now)
        → LabTells before after (Some file.now) left.new (outcome_of (codes "rccelab") lab_ran result) }
{
    match read_lab(alloc, bytes) {
        Ok(steps) => match run_lab(alloc, steps.as_slice()) {
            Ok(run) => {
                *left = Some(run.left);
                Ok(Lab {
                    said: run.said,
                    stopped: run.stopped,
                })
            }
            Err(_) => Err(Complaint::Memory),
        },
        Err(LabStop::Fault(fault)) => Err(Complaint::Refused {
            file,
            line: fault.line,
            kind: fault.kind.name(),
        }),
        Err(LabStop::Memory) => Err(Complaint::Memory),
    }
}
