//! What the words of `chip_steps` ask for, and what was made.

ghost use Rattle.std.specs.Prelude.{◌≡◌, map, string_bytes, IfOk};
ghost use Rattle.steps_program.specs.Jobs.{steps_job_of, case_of, count_number, HasMadeBy};

use crate::accesses::Kind;
use crate::bare::bare;
use crate::ports::{by_port, by_seat};
use scc_mesh::{Chip, Token};
use std::alloc::{AllocError, Global};

/// The target of the accesses: a bare table, or a chip and a rank whose port is with the chip or in a thread.
#[derive(Clone, Copy)]
pub enum Way {
    Table,
    Port,
    Seat,
}

/// A kind of accesses, and their target.
#[derive(Clone, Copy)]
pub struct Case {
    pub way: Way,
    pub kind: Kind,
}

/// The requested accesses, and how many.
#[derive(Drop)]
pub struct Job {
    pub case: Case,
    pub count: u32,
}

/// Who made the accesses: nobody, a rank whose port is with its chip, or a rank whose port is in a thread.
#[derive(Drop)]
pub enum Made {
    OnTable,
    AtHome(Chip),
    Away(Chip, Token),
}

// The case that the word KIND names.
fn case_of(word: &str) -> Option<Case>
    ensures { result ≡ case_of word.now }
{
    let (way, kind) = match word {
        "table-load" => (Way::Table, Kind::Loads),
        "table-store" => (Way::Table, Kind::Stores),
        "port-load" => (Way::Port, Kind::Loads),
        "port-store" => (Way::Port, Kind::Stores),
        "seat-load" => (Way::Seat, Kind::Loads),
        "seat-store" => (Way::Seat, Kind::Stores),
        _ => return None,
    };
    Some(Case { way, kind })
}

// The number that the word COUNT writes.
fn number_of(word: &str) -> Option<u32>
    ensures { result ≡ count_number word.now }
{
    match word.parse::<u32>() {
        Ok(number) => Some(number),
        Err(_) => None,
    }
}

/// The job that the words KIND and COUNT ask for. Other words ask for nothing.
pub fn job_of(words: &[String]) -> Option<Job>
    ensures { result ≡ steps_job_of (map string_bytes words.now) }
{
    let [kind, count] = words else {
        return None;
    };
    let case = case_of(kind.as_str())?;
    let count = number_of(count.as_str())?;
    Some(Job { case, count })
}

/// Makes the accesses of a job.
pub fn make(alloc: Global, job: &Job) -> Result<Made, AllocError>
    ensures made { IfOk result (λ made. HasMadeBy job.now made) }
{
    match job.case.way {
        Way::Table => {
            bare(alloc, job.case.kind, job.count)?;
            Ok(Made::OnTable)
        }
        Way::Port => {
            let chip = by_port(alloc, job.case.kind, job.count)?;
            Ok(Made::AtHome(chip))
        }
        Way::Seat => {
            let away = by_seat(alloc, job.case.kind, job.count)?;
            Ok(Made::Away(away.chip, away.token))
        }
    }
}
