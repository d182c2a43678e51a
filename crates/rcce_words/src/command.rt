//! The words after the launcher's name.

ghost use Rattle.std.specs.Prelude.{◌≡◌, ◌+◌, ℕ, List, IfOk, false, map, option_map, string_bytes};
ghost use Rattle.outcomes.specs.Complaints.{complaint_outcome};
ghost use Rattle.outcomes.specs.Outcomes.{words_refused};
ghost use Rattle.rcce_words.specs.CommandLine.{IsInRange, IsSeedInRange, IsSaidInRange, first_of, job_of, nothing, parse_command, scan, work_of};
ghost use Rattle.rcce_words.specs.FaultTexts.{fault_text, word_numbered};

use crate::flags::takes_value;
use crate::said::Said;
use outcomes::Complaint;

/// What is to run: a script's file, by the number of the word that names it, or a script that is made from a seed.
#[derive(Clone, Copy, PartialEq, Eq)]
pub enum Work {
    Script(usize),
    Gen(u32),
}

/// What the words ask for. Words are numbered from 0.
#[derive(Clone, Copy, PartialEq, Eq)]
pub struct Job {
    /// The number of units of execution, 1 to 48.
    pub nue: u8,
    /// The word that names the host file.
    pub hosts: Option<usize>,
    /// The seed of the evictors.
    pub evict: Option<u32>,
    /// The seed of a run on one thread.
    pub serial: Option<u32>,
    /// Whether the layout has bit flags.
    pub bits: bool,
    pub work: Work,
}

/// Why the words are refused. Words are numbered from 0.
#[derive(Clone, Copy, PartialEq, Eq)]
pub enum WordFault {
    /// There is no `-nue`.
    NoNue,
    /// There is neither a script nor `-gen`.
    NoScript,
    /// A word begins with `-` and is no option.
    Unknown { at: usize },
    /// An option came before.
    Twice { at: usize },
    /// No value stands behind an option.
    NoValue { at: usize },
    /// The value behind an option is no number of its range.
    BadNumber { at: usize },
    /// A word cannot stand beside one before it.
    Extra { at: usize },
}

/// The first of the words, if there is one.
fn first_of(words: &[String]) -> Option<&str>
    ensures { option_map (λ word. word.now) result ≡ first_of (map string_bytes words.now) }
{
    match words {
        [word, ..] => Some(word.as_str()),
        [] => None,
    }
}

/// What the words say, from the first one on.
fn scan(words: &[String]) -> Result<Said, WordFault>
    ensures gives { result ≡ scan 0 false nothing (map string_bytes words.now) }
    ensures within { IfOk result IsSaidInRange }
{
    let mut said = Said::nothing();
    let mut at: usize = 0;
    let mut is_value = false;
    let mut left = words;
    'words: while let [word, afterwards @ ..] = left {
        if is_value {
            is_value = false;
        } else {
            said = said.take(at, word.as_str(), first_of(afterwards))?;
            is_value = takes_value(word.as_str());
        }
        at += 1;
        left = afterwards;
    }
    Ok(said)
}

fn work_of(said: Said) -> Result<Work, WordFault>
    requires { IsSaidInRange said }
    ensures gives { result ≡ work_of said.script said.seed }
    ensures within { IfOk result IsSeedInRange }
{
    match (said.script, said.seed) {
        (Some(script), _) => Ok(Work::Script(script)),
        (None, Some(seed)) => Ok(Work::Gen(seed)),
        (None, None) => Err(WordFault::NoScript),
    }
}

fn job_of(said: Said) -> Result<Job, WordFault>
    requires { IsSaidInRange said }
    ensures gives { result ≡ job_of said }
    ensures within { IfOk result IsInRange }
{
    let Some(nue) = said.nue else {
        return Err(WordFault::NoNue);
    };
    let work = work_of(said)?;
    Ok(Job {
        nue: nue as u8,
        hosts: said.hosts,
        evict: said.evict,
        serial: said.serial,
        bits: said.bits,
        work,
    })
}

/// What the words after the launcher's name ask for, or the first fault in them. No memory is taken.
pub fn parse_words(words: &[String]) -> Result<Job, WordFault>
    ensures gives { result ≡ parse_command (map string_bytes words.now) }
    ensures within { IfOk result IsInRange }
{
    job_of(scan(words)?)
}

/// A word by its number, counted from 0, and nothing past the last one.
pub fn word_at(words: &[String], at: usize) -> &str
    ensures { result.now ≡ word_numbered (map string_bytes words.now) at }
{
    match words.get(at) {
        Some(word) => word.as_str(),
        None => "",
    }
}

/// The word behind one, and nothing behind the last one.
fn word_after(words: &[String], at: usize) -> &str
    ensures { result.now ≡ word_numbered (map string_bytes words.now) (at + 1) }
{
    match at.checked_add(1) {
        Some(next) => word_at(words, next),
        None => "",
    }
}

/// The complaint that says why these words are refused.
pub fn complaint(words: &[String], fault: WordFault) -> Complaint<'_>
    ensures gives { (program : List ℕ)
        → complaint_outcome program result ≡ words_refused program (fault_text (map string_bytes words.now) fault) }
{
    let (text, at) = match fault {
        WordFault::NoNue => return Complaint::words("-nue is missing"),
        WordFault::NoScript => return Complaint::words("script missing"),
        WordFault::BadNumber { at } => {
            return Complaint::Words {
                fault: "bad number after ",
                word: word_at(words, at),
                afterwards: ": ",
                value: word_after(words, at),
            };
        }
        WordFault::Unknown { at } => ("unknown word: ", at),
        WordFault::Twice { at } => ("given twice: ", at),
        WordFault::NoValue { at } => ("value missing after ", at),
        WordFault::Extra { at } => ("word out of place: ", at),
    };
    Complaint::Words {
        fault: text,
        word: word_at(words, at),
        afterwards: "",
        value: "",
    }
}
