//! The words after the program's name.

ghost use Rattle.std.specs.Prelude.{◌≡◌, ◌≤◌, ◌∷◌, [], map, string_bytes, IfSome};
ghost use Rattle.coll_program.specs.Program.{coll_job_of, more_of};

use coll_more::More;
use outcomes::ue_count;
use texts::number_in;

/// What the words ask for: how many ranks, which call, and the length of a piece.
#[derive(Clone, Copy)]
pub struct Job {
    pub nue: u8,
    pub more: More,
    pub len: u32,
}

/// The call of a word.
fn more_of(word: &str) -> Option<More>
    ensures gives { result ≡ more_of word.now }
{
    match word {
        "gather" => Some(More::Gather),
        "scatter" => Some(More::Scatter),
        "allgather" => Some(More::Allgather),
        "alltoall" => Some(More::Alltoall),
        _ => None,
    }
}

/// What three words ask for.
fn job_by(count: &str, kind: &str, len: &str) -> Option<Job>
    ensures gives { result ≡ coll_job_of (count.now ∷ kind.now ∷ len.now ∷ []) }
    ensures some { IfSome result (λ job. 1 ≤ job.nue) }
    ensures most { IfSome result (λ job. job.nue ≤ 48) }
    ensures short { IfSome result (λ job. job.len ≤ 1024) }
{
    Some(Job {
        nue: ue_count(count)?,
        more: more_of(kind)?,
        len: number_in(len.as_bytes(), 0, 1024)?,
    })
}

/// What the words ask for, if they are `N KIND LEN`. No memory is taken.
pub fn job_of(words: &[String]) -> Option<Job>
    ensures gives { result ≡ coll_job_of (map string_bytes words.now) }
    ensures some { IfSome result (λ job. 1 ≤ job.nue) }
    ensures most { IfSome result (λ job. job.nue ≤ 48) }
    ensures short { IfSome result (λ job. job.len ≤ 1024) }
{
    match words {
        [count, kind, len] => job_by(count.as_str(), kind.as_str(), len.as_str()),
        _ => None,
    }
}
