//! What a run came to.

ghost use Rattle.coll_program.specs.Pieces.{IsReport};

use crate::command::Job;
use coll_run::Member;
use line_cache::Never;

/// The job, and its ranks with what each has got.
#[derive(Drop)]
pub struct Report {
    pub job: Job,
    pub team: Vec<Member<Never>>,
    ghost fits: { IsReport job team.items },
}
