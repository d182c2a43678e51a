//! What turns came to.

ghost use Rattle.std.specs.Prelude.{◌≡◌};
ghost use Rattle.chip_run.specs.Crews.{end_by};
ghost use Rattle.chip_run.specs.Turns.{both_rest, rest_by};

use crate::ends::RunEnd;
use scc_base::Turn;

/// What one turn or several came to.
#[derive(Clone, Copy)]
pub enum Rest {
    /// Some rank moved.
    Moved,
    /// No rank moved, and all have finished.
    Finished,
    /// No rank moved, and one has not finished: it waits, or a mismatch stopped it.
    Unfinished,
}

impl Rest {
    /// What a turn with this answer came to.
    pub fn of(answer: &Turn, stopped: bool) -> Rest
        ensures gives { result ≡ rest_by answer.now stopped }
    {
        match answer {
            Turn::Moved => Rest::Moved,
            Turn::Waiting(_) => Rest::Unfinished,
            Turn::Done => {
                if stopped {
                    Rest::Unfinished
                } else {
                    Rest::Finished
                }
            }
        }
    }

    /// What these turns and the next ones came to together.
    pub fn and(self, next: Rest) -> Rest
        ensures gives { result ≡ both_rest self next }
    {
        match self {
            Rest::Moved => Rest::Moved,
            Rest::Finished => next,
            Rest::Unfinished => match next {
                Rest::Moved => Rest::Moved,
                Rest::Finished | Rest::Unfinished => Rest::Unfinished,
            },
        }
    }

    /// The end of a run whose last sweep came to this, and None where a rank moved in it.
    pub fn end(self) -> Option<RunEnd>
        ensures gives { result ≡ end_by self }
    {
        match self {
            Rest::Moved => None,
            Rest::Finished => Some(RunEnd::Finished),
            Rest::Unfinished => Some(RunEnd::Stuck),
        }
    }
}
