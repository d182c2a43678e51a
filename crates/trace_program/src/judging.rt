//! The judging of the events of a trace, one after the other.

ghost use Rattle.std.specs.Prelude.{◌≡◌, ◌<◌, ◌≤◌};
ghost use Rattle.trace_program.specs.Lists.{first_event_line};

use crate::finished::FinishedCalls;
use scc_base::{CommRule, Rank, Setup};
use std::alloc::{AllocError, Global};
use trace_judge::{Judge, Refusal};
use trace_text::TraceEvent;

/// The line of the first event: behind the first line and the communicators that are splits.
fn first_event_line(setup: &Setup) -> usize
    ensures gives { result ≡ first_event_line setup.now }
    ensures few { result ≤ 18 }
{
    let mut line = 2usize;
    for comm in 0..16u8 {
        match setup.rule(comm) {
            CommRule::Mod { .. } | CommRule::Div { .. } => line += 1,
            CommRule::Absent | CommRule::World => {}
        }
    }
    line
}

/// Does nothing. It tells a proof that a rank is below 48.
fn known(rank: Rank)
    ensures below { rank < 48 }
{
    let _ = rank.number();
}

/// An event that was refused: its line, its rank, and why.
#[derive(Drop)]
pub struct RefusedEvent {
    pub line: usize,
    pub rank: Rank,
    pub why: Refusal,
}

/// A judge, the line of the first event, and how many events it has taken.
#[derive(Drop)]
pub(crate) struct Trial {
    judge: Judge,
    first: usize,
    number: usize,
    ghost few: { first ≤ 18 },
}

impl Trial {
    ghost use Rattle.std.specs.Prelude.{◌≡◌, ◌<◌, ◌+◌, ◌^◌, [], Bool, ℕ, IfOk};
    ghost use Rattle.trace_program.specs.Hearings.{IsNext, IsTried, TriedBy};
    ghost use Rattle.trace_text.specs.Grammar.{TraceReading, event_added};
    ghost use Rattle.trace_text.specs.Views.{rank_event};

    /// The trial of a chip on which no event was made.
    pub(crate) fn new(alloc: Global, setup: Setup) -> Result<Trial, AllocError>
        ensures tried { IfOk result (λ trial. (r : TraceReading) → setup ≡ r.trace.setup → r.trace.events ≡ [] → IsTried trial r) }
        ensures number { IfOk result (λ trial. trial.number ≡ 0) }
    {
        let first = first_event_line(&setup);
        let judge = Judge::new(alloc, setup)?;
        Ok(Trial {
            judge,
            first,
            number: 0,
        })
    }

    /// Takes the next event, and keeps the call that is finished by it; or it is refused.
    pub(crate) fn take(
        &mut self,
        alloc: Global,
        finished: &mut FinishedCalls,
        made: &TraceEvent,
    ) -> Result<Option<RefusedEvent>, AllocError>
        requires next { (asked : Bool) × (r : TraceReading) × IsNext asked self.old finished.old r made.now }
        requires few { self.old.number < 2 ^ 32 }
        ensures tried { IfOk result (λ refused. (asked : Bool) (r : TraceReading) → IsNext asked self.old finished.old r made.now
            → TriedBy asked self.new finished.new (event_added r (rank_event made.now)) refused) }
        ensures number { IfOk result (λ _. self.new.number ≡ self.old.number + 1) }
    {
        known(made.rank);
        let line = self.first + self.number;
        self.number += 1;
        match self.judge.take(made.rank, &made.event) {
            Ok(Some(call)) => {
                finished.keep(alloc, made.rank, call, self.judge.bytes(made.rank))?;
                Ok(None)
            }
            Ok(None) => Ok(None),
            Err(why) => Ok(Some(RefusedEvent {
                line,
                rank: made.rank,
                why,
            })),
        }
    }
}
