//! What a team of ranks does in a test, as a table states it.

use chip_teams::{Player, Team};
use scc_base::{CoreId, Place, Spot, Turn};

/// What a rank's turn must answer.
pub(crate) enum Answer {
    Passes,
    // Anything except that it passes.
    Stays,
    Moves,
    Waits,
    // That it waits at the first bit of the first word of this line on rank 1's core.
    WaitsAt(u8),
}

/// What a team does.
pub(crate) enum Step {
    // At most so many rounds of this order, and whether all are done in them.
    Rounds(&'static [usize], u32, bool),
    // A turn of this rank.
    Turn(usize, Answer),
}

fn is_answer(turn: Option<Turn>, answer: &Answer) -> bool {
    match answer {
        Answer::Passes => turn == Some(Turn::Done),
        Answer::Stays => turn != Some(Turn::Done),
        Answer::Moves => turn == Some(Turn::Moved),
        Answer::Waits => matches!(turn, Some(Turn::Waiting(_))),
        Answer::WaitsAt(line) => {
            let place = Place::new(CoreId::of(46), *line, 0);
            turn == Some(Turn::Waiting(Spot::Flag { place, bit: 0 }))
        }
    }
}

fn takes_step<M: Player + Drop>(team: &mut Team<M>, step: &Step) -> bool {
    match step {
        Step::Rounds(order, most, done) => (team.rounds(order, *most) > 0) == *done,
        Step::Turn(at, answer) => is_answer(team.turn(*at), answer),
    }
}

/// Whether a team takes these steps, one after the other.
pub(crate) fn takes<M: Player + Drop>(team: &mut Team<M>, steps: &[Step]) -> bool {
    for step in steps {
        if !takes_step(team, step) {
            return false;
        }
    }
    true
}
