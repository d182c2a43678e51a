//! A row of turns of one worker, in the thread that makes its rank's events.

ghost use Rattle.std.specs.Prelude.{◌≡◌, ℕ, ◌<◌, ◌≤◌};
ghost use Rattle.chip_run.specs.Away.{TimeSlice, TookSlice, failed_by};
ghost use Rattle.chip_run.specs.Marks.{Yields};

use crate::marks::Marks;
use crate::rolls::Roll;
use crate::workers::Worker;
use scc_base::Turn;
use scc_mesh::{Token, Words};
use scc_proto::Port;

/// How many vain turns in a row end it.
pub(crate) const MOST_FAILED: usize = 1000;

/// How many turns in a row were vain after one more.
pub(crate) fn failed_after(answer: &Turn, failed: usize) -> usize
    requires below { failed < 1000 }
    ensures gives { result ≡ failed_by 1000 answer.now failed }
{
    match answer {
        Turn::Moved => 0,
        Turn::Waiting(_) => failed + 1,
        Turn::Done => MOST_FAILED,
    }
}

/// Turns of a worker, until it is over or has waited in a thousand turns in a row.
pub(crate) fn slice<W: Worker, P: Port, M: Marks>(worker: &mut W, port: P, roll: &Roll<M>) -> P
    requires ties { W.behaviour.tied worker.old (P.sight port).seat.setup (P.sight port).seat.rank (P.sight port).events }
    ensures ties { W.behaviour.tied worker.new (P.sight result).seat.setup (P.sight result).seat.rank (P.sight result).events }
    ensures slice { TimeSlice W.behaviour (P.stepped (P.sight port).seat) worker.old (P.sight port) worker.new (P.sight result) }
    // It gave way behind its last turn, as behind each one.
    ensures yielded_last { (failed : ℕ) × (1000 ≤ failed) × Yields M.shown roll.now.asked roll.now.spin_limit failed }
{
    let mut port = port;
    let mut failed = 0;
    while failed < MOST_FAILED {
        let (answer, back) = worker.batch(port);
        port = back;
        failed = failed_after(&answer, failed);
        roll.yield_after(failed);
    }
    port
}

/// Turns of a member whose rank is away, through a port of its own, until it is over or has waited in a thousand turns
/// in a row.
pub(crate) fn slice_in_thread<W: Worker, M: Marks>(
    words: Words<'_>,
    token: Token,
    worker: &mut W,
    roll: &Roll<M>,
) -> Token
    requires of_chip { token.table ≡ words.space.now.table }
    requires ties { W.behaviour.tied worker.old words.space.now.about token.rank token.events }
    ensures table { result.table ≡ token.table }
    ensures rank { result.rank ≡ token.rank }
    ensures ties { W.behaviour.tied worker.new words.entry.space.now.about result.rank result.events }
    ensures slice { TookSlice W.behaviour words.entry.space.now.about token.rank worker.old worker.new }
{
    let port = slice(worker, words.port(token), roll);
    port.into_token()
}
