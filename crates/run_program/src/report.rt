//! The lines of a run that is over. No memory is taken.

ghost use Rattle.std.specs.Prelude.{◌≡◌, ◌<◌, length};
ghost use Rattle.rcce_io.specs.Sending.{Sends};
ghost use Rattle.plain_meaning.specs.Ends.{ended_at};
ghost use Rattle.run_program.specs.Reports.{lines_by_rank, printed_text, unfinished_text};

use crate::endings::Endings;
use crate::items::ItemLine;
use crate::lines::write_end;
use rcce_io::{Buffer, Sink, WriteFault};
use scc_base::Rank;
use script_rules::Scripts;

/// Writes what the ranks of a script printed, by rank and in the order of printing.
pub fn write_printed<T: Endings, S: Sink>(
    sink: &mut S,
    scripts: &Scripts,
    run: &T,
) -> Result<(), WriteFault>
    requires ranked { length (T.ended run.now) ≡ scripts.now.nue }
    ensures { Sends (lines_by_rank (printed_text scripts.now.names) 0 (T.ended run.now)) (S.seen sink.old) (S.seen sink.new) result }
{
    for number in 0..scripts.nue() {
        write_items(sink, scripts, run, Rank::of(number))?;
    }
    Ok(())
}

/// Writes what one rank printed.
fn write_items<T: Endings, S: Sink>(
    sink: &mut S,
    scripts: &Scripts,
    run: &T,
    rank: Rank,
) -> Result<(), WriteFault>
    requires { rank < length (T.ended run.now) }
    ensures { Sends (printed_text scripts.now.names rank (ended_at (T.ended run.now) rank)) (S.seen sink.old) (S.seen sink.new) result }
{
    let mut buffer = Buffer::new();
    for i in 0..run.items(rank) {
        let item = run.item(rank, i);
        let line = ItemLine {
            rank,
            name: scripts.name(item.reg()),
            item: &item,
        };
        buffer.gather(sink, &line)?;
    }
    buffer.flush(sink)
}

/// Writes where the ranks of a script stand that have not finished, by rank.
pub fn write_unfinished<T: Endings, S: Sink>(
    sink: &mut S,
    scripts: &Scripts,
    run: &T,
) -> Result<(), WriteFault>
    requires ranked { length (T.ended run.now) ≡ scripts.now.nue }
    ensures { Sends (lines_by_rank unfinished_text 0 (T.ended run.now)) (S.seen sink.old) (S.seen sink.new) result }
{
    for number in 0..scripts.nue() {
        let rank = Rank::of(number);
        write_end(sink, rank, &run.end(rank))?;
    }
    Ok(())
}
