//! The lines of a run. No memory is taken.

ghost use Rattle.std.specs.Prelude.{◌≡◌, ◌≤◌, length};
ghost use Rattle.rcce_io.specs.Sending.{Sends};
ghost use Rattle.coll_program.specs.Texts.{line_front, more_word, got_line, lines_by, shown_of};
ghost use Rattle.coll_program.specs.Pieces.{dst_at};

use coll_more::More;
use coll_run::Member;
use line_cache::Never;
use rcce_io::Piece::{Number, Text};
use rcce_io::{Sink, WriteFault, write_all, write_hex, write_texts};

/// The word of a call.
fn kind_word(more: More) -> &'static str
    ensures gives { result.now ≡ more_word more }
{
    match more {
        More::Gather => "gather",
        More::Scatter => "scatter",
        More::Allgather => "allgather",
        More::Alltoall => "alltoall",
    }
}

/// Writes the front of a line: the rank and the call.
fn write_front<S: Sink>(sink: &mut S, more: More, rank: u8) -> Result<(), WriteFault>
    ensures { Sends (line_front more rank) (S.seen sink.old) (S.seen sink.new) result }
{
    write_texts(
        sink,
        &[
            Text("ue "),
            Number(rank as u64),
            Text(" "),
            Text(kind_word(more)),
            Text(" "),
        ],
    )
}

/// Writes the line of a rank that has got these bytes.
fn write_line<S: Sink>(sink: &mut S, more: More, rank: u8, bytes: &[u8]) -> Result<(), WriteFault>
    ensures { Sends (got_line more rank bytes.now) (S.seen sink.old) (S.seen sink.new) result }
{
    write_front(sink, more, rank)?;
    write_hex(sink, bytes)?;
    write_all(sink, b"\n")
}

/// How many ranks have a line: all of them, and of a gather the root alone.
fn shown(more: More, nue: u8) -> u8
    ensures gives { result ≡ shown_of more nue }
{
    if more == More::Gather { 1 } else { nue }
}

/// Writes the lines of all ranks that have one.
pub fn write_lines<S: Sink>(
    sink: &mut S,
    more: More,
    nue: u8,
    team: &[Member<Never>],
) -> Result<(), WriteFault>
    requires some { 1 ≤ nue }
    requires each { length team.now ≡ nue }
    ensures { Sends (lines_by more nue (dst_at team.now)) (S.seen sink.old) (S.seen sink.new) result }
{
    for number in 0..shown(more, nue) {
        write_line(sink, more, number, team[number as usize].dst())?;
    }
    Ok(())
}
