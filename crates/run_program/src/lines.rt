//! The lines of units of execution that have not finished: where each stands.

ghost use Rattle.std.specs.Prelude.{◌≡◌, [], ◌∷◌, codes, decimal};
ghost use Rattle.rcce_io.specs.Sending.{Sends};
ghost use Rattle.plain_meaning.specs.Ends.{is_rank_finished};
ghost use Rattle.run_program.specs.Reports.{end_text};
ghost use Rattle.run_program.specs.Texts.{call_pieces, message_pieces, mismatch_line, waiting_line};

use rcce_io::Piece::{Number, Text};
use rcce_io::{Sink, WriteFault, write_texts};
use scc_base::{Call, Head, Rank};
use script_machine::UeEnd;

/// Whether a unit of execution has finished.
pub fn is_finished(end: &UeEnd) -> bool
    ensures { result ≡ is_rank_finished end.now }
{
    matches!(end, UeEnd::Finished)
}

/// Writes where a unit of execution stands, a line where it has not finished, else nothing.
pub fn write_end<S: Sink>(sink: &mut S, rank: Rank, end: &UeEnd) -> Result<(), WriteFault>
    ensures { Sends (end_text rank end.now) (S.seen sink.old) (S.seen sink.new) result }
{
    match end {
        UeEnd::Finished => Ok(()),
        UeEnd::Waits { line, call } => write_waiting(sink, rank, *line, call),
        UeEnd::Mismatch {
            line,
            from,
            sent,
            asked,
        } => write_mismatch(sink, rank, *line, *from, *sent, *asked),
    }
}

fn write_waiting<S: Sink>(
    sink: &mut S,
    rank: Rank,
    line: u32,
    call: &Call,
) -> Result<(), WriteFault>
    ensures { Sends (waiting_line rank line (call_pieces call.now)) (S.seen sink.old) (S.seen sink.new) result }
{
    match call {
        Call::Send { to, head } => write_message(sink, rank, line, "send to ", *to, *head),
        Call::Recv { from, head } => write_message(sink, rank, line, "recv from ", *from, *head),
        Call::Post { to, head } => write_message(sink, rank, line, "post to ", *to, head.head()),
        Call::Bar { comm } => write_barrier(sink, rank, line, *comm),
    }
}

fn write_message<S: Sink>(
    sink: &mut S,
    rank: Rank,
    line: u32,
    does: &str,
    peer: Rank,
    head: Head,
) -> Result<(), WriteFault>
    ensures { Sends (waiting_line rank line (message_pieces does.now peer head)) (S.seen sink.old) (S.seen sink.new) result }
{
    write_texts(
        sink,
        &[
            Text("ue "),
            Number(rank.number() as u64),
            Text(" waits at line "),
            Number(line as u64),
            Text(": "),
            Text(does),
            Number(peer.number() as u64),
            Text(" "),
            Text(head.kind_text()),
            Text(" "),
            Number(head.comm() as u64),
            Text(" "),
            Number(head.len() as u64),
            Text("\n"),
        ],
    )
}

fn write_barrier<S: Sink>(sink: &mut S, rank: Rank, line: u32, comm: u8) -> Result<(), WriteFault>
    ensures { Sends (waiting_line rank line (codes "barrier " ∷ decimal comm ∷ [])) (S.seen sink.old) (S.seen sink.new) result }
{
    write_texts(
        sink,
        &[
            Text("ue "),
            Number(rank.number() as u64),
            Text(" waits at line "),
            Number(line as u64),
            Text(": "),
            Text("barrier "),
            Number(comm as u64),
            Text("\n"),
        ],
    )
}

fn write_mismatch<S: Sink>(
    sink: &mut S,
    rank: Rank,
    line: u32,
    from: Rank,
    sent: Head,
    asked: Head,
) -> Result<(), WriteFault>
    ensures { Sends (mismatch_line rank line from sent asked) (S.seen sink.old) (S.seen sink.new) result }
{
    write_texts(
        sink,
        &[
            Text("ue "),
            Number(rank.number() as u64),
            Text(" mismatch at line "),
            Number(line as u64),
            Text(": from "),
            Number(from.number() as u64),
            Text(" sent "),
            Text(sent.kind_text()),
            Text(" "),
            Number(sent.comm() as u64),
            Text(" "),
            Number(sent.len() as u64),
            Text(", asked "),
            Text(asked.kind_text()),
            Text(" "),
            Number(asked.comm() as u64),
            Text(" "),
            Number(asked.len() as u64),
            Text("\n"),
        ],
    )
}
