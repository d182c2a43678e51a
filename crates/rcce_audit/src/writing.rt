//! Writing a log, line by line. No memory is taken.

ghost use Rattle.std.specs.Prelude.{◌≡◌, ◌≤◌, ◌∷◌, [], codes, decimal, length, map};
ghost use Rattle.rcce_io.specs.Sending.{Sends, joined_texts};
ghost use Rattle.rcce_audit.specs.Pieces.{call_text, line_with_feed};
ghost use Rattle.rcce_audit.specs.Texts.{call_lines, head_words, message_words, rule_lines, split_words, table_lines, text_of};
ghost use Rattle.rcce_audit.specs.Views.{data_lists};

use crate::logs::{Log, LogCall};
use rcce_io::Piece::{Hex, Number, Text};
use rcce_io::{Sink, TextSource, WriteFault, write_texts};
use scc_base::{CommRule, Head, Rank};

pub(crate) fn write_message<'a, S: Sink>(
    sink: &mut S,
    rank: u8,
    verb: &'a str,
    peer: Rank,
    head: Head,
    bytes: &'a [u8],
) -> Result<(), WriteFault>
    ensures { Sends (line_with_feed (message_words rank verb.now peer head bytes.now)) (S.seen sink.old) (S.seen sink.new) result }
{
    write_texts(
        sink,
        &[
            Number(rank as u64),
            Text(" "),
            Text(verb),
            Text(" "),
            Number(peer.number() as u64),
            Text(" "),
            Text(head.kind_text()),
            Text(" "),
            Number(head.comm() as u64),
            Text(" "),
            Number(head.len() as u64),
            Text(" "),
            Hex(bytes),
            Text("\n"),
        ],
    )
}

pub(crate) fn write_barrier<S: Sink>(sink: &mut S, rank: u8, comm: u8) -> Result<(), WriteFault>
    ensures { Sends (line_with_feed (decimal rank ∷ codes "bar" ∷ decimal comm ∷ [])) (S.seen sink.old) (S.seen sink.new) result }
{
    write_texts(
        sink,
        &[
            Number(rank as u64),
            Text(" bar "),
            Number(comm as u64),
            Text("\n"),
        ],
    )
}

/// Writes the line of a rank's call.
fn write_call<S: Sink>(sink: &mut S, rank: u8, call: &LogCall) -> Result<(), WriteFault>
    ensures { Sends (call_text rank call.now) (S.seen sink.old) (S.seen sink.new) result }
{
    match call {
        LogCall::Send { to, head, bytes } => {
            write_message(sink, rank, "send", *to, *head, bytes.as_slice())
        }
        LogCall::Recv { from, head, bytes } => {
            write_message(sink, rank, "recv", *from, *head, bytes.as_slice())
        }
        LogCall::Post { to, head, bytes } => {
            write_message(sink, rank, "post", *to, head.head(), bytes.as_slice())
        }
        LogCall::Bar { comm } => write_barrier(sink, rank, *comm),
    }
}

/// Writes the lines of a rank's calls.
fn write_calls<S: Sink>(sink: &mut S, rank: u8, calls: &[LogCall]) -> Result<(), WriteFault>
    ensures { Sends (joined_texts (map (call_text rank) calls.now)) (S.seen sink.old) (S.seen sink.new) result }
{
    for call in calls {
        write_call(sink, rank, call)?;
    }
    Ok(())
}

/// Writes the lines of all ranks' calls.
pub fn write_lists<S: Sink>(sink: &mut S, lists: &[Vec<LogCall>]) -> Result<(), WriteFault>
    requires { length lists.now ≡ 48 }
    ensures { Sends (text_of (table_lines call_lines 0 (data_lists lists.now))) (S.seen sink.old) (S.seen sink.new) result }
{
    for rank in 0..48u8 {
        write_calls(sink, rank, lists[rank as usize].as_slice())?;
    }
    Ok(())
}

fn write_split<S: Sink>(
    sink: &mut S,
    comm: u8,
    parent: u8,
    how: &str,
    k: u8,
) -> Result<(), WriteFault>
    ensures { Sends (line_with_feed (split_words comm parent how.now k)) (S.seen sink.old) (S.seen sink.new) result }
{
    write_texts(
        sink,
        &[
            Text("comm "),
            Number(comm as u64),
            Text(" "),
            Number(parent as u64),
            Text(" "),
            Text(how),
            Text(" "),
            Number(k as u64),
            Text("\n"),
        ],
    )
}

/// Writes the line of a communicator, where it is a split.
fn write_rule<S: Sink>(sink: &mut S, comm: u8, rule: CommRule) -> Result<(), WriteFault>
    ensures { Sends (text_of (rule_lines comm rule)) (S.seen sink.old) (S.seen sink.new) result }
{
    match rule {
        CommRule::Absent | CommRule::World => Ok(()),
        CommRule::Mod { parent, k } => write_split(sink, comm, parent, "mod", k),
        CommRule::Div { parent, k } => write_split(sink, comm, parent, "div", k),
    }
}

/// Writes the lines of the communicators.
pub(crate) fn write_rules<S: Sink>(sink: &mut S, comms: &[CommRule; 16]) -> Result<(), WriteFault>
    ensures { Sends (text_of (table_lines rule_lines 0 comms.now)) (S.seen sink.old) (S.seen sink.new) result }
{
    for comm in 0..16u8 {
        write_rule(sink, comm, comms[comm as usize])?;
    }
    Ok(())
}

pub(crate) fn write_head<S: Sink>(sink: &mut S, nue: u8) -> Result<(), WriteFault>
    ensures { Sends (line_with_feed (head_words nue)) (S.seen sink.old) (S.seen sink.new) result }
{
    write_texts(sink, &[Text("rcce log "), Number(nue as u64), Text("\n")])
}

/// Writes a log.
impl TextSource for Log {
    ghost use Rattle.rcce_audit.specs.Texts.{log_text};

    ghost text = { log_text };

    fn write_to<S: Sink>(&self, sink: &mut S) -> Result<(), WriteFault> {
        write_head(sink, self.nue())?;
        write_rules(sink, &self.comms())?;
        write_lists(sink, self.lists())
    }
}
