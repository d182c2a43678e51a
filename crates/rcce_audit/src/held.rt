//! Writing a log whose calls are held elsewhere. No memory is taken.

ghost use Rattle.std.specs.Prelude.{◌≡◌, ◌+◌, ◌≤◌, drop, length, map, take};
ghost use Rattle.rcce_io.specs.Sending.{Sends, joined_texts};
ghost use Rattle.rcce_audit.specs.Held.{bytes_in, call_with_bytes, held_calls, calls_with_bytes};
ghost use Rattle.rcce_audit.specs.Pieces.{line_by};
ghost use Rattle.rcce_audit.specs.Texts.{call_lines, table_lines, text_of};

use crate::writing::{write_barrier, write_head, write_message, write_rules};
use rcce_io::{Sink, TextSource, WriteFault};
use scc_base::{Call, CommRule};

/// The calls of a rank, and their bytes, those of one call behind those of another.
#[derive(Clone, Copy)]
pub struct CallList<'a> {
    pub calls: &'a [Call],
    pub bytes: &'a [u8],
}

/// A log whose calls are held elsewhere: how many ranks a run had, the rules of its communicators, and the calls of the
/// ranks 0 to 47.
#[derive(Clone, Copy)]
pub struct HeldLog<'a> {
    pub nue: u8,
    pub comms: [CommRule; 16],
    pub lists: [CallList<'a>; 48],
}

/// How many bytes a call moves.
fn bytes_in(call: &Call) -> usize
    ensures { result ≡ bytes_in call.now }
{
    match call {
        Call::Send { head, .. } | Call::Recv { head, .. } => head.len() as usize,
        Call::Post { head, .. } => head.head().len() as usize,
        Call::Bar { .. } => 0,
    }
}

/// Writes the line of a rank's call with these bytes.
fn write_held<S: Sink>(sink: &mut S, rank: u8, call: &Call, bytes: &[u8]) -> Result<(), WriteFault>
    ensures { Sends (line_by rank (call_with_bytes call.now bytes.now)) (S.seen sink.old) (S.seen sink.new) result }
{
    match call {
        Call::Send { to, head } => write_message(sink, rank, "send", *to, *head, bytes),
        Call::Recv { from, head } => write_message(sink, rank, "recv", *from, *head, bytes),
        Call::Post { to, head } => write_message(sink, rank, "post", *to, head.head(), bytes),
        Call::Bar { comm } => write_barrier(sink, rank, *comm),
    }
}

/// The `count` bytes from byte `at` on, as far as they are there.
fn piece(bytes: &[u8], at: usize, count: usize) -> &[u8]
    requires within { at ≤ length bytes.now }
    ensures gives { result.now ≡ take count (drop at bytes.now) }
    ensures within { at + length result.now ≤ length bytes.now }
{
    let (_, left) = bytes.split_at(at);
    if count <= left.len() {
        left.split_at(count).0
    } else {
        left
    }
}

/// Writes the lines of a rank's calls, each with its bytes, which stand one after the other.
fn write_list<S: Sink>(
    sink: &mut S,
    rank: u8,
    calls: &[Call],
    bytes: &[u8],
) -> Result<(), WriteFault>
    ensures { Sends (joined_texts (map (line_by rank) (calls_with_bytes calls.now bytes.now))) (S.seen sink.old) (S.seen sink.new) result }
{
    let mut at = 0usize;
    for call in calls {
        let own = piece(bytes, at, bytes_in(call));
        write_held(sink, rank, call, own)?;
        at += own.len();
    }
    Ok(())
}

/// Writes the lines of all ranks' calls.
fn write_all_lists<S: Sink>(sink: &mut S, lists: &[CallList<'_>; 48]) -> Result<(), WriteFault>
    ensures { Sends (text_of (table_lines call_lines 0 (map held_calls lists.now))) (S.seen sink.old) (S.seen sink.new) result }
{
    for rank in 0..48u8 {
        let list = &lists[rank as usize];
        write_list(sink, rank, list.calls, list.bytes)?;
    }
    Ok(())
}

/// Writes a log.
impl TextSource for HeldLog<'_> {
    ghost use Rattle.rcce_audit.specs.Held.{held_text};

    ghost text = { held_text };

    fn write_to<S: Sink>(&self, sink: &mut S) -> Result<(), WriteFault> {
        write_head(sink, self.nue)?;
        write_rules(sink, &self.comms)?;
        write_all_lists(sink, &self.lists)
    }
}
