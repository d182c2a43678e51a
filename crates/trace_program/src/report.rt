//! A verdict on a trace, and its lines on out.

ghost use Rattle.std.specs.Prelude.{◌≡◌, length, vec_len};
ghost use Rattle.std.specs.Option.{ForSome};
ghost use Rattle.rcce_io.specs.Sending.{Sends};
ghost use Rattle.rcce_audit.specs.Texts.{table_lines, text_of};
ghost use Rattle.trace_program.specs.Texts.{count_lines, kept_text, lists_text, refused_text, register_text, no_step_line};

use crate::finished::FinishedCalls;
use crate::judging::RefusedEvent;
use crate::next_texts::write_next;
use outcomes::Report;
use rank_monitor::NextEvent;
use rcce_audit::{LogCall, write_lists};
use rcce_io::{Piece, Sink, TextSource, WriteFault, write_all, write_hex, write_texts};
use scc_base::{Access, Rank};
use trace_judge::Refusal;

/// How many ranks a legal trace has, and what they have finished.
#[derive(Drop)]
pub struct RankCalls {
    pub nue: u8,
    pub finished: FinishedCalls,
}

/// What a trace came to.
#[derive(Drop)]
pub enum TraceVerdict {
    Legal(RankCalls),
    /// The first event that is refused.
    NotLegal(RefusedEvent),
}

/// A part of a line.
#[derive(Clone, Copy)]
enum Part<'a> {
    Text(&'a str),
    Count(usize),
    /// A value of 64 bits in 16 hex digits.
    Value(u64),
    /// What a record allows next.
    Next(NextEvent),
}

/// What the register of a core answers to a take, by the value in it.
fn register_text(found: u64) -> &'static str
    ensures { result.now ≡ register_text found }
{
    if found == 0 {
        "the register is free: a take answers 1"
    } else {
        "the register is held: a take answers 0"
    }
}

impl TextSource for Part<'_> {
    ghost use Rattle.trace_program.specs.Parts.{trace_part_text};

    ghost text = { trace_part_text };

    fn write_to<S: Sink>(&self, sink: &mut S) -> Result<(), WriteFault> {
        match self {
            Part::Text(text) => write_all(sink, text.as_bytes()),
            Part::Count(count) => Piece::Number(*count as u64).write_to(sink),
            Part::Value(value) => write_hex(sink, &value.to_be_bytes()),
            Part::Next(next) => write_next(sink, next),
        }
    }
}

/// Writes the line of a rank, where it is one of the run.
fn write_rank<S: Sink>(sink: &mut S, nue: u8, rank: u8, count: usize) -> Result<(), WriteFault>
    ensures { Sends (text_of (count_lines nue rank count)) (S.seen sink.old) (S.seen sink.new) result }
{
    if rank >= nue {
        return Ok(());
    }
    write_texts(
        sink,
        &[
            Part::Text("rank "),
            Part::Count(rank as usize),
            Part::Text(" finished "),
            Part::Count(count),
            Part::Text(" calls\n"),
        ],
    )
}

/// Writes the lines of the ranks.
fn write_ranks<S: Sink>(sink: &mut S, nue: u8, counts: &[usize]) -> Result<(), WriteFault>
    requires { length counts.now ≡ 48 }
    ensures { Sends (text_of (table_lines (count_lines nue) 0 counts.now)) (S.seen sink.old) (S.seen sink.new) result }
{
    for rank in 0..48u8 {
        write_rank(sink, nue, rank, counts[rank as usize])?;
    }
    Ok(())
}

fn write_asked<S: Sink>(sink: &mut S, lists: &Option<Vec<Vec<LogCall>>>) -> Result<(), WriteFault>
    requires { ForSome lists.now (λ l. vec_len l ≡ 48) }
    ensures { Sends (lists_text lists.now) (S.seen sink.old) (S.seen sink.new) result }
{
    match lists {
        Some(lists) => write_lists(sink, lists.as_slice()),
        None => Ok(()),
    }
}

fn write_legal<S: Sink>(sink: &mut S, nue: u8, finished: &FinishedCalls) -> Result<(), WriteFault>
    ensures { Sends (kept_text nue finished.now) (S.seen sink.old) (S.seen sink.new) result }
{
    write_all(sink, b"legal\n")?;
    write_ranks(sink, nue, &finished.counts)?;
    write_asked(sink, &finished.lists)
}

/// Writes the line of an access that is no step, with the value that it found.
fn write_value<S: Sink>(sink: &mut S, line: usize, found: u64) -> Result<(), WriteFault>
    ensures { Sends (no_step_line line found) (S.seen sink.old) (S.seen sink.new) result }
{
    write_texts(
        sink,
        &[
            Part::Text("not legal: line "),
            Part::Count(line),
            Part::Text(": the value there is "),
            Part::Value(found),
            Part::Text("\n"),
        ],
    )
}

fn write_refused<S: Sink>(
    sink: &mut S,
    line: usize,
    rank: Rank,
    why: &Refusal,
) -> Result<(), WriteFault>
    ensures { Sends (refused_text line rank why.now) (S.seen sink.old) (S.seen sink.new) result }
{
    match why {
        Refusal::OtherValue { access, found } => match access {
            Access::Load => write_value(sink, line, *found),
            Access::Store => write_value(sink, line, *found),
            Access::Take => write_texts(
                sink,
                &[
                    Part::Text("not legal: line "),
                    Part::Count(line),
                    Part::Text(": "),
                    Part::Text(register_text(*found)),
                    Part::Text("\n"),
                ],
            ),
            Access::Free => write_value(sink, line, *found),
        },
        Refusal::NotPermitted { next } => write_texts(
            sink,
            &[
                Part::Text("not legal: line "),
                Part::Count(line),
                Part::Text(": the record of rank "),
                Part::Count(rank.number() as usize),
                Part::Text(" does not permit it; "),
                Part::Next(*next),
                Part::Text("\n"),
            ],
        ),
    }
}

impl Report for TraceVerdict {
    ghost use Rattle.trace_program.specs.Program.{verdict_shown};

    ghost ran = { verdict_shown };

    fn is_finished(&self) -> bool {
        match self {
            TraceVerdict::Legal(_) => true,
            TraceVerdict::NotLegal(_) => false,
        }
    }

    fn write_out<S: Sink>(&self, sink: &mut S) -> Result<(), WriteFault> {
        match self {
            TraceVerdict::Legal(calls) => write_legal(sink, calls.nue, &calls.finished),
            TraceVerdict::NotLegal(at) => write_refused(sink, at.line, at.rank, &at.why),
        }
    }

    fn write_err<S: Sink>(&self, sink: &mut S) -> Result<(), WriteFault> {
        Ok(())
    }
}
