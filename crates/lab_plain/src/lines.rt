//! Writes the lines that a lab prints.

ghost use Rattle.std.specs.Prelude.{◌≡◌};
ghost use Rattle.rcce_io.specs.Sending.{Sends};
ghost use Rattle.lab_plain.specs.Texts.{answer_text, frees_text, core_holds_text, nothing_text, register_stop_text, source_name, take_answer_name, takes_text, value_stop_text};

use crate::accesses::{write_access, write_loads, write_stores};
use crate::parts::Part::{Bytes, Line as At, Number, Text, Value, Word};
use crate::said::{Said, Source, Stopped};
use rcce_io::{Sink, TextSource, WriteFault, write_texts};
use scc_base::{CoreId, Line, Place};

/// The name of the place that answered a read.
fn source_name(from: Source) -> &'static str
    ensures { result.now ≡ source_name from }
{
    match from {
        Source::BufferLine => "buffer line",
        Source::Cache => "cache",
        Source::Words => "words",
    }
}

/// The name of a take's answer.
fn take_name(took: bool) -> &'static str
    ensures { result.now ≡ take_answer_name took }
{
    if took { "took" } else { "taken" }
}

fn write_take<S: Sink>(
    sink: &mut S,
    core: CoreId,
    register: CoreId,
    took: bool,
) -> Result<(), WriteFault>
    ensures { Sends (takes_text core register took) (S.seen sink.old) (S.seen sink.new) result }
{
    write_texts(
        sink,
        &[
            Number(core.number() as u32),
            Text(" take "),
            Number(register.number() as u32),
            Text(".register "),
            Value(if took { 1 } else { 0 }),
            Text(" # register\nanswer "),
            Text(take_name(took)),
            Text("\n"),
        ],
    )
}

fn write_free<S: Sink>(sink: &mut S, core: CoreId, register: CoreId) -> Result<(), WriteFault>
    ensures { Sends (frees_text core register) (S.seen sink.old) (S.seen sink.new) result }
{
    write_texts(
        sink,
        &[
            Number(core.number() as u32),
            Text(" free "),
            Number(register.number() as u32),
            Text(".register "),
            Value(0),
            Text(" # register\n"),
        ],
    )
}

/// Writes the line for a line that a core holds.
fn write_held<S: Sink>(
    sink: &mut S,
    core: CoreId,
    holds: &str,
    line: Line,
    words: &[u64; 4],
    mask: &[bool; 4],
) -> Result<(), WriteFault>
    ensures { Sends (core_holds_text core holds.now line words.now mask.now) (S.seen sink.old) (S.seen sink.new) result }
{
    write_texts(
        sink,
        &[
            Text("core "),
            Number(core.number() as u32),
            Text(holds),
            At(line),
            Text(" "),
            Word {
                value: words[0],
                written: mask[0],
            },
            Text(" "),
            Word {
                value: words[1],
                written: mask[1],
            },
            Text(" "),
            Word {
                value: words[2],
                written: mask[2],
            },
            Text(" "),
            Word {
                value: words[3],
                written: mask[3],
            },
            Text("\n"),
        ],
    )
}

fn write_nothing<S: Sink>(sink: &mut S, core: CoreId, holds: &str) -> Result<(), WriteFault>
    ensures { Sends (nothing_text core holds.now) (S.seen sink.old) (S.seen sink.new) result }
{
    write_texts(
        sink,
        &[
            Text("core "),
            Number(core.number() as u32),
            Text(holds),
            Text("nothing\n"),
        ],
    )
}

fn write_answer<S: Sink>(
    sink: &mut S,
    at: Place,
    value: u64,
    from: Source,
) -> Result<(), WriteFault>
    ensures { Sends (answer_text at value from) (S.seen sink.old) (S.seen sink.new) result }
{
    write_texts(
        sink,
        &[
            Text("answer "),
            At(at.line_at()),
            Text("."),
            Number(at.word() as u32),
            Text(" "),
            Value(value),
            Text(" from "),
            Text(source_name(from)),
            Text("\n"),
        ],
    )
}

impl TextSource for Said {
    ghost use Rattle.lab_plain.specs.Texts.{said_text};

    ghost text = { said_text };

    fn write_to<S: Sink>(&self, sink: &mut S) -> Result<(), WriteFault> {
        match self {
            Said::Begins { line, text } => write_texts(
                sink,
                &[
                    Text("line "),
                    Number(*line),
                    Text(": "),
                    Bytes(text.as_slice()),
                    Text("\n"),
                ],
            ),
            Said::Loads { core, line, words } => write_loads(sink, *core, *line, words),
            Said::Stores {
                core,
                line,
                words,
                mask,
            } => write_stores(sink, *core, *line, words, mask),
            Said::LoadsWord { core, at, value } => {
                write_access(sink, *core, " load ", *at, *value)
            }
            Said::StoresWord { core, at, value } => {
                write_access(sink, *core, " store ", *at, *value)
            }
            Said::Answers { at, value, from } => write_answer(sink, *at, *value, *from),
            Said::Evicted(line) => write_texts(sink, &[Text("evicted "), At(*line), Text("\n")]),
            Said::Takes {
                core,
                register,
                took,
            } => write_take(sink, *core, *register, *took),
            Said::Frees { core, register } => write_free(sink, *core, *register),
            Said::Caches { core, line, words } => {
                write_held(sink, *core, " caches ", *line, words, &[true; 4])
            }
            Said::CachesNothing(core) => write_nothing(sink, *core, " caches "),
            Said::Buffers {
                core,
                line,
                words,
                mask,
            } => write_held(sink, *core, " buffers ", *line, words, mask),
            Said::BuffersNothing(core) => write_nothing(sink, *core, " buffers "),
        }
    }
}

fn write_register_stop<S: Sink>(
    sink: &mut S,
    line: u32,
    core: CoreId,
    holds: &str,
    register: CoreId,
) -> Result<(), WriteFault>
    ensures { Sends (register_stop_text line core holds.now register) (S.seen sink.old) (S.seen sink.new) result }
{
    write_texts(
        sink,
        &[
            Text("line "),
            Number(line),
            Text(": core "),
            Number(core.number() as u32),
            Text(holds),
            Number(register.number() as u32),
            Text("\n"),
        ],
    )
}

fn write_value_stop<S: Sink>(
    sink: &mut S,
    line: u32,
    at: Place,
    came: u64,
    expected: u64,
) -> Result<(), WriteFault>
    ensures { Sends (value_stop_text line at came expected) (S.seen sink.old) (S.seen sink.new) result }
{
    write_texts(
        sink,
        &[
            Text("line "),
            Number(line),
            Text(": "),
            At(at.line_at()),
            Text("."),
            Number(at.word() as u32),
            Text(" is "),
            Value(came),
            Text(", expected "),
            Value(expected),
            Text("\n"),
        ],
    )
}

impl TextSource for Stopped {
    ghost use Rattle.lab_plain.specs.Texts.{stopped_text};

    ghost text = { stopped_text };

    fn write_to<S: Sink>(&self, sink: &mut S) -> Result<(), WriteFault> {
        match self {
            Stopped::Value {
                line,
                at,
                came,
                expected,
            } => write_value_stop(sink, *line, *at, *came, *expected),
            Stopped::Take { line, took } => write_texts(
                sink,
                &[
                    Text("line "),
                    Number(*line),
                    Text(": answer "),
                    Text(take_name(*took)),
                    Text(", expected "),
                    Text(take_name(!*took)),
                    Text("\n"),
                ],
            ),
            Stopped::Holds {
                line,
                core,
                register,
            } => write_register_stop(sink, *line, *core, " holds register ", *register),
            Stopped::HoldsNot {
                line,
                core,
                register,
            } => write_register_stop(sink, *line, *core, " does not hold register ", *register),
        }
    }
}
