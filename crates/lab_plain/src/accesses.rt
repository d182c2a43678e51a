//! The lines of accesses to shared words.

ghost use Rattle.std.specs.Prelude.{◌≡◌, ◌<◌};
ghost use Rattle.rcce_io.specs.Sending.{Sends};
ghost use Rattle.lab_plain.specs.Accesses.{access_line};
ghost use Rattle.lab_plain.specs.Texts.{access_text, loads_text, stores_text, word_access_text};

use crate::parts::Part::{Number, Text, Value};
use rcce_io::{Sink, TextSource, WriteFault, write_texts};
use scc_base::{CoreId, Line, Place};

/// The printed line of a load or a store of a word, if it is made.
#[derive(Clone, Copy)]
pub(crate) struct Access<'a> {
    core: CoreId,
    access: &'a str,
    at: Place,
    value: u64,
    made: bool,
}

impl TextSource for Access<'_> {
    ghost use Rattle.lab_plain.specs.Accesses.{access_line};

    ghost text = { access_line };

    fn write_to<S: Sink>(&self, sink: &mut S) -> Result<(), WriteFault> {
        if !self.made {
            return Ok(());
        }
        write_texts(
            sink,
            &[
                Number(self.core.number() as u32),
                Text(self.access),
                Number(self.at.core().number() as u32),
                Text("."),
                Number(self.at.line() as u32),
                Text("."),
                Number(self.at.word() as u32),
                Text(" "),
                Value(self.value),
                Text(" # heap\n"),
            ],
        )
    }
}

/// The access to one word of a line, if it is made.
fn access_of<'a>(
    core: CoreId,
    access: &'a str,
    line: Line,
    words: &[u64; 4],
    mask: &[bool; 4],
    word: u8,
) -> Access<'a>
    requires { word < 4 }
    ensures { access_line result ≡ word_access_text core access.now line words.now mask.now word }
{
    let here = word as usize;
    Access {
        core,
        access,
        at: line.word(word),
        value: words[here],
        made: mask[here],
    }
}

pub(crate) fn write_loads<S: Sink>(
    sink: &mut S,
    core: CoreId,
    line: Line,
    words: &[u64; 4],
) -> Result<(), WriteFault>
    ensures { Sends (loads_text core line words.now) (S.seen sink.old) (S.seen sink.new) result }
{
    let all = [true; 4];
    write_texts(
        sink,
        &[
            access_of(core, " load ", line, words, &all, 0),
            access_of(core, " load ", line, words, &all, 1),
            access_of(core, " load ", line, words, &all, 2),
            access_of(core, " load ", line, words, &all, 3),
        ],
    )
}

pub(crate) fn write_stores<S: Sink>(
    sink: &mut S,
    core: CoreId,
    line: Line,
    words: &[u64; 4],
    mask: &[bool; 4],
) -> Result<(), WriteFault>
    ensures { Sends (stores_text core line words.now mask.now) (S.seen sink.old) (S.seen sink.new) result }
{
    write_texts(
        sink,
        &[
            access_of(core, " store ", line, words, mask, 3),
            access_of(core, " store ", line, words, mask, 2),
            access_of(core, " store ", line, words, mask, 1),
            access_of(core, " store ", line, words, mask, 0),
        ],
    )
}

/// Writes the line of a single access.
pub(crate) fn write_access<S: Sink>(
    sink: &mut S,
    core: CoreId,
    access: &str,
    at: Place,
    value: u64,
) -> Result<(), WriteFault>
    ensures { Sends (access_text core access.now at value) (S.seen sink.old) (S.seen sink.new) result }
{
    let made = Access {
        core,
        access,
        at,
        value,
        made: true,
    };
    made.write_to(sink)
}
