//! The parts of a printed line.

use rcce_io::{Piece, Sink, TextSource, WriteFault, write_all, write_hex, write_texts};
use scc_base::{Buf, Line};

/// A part of a printed line. Its text takes no memory.
#[derive(Clone, Copy)]
pub(crate) enum Part<'a> {
    Text(&'a str),
    /// Bytes of the lab's file.
    Bytes(&'a [u8]),
    /// A number in decimal digits.
    Number(u32),
    /// A value of 64 bits in 16 hex digits.
    Value(u64),
    /// A value of 64 bits, or `-` for a word that was not written.
    Word { value: u64, written: bool },
    /// A line of a buffer, as a lab names it.
    Line(Line),
}

impl TextSource for Part<'_> {
    ghost use Rattle.lab_plain.specs.Texts.{part_text};

    ghost text = { part_text };

    fn write_to<S: Sink>(&self, sink: &mut S) -> Result<(), WriteFault> {
        match self {
            Part::Text(text) => write_all(sink, text.as_bytes()),
            Part::Bytes(bytes) => write_all(sink, bytes),
            Part::Number(number) => Piece::Number(*number as u64).write_to(sink),
            Part::Value(value) => write_hex(sink, &value.to_be_bytes()),
            Part::Word { value, written } => {
                if *written {
                    write_hex(sink, &value.to_be_bytes())
                } else {
                    write_all(sink, b"-")
                }
            }
            Part::Line(line) => write_texts(
                sink,
                &[
                    Piece::Number(line.core().number() as u64),
                    Piece::Text(":"),
                    Piece::Number(line.line().saturating_sub(Buf::FIRST) as u64),
                ],
            ),
        }
    }
}
