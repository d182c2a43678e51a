use crate::{Sink, TextSource, WriteFault, write_all, write_hex};

/// A piece of a line. No memory is taken for its text.
#[derive(Clone, Copy)]
pub enum Piece<'a> {
    Text(&'a str),
    /// A number in decimal digits.
    Number(u64),
    /// Bytes as hex digits in lower case, and `-` for none.
    Hex(&'a [u8]),
}

impl TextSource for Piece<'_> {
    ghost use Rattle.rcce_io.specs.Pieces.{piece_text};

    ghost text = { piece_text };

    fn write_to<S: Sink>(&self, sink: &mut S) -> Result<(), WriteFault> {
        match self {
            Piece::Text(text) => write_all(sink, text.as_bytes()),
            Piece::Number(n) => {
                let mut buffer = itoa::Buffer::new();
                write_all(sink, buffer.format(*n).as_bytes())
            }
            Piece::Hex(bytes) => write_hex(sink, bytes),
        }
    }
}
