//! Bytes as hex digits.

ghost use Rattle.std.specs.Prelude.{◌≡◌, ◌≤◌, ◌*◌, length};
ghost use Rattle.hex.specs.Hex.{encode_lower};
ghost use Rattle.rcce_io.specs.Digits.{hex_text};
ghost use Rattle.rcce_io.specs.Sending.{Sends};

use crate::{Sink, WriteFault, write_all};

/// How many bytes go to the sink as hex digits at a time.
const HEX_BLOCK: usize = 512;

/// Writes bytes as hex digits in lower case, and `-` for none. No memory is taken.
pub fn write_hex<S: Sink>(sink: &mut S, bytes: &[u8]) -> Result<(), WriteFault>
    ensures { Sends (hex_text bytes.now) (S.seen sink.old) (S.seen sink.new) result }
{
    if bytes.is_empty() {
        write_all(sink, b"-")
    } else {
        write_digits(sink, bytes)
    }
}

fn write_digits<S: Sink>(sink: &mut S, bytes: &[u8]) -> Result<(), WriteFault>
    ensures { Sends (encode_lower bytes.now) (S.seen sink.old) (S.seen sink.new) result }
{
    let mut done = 0;
    while done < bytes.len() {
        let end = bytes.len().min(done + HEX_BLOCK);
        write_block(sink, &bytes[done..end])?;
        done = end;
    }
    Ok(())
}

fn write_block<S: Sink>(sink: &mut S, bytes: &[u8]) -> Result<(), WriteFault>
    requires { length bytes.now ≤ HEX_BLOCK }
    ensures { Sends (encode_lower bytes.now) (S.seen sink.old) (S.seen sink.new) result }
{
    let mut digits = [0u8; 2 * HEX_BLOCK];
    let text = &mut digits[..2 * bytes.len()];
    match hex::encode_to_slice(bytes, text) {
        Ok(()) => write_all(sink, text),
        Err(_) => unreachable!(),
    }
}
