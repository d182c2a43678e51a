//! The values of a line, many at a time: their text is made from its end. No memory is taken.

ghost use Rattle.std.specs.Prelude.{◌≡◌, ◌≤◌, ◌<◌, ◌+◌, ◌-◌, ◌*◌, ◌/◌, ◌++◌, codes, length, drop};
ghost use Rattle.std.specs.Fmt.{signed_decimal};
ghost use Rattle.groups.specs.Folds.{bytes_in, typed_value_at, value_of};
ghost use Rattle.rcce_io.specs.Sending.{Sends};
ghost use Rattle.run_program.specs.Texts.{values_text, values_text_from};

use groups::Ty;
use itoa::write_digits;
use rcce_io::{Sink, WriteFault, write_all};

/// How many values go to the sink at a time.
const MANY: usize = 96;

/// How long the text of a value can be, with the blank before it.
const LONGEST: usize = 21;

/// Writes bytes as values of a type.
pub fn write_values<S: Sink>(sink: &mut S, ty: Ty, bytes: &[u8]) -> Result<(), WriteFault>
    ensures { Sends (values_text ty bytes.now) (S.seen sink.old) (S.seen sink.new) result }
{
    let count = value_count(ty, bytes);
    let mut done = 0;
    while done < count {
        let end = done + (count - done).min(MANY);
        write_block(sink, ty, bytes, done, end)?;
        done = end;
    }
    Ok(())
}

/// How many values of a type bytes are.
fn value_count(ty: Ty, bytes: &[u8]) -> usize
    ensures { result ≡ length bytes.now / bytes_in ty }
{
    bytes.len() / ty.width()
}

/// Writes the values from one on up to another, by one text.
fn write_block<S: Sink>(
    sink: &mut S,
    ty: Ty,
    bytes: &[u8],
    from: usize,
    to: usize,
) -> Result<(), WriteFault>
    requires ordered { from ≤ to }
    requires within { to ≤ length bytes.now / bytes_in ty }
    requires few { to ≤ from + MANY }
    ensures { Sends (values_text_from ty bytes.now from (to - from)) (S.seen sink.old) (S.seen sink.new) result }
{
    let mut text = [0u8; MANY * LONGEST];
    let at = put_values(&mut text, ty, bytes, from, to);
    write_all(sink, &text[at..])
}

/// Puts the values from one on up to another at the end of a text, and answers where they start.
fn put_values(text: &mut [u8], ty: Ty, bytes: &[u8], from: usize, to: usize) -> usize
    requires ordered { from ≤ to }
    requires within { to ≤ length bytes.now / bytes_in ty }
    requires room { LONGEST * (to - from) ≤ length text.old }
    ensures within { result ≤ length text.old }
    ensures written { drop result text.new ≡ values_text_from ty bytes.now from (to - from) }
{
    let mut at = text.len();
    let mut i = to;
    while i > from {
        i -= 1;
        at = put_value(text, at, value_at(ty, bytes, i));
    }
    at
}

/// A value of a type among bytes.
fn value_at(ty: Ty, bytes: &[u8], i: usize) -> i64
    requires { i < length bytes.now / bytes_in ty }
    ensures { result ≡ typed_value_at ty bytes.now i }
{
    let width = ty.width();
    let at = i * width;
    value_in(ty, &bytes[at..at + width])
}

/// The value that bytes are of a type.
fn value_in(ty: Ty, bytes: &[u8]) -> i64
    requires { length bytes.now ≡ bytes_in ty }
    ensures { result ≡ value_of ty bytes.now }
{
    match ty {
        Ty::Int => i32::from_le_bytes([bytes[0], bytes[1], bytes[2], bytes[3]]) as i64,
        Ty::Long => i64::from_le_bytes([
            bytes[0], bytes[1], bytes[2], bytes[3], bytes[4], bytes[5], bytes[6], bytes[7],
        ]),
    }
}

/// Puts a value behind a blank, in front of the bytes from `end` on, and answers where it starts.
fn put_value(text: &mut [u8], end: usize, value: i64) -> usize
    requires room { LONGEST ≤ end }
    requires within { end ≤ length text.old }
    ensures short { end ≤ result + LONGEST }
    ensures before { result ≤ end }
    ensures written { drop result text.new ≡ codes " " ++ (signed_decimal value ++ drop end text.old) }
{
    let start = put_signed(text, end, value);
    text[start - 1] = b' ';
    start - 1
}

/// Puts a value in front of the bytes from `end` on, and answers where it starts.
fn put_signed(text: &mut [u8], end: usize, value: i64) -> usize
    requires room { 20 ≤ end }
    requires within { end ≤ length text.old }
    ensures short { end ≤ result + 20 }
    ensures before { result ≤ end }
    ensures written { drop result text.new ≡ signed_decimal value ++ drop end text.old }
{
    let start = write_digits(value.unsigned_abs(), text, end);
    if value >= 0 {
        return start;
    }
    text[start - 1] = b'-';
    start - 1
}
