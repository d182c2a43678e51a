//! The lines of printed registers. No memory is taken.

ghost use Rattle.std.specs.Prelude.{◌≡◌, ◌++◌, codes};
ghost use Rattle.rcce_io.specs.Sending.{Sends};
ghost use Rattle.script_rules.specs.declared.script.Form.TheVariants.{Decimal, Hex};
ghost use Rattle.run_program.specs.Texts.{item_front, item_line, type_text};

use crate::values::write_values;
use groups::Ty;
use rcce_io::{Sink, TextSource, WriteFault, write_all, write_hex};
use scc_base::Rank;
use script_machine::PrintedItem;
use script_rules::Form;

/// The line of a printed register.
#[derive(Clone, Copy)]
pub struct ItemLine<'a> {
    pub rank: Rank,
    pub name: &'a str,
    pub item: &'a PrintedItem<'a>,
}

impl TextSource for ItemLine<'_> {
    ghost text = { λ l. item_line l.rank l.name.now l.item.now.form l.item.now.bytes };

    fn write_to<S: Sink>(&self, sink: &mut S) -> Result<(), WriteFault> {
        let bytes = self.item.bytes();
        match self.item.form() {
            Form::Hex => write_hex_line(sink, self.rank, self.name, bytes),
            Form::Decimal(ty) => write_values_line(sink, self.rank, self.name, ty, bytes),
        }
    }
}

/// The name of a type of values.
fn type_text(ty: Ty) -> &'static str
    ensures { result.now ≡ type_text ty }
{
    match ty {
        Ty::Int => "int",
        Ty::Long => "long",
    }
}

/// Writes a word and a blank behind it.
fn write_word<S: Sink>(sink: &mut S, text: &str) -> Result<(), WriteFault>
    ensures { Sends (text.now ++ codes " ") (S.seen sink.old) (S.seen sink.new) result }
{
    write_all(sink, text.as_bytes())?;
    write_all(sink, b" ")
}

/// Writes the front of a line: the rank, and the name of the register.
fn write_front<S: Sink>(sink: &mut S, rank: Rank, name: &str) -> Result<(), WriteFault>
    ensures { Sends (item_front rank name.now) (S.seen sink.old) (S.seen sink.new) result }
{
    let mut digits = itoa::Buffer::new();
    write_all(sink, b"ue ")?;
    write_word(sink, digits.format(rank.number()))?;
    write_word(sink, name)
}

/// Writes the line of a register with its bytes as hex digits.
fn write_hex_line<S: Sink>(
    sink: &mut S,
    rank: Rank,
    name: &str,
    bytes: &[u8],
) -> Result<(), WriteFault>
    ensures { Sends (item_line rank name.now Hex bytes.now) (S.seen sink.old) (S.seen sink.new) result }
{
    write_front(sink, rank, name)?;
    write_hex(sink, bytes)?;
    write_all(sink, b"\n")
}

/// Writes the line of a register with its bytes as values of a type.
fn write_values_line<S: Sink>(
    sink: &mut S,
    rank: Rank,
    name: &str,
    ty: Ty,
    bytes: &[u8],
) -> Result<(), WriteFault>
    ensures { Sends (item_line rank name.now (Decimal ty) bytes.now) (S.seen sink.old) (S.seen sink.new) result }
{
    write_front(sink, rank, name)?;
    write_all(sink, type_text(ty).as_bytes())?;
    write_values(sink, ty, bytes)?;
    write_all(sink, b"\n")
}
