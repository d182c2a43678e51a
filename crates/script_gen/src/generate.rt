//! The text of a generated script.

ghost use Rattle.std.specs.Prelude.{◌≡◌, ◌≢◌, ◌≤◌, ℕ, IfOk, OnOk, map};
ghost use Rattle.rcce_io.specs.Pieces.{piece_text};
ghost use Rattle.rcce_io.specs.Sending.{joined_texts, with_text};
ghost use Rattle.script_gen.specs.Texts.{front_text, gen_text, section_text, turns_of};

use rcce_io::Piece::{Number, Text};
use rcce_io::{GrowingText, Piece};
use std::alloc::{AllocError, Global};
use texts::Bytes;

/// The script of a number `s` for this many ranks: each rank sends `s` bytes round the ring and takes part in a sum over
/// all ranks, `1 + s mod 10` times, and prints what it has then.
pub fn gen_script(alloc: Global, nue: u8, s: u32) -> Result<Bytes, AllocError>
    requires some { 1 ≤ nue }
    requires most { nue ≤ 48 }
    requires short { s ≤ 65535 }
    ensures { IfOk result (λ text. text ≡ gen_text nue s) }
{
    if nue == 1 {
        write_lone(alloc, s)
    } else {
        write_ring(alloc, s)
    }
}

// The script of one rank alone.
fn write_lone(alloc: Global, s: u32) -> Result<Bytes, AllocError>
    ensures { IfOk result (λ text. text ≡ gen_text 1 s) }
{
    let mut text = GrowingText::new(alloc);
    push_section(&mut text, "even", s, &[], "")?;
    push_section(&mut text, "odd", s, &[], "")?;
    Ok(text.into_bytes())
}

// The script of more ranks, which are a ring.
fn write_ring(alloc: Global, s: u32) -> Result<Bytes, AllocError>
    ensures { (nue : ℕ) → nue ≢ 1 → IfOk result (λ text. text ≡ gen_text nue s) }
{
    let even = [Text("send +1 h\nrecv -1 g "), Number(s as u64), Text("\n")];
    let odd = [Text("recv -1 g "), Number(s as u64), Text("\nsend +1 h\n")];
    let mut text = GrowingText::new(alloc);
    push_section(&mut text, "even", s, &even, "print g\n")?;
    push_section(&mut text, "odd", s, &odd, "print g\n")?;
    Ok(text.into_bytes())
}

/// Puts the section of these ranks behind a text: `exchange` are the lines of a turn round the ring, and `shown` are those
/// that print what came.
fn push_section(
    text: &mut GrowingText,
    ranks: &'static str,
    s: u32,
    exchange: &[Piece<'static>],
    shown: &'static str,
) -> Result<(), AllocError>
    ensures { OnOk result (text.new
        ≡ with_text (section_text ranks.now s (joined_texts (map piece_text exchange.now)) shown.now) text.old) }
{
    push_front(text, ranks, s)?;
    text.push(exchange)?;
    text.push(&[
        Text("allreduce 0 sum long me me\nend\n"),
        Text(shown),
        Text("print long me\n"),
    ])
}

/// Puts the first lines of a section behind a text, those before a turn round the ring.
fn push_front(text: &mut GrowingText, ranks: &'static str, s: u32) -> Result<(), AllocError>
    ensures { OnOk result (text.new ≡ with_text (front_text ranks.now s (turns_of s)) text.old) }
{
    text.push(&[
        Text(ranks),
        Text("\nfill h "),
        Number(s as u64),
        Text(" "),
        Number(s as u64),
        Text("\nrank me long\nrepeat "),
        Number(turns_of(s) as u64),
        Text("\n"),
    ])
}

/// How often a generated script goes round the ring.
fn turns_of(s: u32) -> u32
    ensures { result ≡ turns_of s }
{
    1 + s % 10
}
