//! The lines of a file, one after another.

ghost use Rattle.std.specs.Prelude.{◌≡◌, ◌<◌, ◌≤◌, ◌^◌, IfOk, OnOk, length, map};
ghost use Rattle.script_reader.specs.Faults.{Gives, LineGives, stop_of};
ghost use Rattle.script_reader.specs.Reading.{parse_script, read_all_lines, read_file, read_line, read_lines, read_words, says_two, version_of};
ghost use Rattle.script_reader.specs.Kept.{IsUpTo};
ghost use Rattle.script_rules.specs.Checks.{last_comm};
ghost use Rattle.script_rules.specs.Settled.{HasCommsTo, NamesCommsTo, SplitsWorldAlone};
ghost use Rattle.script_rules.specs.declared.version.Version.TheVariants.{One};
ghost use Rattle.script_rules.specs.Limits.{most_names};
ghost use Rattle.texts.specs.Cuts.{lines_of};

use crate::fault::{LineStop, ReadFault, ReadStop};
use crate::reader::Reader;
use crate::said::said_of;
use crate::taking::take;
use crate::words::is_word;
use script_rules::{FaultKind, Scripts, Version};
use std::alloc::{AllocError, Global};
use texts::{is_number, is_text, line_count, lines, number, words};

/// The most bytes of a script's file: 4 MiB.
pub const MOST_SCRIPT_BYTES: usize = 4_194_304;

/// Whether the words are `rcce 2`.
fn says_two(words: &[&[u8]]) -> bool
    ensures { result ≡ says_two (map (λ word. word.now) words.now) }
{
    match words {
        [first, second] => is_word(first, b"rcce") && is_number(number(second), 2),
        _ => false,
    }
}

/// The version of a file, by its first line with words.
fn version_of(alloc: Global, lines: &[&[u8]]) -> Result<Version, AllocError>
    ensures { IfOk result (λ version. version ≡ version_of (map (λ line. line.now) lines.now)) }
{
    for line in lines {
        let words = words(alloc, line)?;
        if !words.is_empty() {
            let version = if says_two(words.as_slice()) {
                Version::Two
            } else {
                Version::One
            };
            return Ok(version);
        }
    }
    Ok(Version::One)
}

fn read_words(
    alloc: Global,
    reader: &mut Reader,
    number: u32,
    words: &[&[u8]],
) -> Result<(), LineStop>
    requires few { length reader.old.names ≤ most_names }
    requires counted { length reader.old.items < number }
    ensures gives { LineGives (λ _. reader.new) result (read_words number reader.old (map (λ word. word.now) words.now)) }
    ensures kept { OnOk result (IsUpTo reader.old.version number reader.new) }
{
    match words {
        [] => Ok(()),
        [first, rest @ ..] => {
            let said = said_of(alloc, reader.version(), reader.is_opening(), first, rest)?;
            reader.begin();
            take(reader, number, said)
        }
    }
}

fn read_line(alloc: Global, reader: &mut Reader, number: u32, line: &[u8]) -> Result<(), LineStop>
    requires few { length reader.old.names ≤ most_names }
    requires counted { length reader.old.items < number }
    ensures gives { LineGives (λ _. reader.new) result (read_line number reader.old line.now) }
    ensures kept { OnOk result (IsUpTo reader.old.version number reader.new) }
{
    if !is_text(line) {
        return Err(LineStop::Kind(FaultKind::NotText));
    }
    let words = words(alloc, line)?;
    read_words(alloc, reader, number, words.as_slice())
}

/// The end of a reading that stops in this line.
fn stop_at(line: u32, stop: LineStop) -> ReadStop
    ensures { result ≡ stop_of line stop }
{
    match stop {
        LineStop::Kind(kind) => ReadStop::Fault(ReadFault { line, kind }),
        LineStop::Memory => ReadStop::Memory,
    }
}

fn read_lines(alloc: Global, reader: &mut Reader, lines: &[&[u8]]) -> Result<(), ReadStop>
    requires few { length lines.now < 2 ^ 32 }
    requires unnamed { length reader.old.names ≡ 0 }
    requires empty { length reader.old.items ≡ 0 }
    ensures gives { Gives (λ _. reader.new) result (read_lines 0 reader.old (map (λ line. line.now) lines.now)) }
    ensures counted { OnOk result (length reader.new.items ≤ length lines.now) }
    ensures version { OnOk result (reader.new.version ≡ reader.old.version) }
{
    let mut number: u32 = 0;
    for line in lines {
        number += 1;
        match read_line(alloc, reader, number, line) {
            Ok(()) => {}
            Err(stop) => return Err(stop_at(number, stop)),
        }
    }
    Ok(())
}

/// The script that these bytes are in a version of the language, or their first fault with its line and kind.
fn read_all_lines(
    alloc: Global,
    version: Version,
    lines: &[&[u8]],
    nue: u8,
) -> Result<Scripts, ReadStop>
    requires few { length lines.now < 4194306 }
    requires some { 1 ≤ nue }
    requires most { nue ≤ 48 }
    ensures gives { Gives (λ script. script) result (read_all_lines version (map (λ line. line.now) lines.now) nue) }
    ensures low { IfOk result (HasCommsTo (last_comm version)) }
{
    let mut reader = Reader::new(alloc, version, nue)?;
    read_lines(alloc, &mut reader, lines)?;
    if !reader.is_closed() {
        return Err(ReadStop::Fault(ReadFault {
            line: line_count(lines) as u32 + 1,
            kind: FaultKind::UnclosedRepeat,
        }));
    }
    Ok(reader.finish())
}

/// The script that a file is, or its first fault with its line and kind.
pub(crate) fn read_file(alloc: Global, bytes: &[u8], nue: u8) -> Result<Scripts, ReadStop>
    requires some { 1 ≤ nue }
    requires most { nue ≤ 48 }
    ensures gives { Gives (λ script. script) result (read_file bytes.now nue) }
    ensures low { IfOk result (HasCommsTo (last_comm (version_of (lines_of bytes.now)))) }
{
    if bytes.len() > MOST_SCRIPT_BYTES {
        return Err(ReadStop::Fault(ReadFault {
            line: 0,
            kind: FaultKind::TooLong,
        }));
    }
    let lines = lines(alloc, bytes)?;
    let version = version_of(alloc, lines.as_slice())?;
    read_all_lines(alloc, version, lines.as_slice(), nue)
}

/// Reads a script for a number of ranks.
pub fn read_script(alloc: Global, bytes: &[u8], nue: u8) -> Result<Scripts, ReadStop>
    requires some { 1 ≤ nue }
    requires most { nue ≤ 48 }
    ensures gives { Gives (λ script. script) result (parse_script bytes.now nue) }
    // The script has as many ranks as it was read for.
    ensures ranks { IfOk result (λ script. script.nue ≡ nue) }
    // It names no communicator above the highest of its version and has no rule for one. In version 1 it splits only the
    // world.
    ensures named { IfOk result (NamesCommsTo (last_comm (version_of (lines_of bytes.now)))) }
    ensures low { IfOk result (HasCommsTo (last_comm (version_of (lines_of bytes.now)))) }
    ensures flat { version_of (lines_of bytes.now) ≡ One → IfOk result SplitsWorldAlone }
{
    read_file(alloc, bytes, nue)
}
