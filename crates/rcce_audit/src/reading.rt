//! What the lines of a log say, one after another.

ghost use Rattle.std.specs.Prelude.{◌≡◌, ◌+◌, ◌<◌, ◌^◌, length, map};
ghost use Rattle.rcce_audit.specs.Grammar.{LogGives, all_said, first_said, kind_of, lines_said, log_of, parts_said};
ghost use Rattle.rcce_audit.specs.Reading.{reading_of};

use crate::faults::{LogFault, LogKind, LogStop};
use crate::lines::{begins_comm, nue_of};
use crate::logs::Log;
use crate::reader::Reader;
use crate::words::words;
use std::alloc::Global;
use texts::lines;

/// The most bytes of a log's text: 64 MiB.
pub const MOST_LOG_BYTES: usize = 67_108_864;

/// What is wrong with a line that is not of its form or in its place.
fn kind_of(line: &[u8]) -> LogKind
    ensures { result ≡ kind_of line.now }
{
    if begins_comm(line) {
        LogKind::BadComm
    } else {
        LogKind::BadCall
    }
}

/// Takes lines, the first of which has this number.
fn read_lines(alloc: Global, reader: &mut Reader, lines: &[&[u8]]) -> Result<(), LogStop>
    requires few { length lines.now + 2 < 2 ^ 32 }
    ensures { LogGives (λ _. reading_of reader.new) result (lines_said 2 (reading_of reader.old) (map (λ line. line.now) lines.now)) }
{
    let mut number: u32 = 2;
    for line in lines {
        if !reader.read_line(alloc, line)? {
            let kind = kind_of(line);
            return Err(LogStop::Fault(LogFault { line: number, kind }));
        }
        number += 1;
    }
    Ok(())
}

/// The reader behind the first line.
fn read_first(alloc: Global, line: &[u8]) -> Result<Reader, LogStop>
    ensures { LogGives reading_of result (first_said line.now) }
{
    let words = words(alloc, line)?;
    match nue_of(words.as_slice()) {
        Some(nue) => Ok(Reader::new(alloc, nue)?),
        None => Err(LogStop::Fault(LogFault {
            line: 1,
            kind: LogKind::BadHead,
        })),
    }
}

/// What lines say, each with its line feed, and what stands behind the last line feed.
fn read_all(alloc: Global, lines: &[&[u8]], last: &[u8]) -> Result<Reader, LogStop>
    requires few { length lines.now + 2 < 2 ^ 32 }
    ensures { LogGives (λ reader. (reading_of reader).log) result (all_said (map (λ line. line.now) lines.now) last.now) }
{
    match lines {
        [] => Err(LogStop::Fault(LogFault {
            line: 1,
            kind: LogKind::BadHead,
        })),
        [first, rest @ ..] => {
            let mut reader = read_first(alloc, first)?;
            read_lines(alloc, &mut reader, rest)?;
            if last.is_empty() {
                Ok(reader)
            } else {
                let line = rest.len() as u32 + 2;
                let kind = kind_of(last);
                Err(LogStop::Fault(LogFault { line, kind }))
            }
        }
    }
}

/// What the parts of a text between its line feeds say.
fn read_parts(alloc: Global, parts: &[&[u8]]) -> Result<Reader, LogStop>
    requires some { 0 < length parts.now }
    requires few { length parts.now + 2 < 2 ^ 32 }
    ensures { LogGives (λ reader. (reading_of reader).log) result (parts_said (map (λ part. part.now) parts.now)) }
{
    let count = parts.len() - 1;
    read_all(alloc, &parts[..count], parts[count])
}

/// Reads a log, or tells its first fault with its line and kind.
pub fn read_log(alloc: Global, bytes: &[u8]) -> Result<Log, LogStop>
    ensures { LogGives (λ log. log) result (log_of bytes.now) }
{
    if bytes.len() > MOST_LOG_BYTES {
        return Err(LogStop::Fault(LogFault {
            line: 0,
            kind: LogKind::TooLong,
        }));
    }
    let parts = lines(alloc, bytes)?;
    match read_parts(alloc, parts.as_slice()) {
        Ok(reader) => Ok(Log::new(reader.nue, reader.comms, reader.lists)),
        Err(stop) => Err(stop),
    }
}
