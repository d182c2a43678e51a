//! Ends of programs: texts of complaints, the ends of the test program, numbers among words, and that there is memory.

use crate::cases::words_of;
use crate::line_count::line_count;
use outcomes::Status::{Files, Finished, Memory, Script, Words, Write};
use outcomes::{Complaint, Status, ue_count};
use rcce_io::{MemFiles, MemSink};
use std::alloc::{AllocError, Global};
use std::process::Abort;
use texts::number_in;

/// A run of the program: its words, the call of each kind that fails, how it ends, and what it writes.
///
/// The kinds are the calls that read files, the writes to `out` and those to `err`. Each is counted from 1: at 0 none fails.
struct Row {
    words: &'static [&'static str],
    failing: [u64; 3],
    status: Status,
    out: &'static str,
    err: &'static str,
}

/// Files of which `a` has two lines and a half, `most` as many bytes as are read, and `long` one more.
fn three_files(alloc: Global) -> Result<MemFiles, AllocError> {
    let lines = vec![in alloc; b'\n'; 5_001]?;
    let mut files = MemFiles::new(alloc);
    files.add("a", b"one\ntwo\nthree")?;
    files.add("most", &lines[1..])?;
    files.add("long", &lines)?;
    Ok(files)
}

/// A sink that takes at most two bytes at a write.
fn sink(alloc: Global, failing: u64) -> Result<MemSink, AllocError> {
    let mut sink = MemSink::new(alloc, 64, 2)?;
    sink.fail_at(failing);
    Ok(sink)
}

/// Whether the call that was set to fail, if any, is the last one that was made.
fn is_last(failing: u64, made: u64) -> bool {
    failing == 0 || failing == made
}

/// Whether the sink has this text, and no write was made after a failed one.
fn is_written(sink: &MemSink, failing: u64, text: &str) -> bool {
    sink.bytes() == text.as_bytes() && is_last(failing, sink.writes_made())
}

/// Whether a run of this status ends as its row states. No call is made after a failed one, and no call reads a file if the words are
/// rejected.
fn is_end(status: Status, reads: u64, out: &MemSink, err: &MemSink, row: &'static Row) -> bool {
    status == row.status
        && is_written(out, row.failing[1], row.out)
        && is_written(err, row.failing[2], row.err)
        && is_last(row.failing[0], reads)
        && (status != Words || reads == 0)
}

/// Whether a run on these files ends so.
fn ends_so(
    alloc: Global,
    words: &[String],
    files: &mut MemFiles,
    row: &'static Row,
) -> Result<bool, AllocError> {
    let mut out = sink(alloc, row.failing[1])?;
    let mut err = sink(alloc, row.failing[2])?;
    let status = line_count(alloc, words, files, &mut out, &mut err);
    Ok(is_end(status, files.calls_made(), &out, &err, row))
}

/// Whether the program runs so.
fn runs_so(alloc: Global, row: &'static Row) -> Result<bool, AllocError> {
    let words = words_of(alloc, row.words)?;
    let mut files = three_files(alloc)?;
    files.fail_at(row.failing[0]);
    ends_so(alloc, words.as_slice(), &mut files, row)
}

fn expect<R: Abort>(rt: &R, alloc: Global, rows: &'static [Row]) {
    for row in rows {
        assert!(rt; matches!(runs_so(alloc, row), Ok(true)));
    }
}

const COUNTED: &[Row] = &[Row {
    words: &["a"],
    failing: [0, 0, 0],
    status: Finished,
    out: "2\n",
    err: "",
}];

#[test]
fn lines_are_counted(rt: HostRuntime) {
    assert!(rt; Finished.number() == 0);
    expect(&rt, rt.alloc(), COUNTED);
}

const REFUSED: &[Row] = &[
    Row {
        words: &[],
        failing: [0, 0, 0],
        status: Words,
        out: "",
        err: "lines: words refused\n",
    },
    Row {
        words: &["-a"],
        failing: [0, 0, 0],
        status: Words,
        out: "",
        err: "lines: words refused\n",
    },
    Row {
        words: &["a", "a"],
        failing: [0, 0, 0],
        status: Words,
        out: "",
        err: "lines: words refused\n",
    },
];

#[test]
fn words_are_refused_before_a_file_is_asked_for(rt: HostRuntime) {
    expect(&rt, rt.alloc(), REFUSED);
}

const ABSENT: &[Row] = &[Row {
    words: &["b"],
    failing: [0, 0, 0],
    status: Files,
    out: "",
    err: "lines: b: absent\n",
}];

#[test]
fn an_absent_file(rt: HostRuntime) {
    expect(&rt, rt.alloc(), ABSENT);
}

const READ_FAULTS: &[Row] = &[
    Row {
        words: &["a"],
        failing: [1, 0, 0],
        status: Files,
        out: "",
        err: "lines: a: read fault\n",
    },
    Row {
        words: &["a"],
        failing: [2, 0, 0],
        status: Files,
        out: "",
        err: "lines: a: read fault\n",
    },
    Row {
        words: &["a"],
        failing: [3, 0, 0],
        status: Files,
        out: "",
        err: "lines: a: read fault\n",
    },
];

#[test]
fn nothing_is_read_after_a_read_fault(rt: HostRuntime) {
    expect(&rt, rt.alloc(), READ_FAULTS);
}

const FAILED_WRITES: &[Row] = &[
    Row {
        words: &["a"],
        failing: [0, 2, 0],
        status: Write,
        out: "2",
        err: "",
    },
    Row {
        words: &["b"],
        failing: [0, 0, 3],
        status: Write,
        out: "",
        err: "line",
    },
];

#[test]
fn nothing_is_written_after_a_failed_write(rt: HostRuntime) {
    expect(&rt, rt.alloc(), FAILED_WRITES);
}

const LONG: &[Row] = &[
    Row {
        words: &["long"],
        failing: [0, 0, 0],
        status: Script,
        out: "",
        err: "lines: long line 0: TooLong\n",
    },
    Row {
        words: &["most"],
        failing: [0, 0, 0],
        status: Finished,
        out: "5000\n",
        err: "",
    },
];

#[test]
fn a_longer_file_is_refused(rt: HostRuntime) {
    expect(&rt, rt.alloc(), LONG);
}

/// A complaint, its status, and its line.
type Told = (Complaint<'static>, Status, &'static str);

const COMPLAINTS: &[Told] = &[
    (
        Complaint::Words {
            fault: "bad number after ",
            word: "-nue",
            afterwards: ": ",
            value: "49",
        },
        Words,
        "rccerun: bad number after -nue: 49\n",
    ),
    (
        Complaint::Refused {
            file: "s.rcce",
            line: 3,
            kind: "SelfMessage",
        },
        Script,
        "rccerun: s.rcce line 3: SelfMessage\n",
    ),
    (Complaint::Memory, Memory, "rccerun: no memory\n"),
    (
        Complaint::Absent("s.rcce"),
        Files,
        "rccerun: s.rcce: absent\n",
    ),
    (
        Complaint::ReadFault("s.rcce"),
        Files,
        "rccerun: s.rcce: read fault\n",
    ),
];

/// Whether a complaint has this status, and writes this line.
fn is_told_on(sink: &mut MemSink, row: &'static Told) -> bool {
    let (complaint, status, line) = row;
    complaint.status() == *status
        && complaint.write("rccerun", sink).is_ok()
        && sink.bytes() == line.as_bytes()
}

fn is_told(alloc: Global, row: &'static Told) -> bool {
    match MemSink::new(alloc, 64, 64) {
        Ok(mut sink) => is_told_on(&mut sink, row),
        Err(_) => false,
    }
}

fn all_are_told(alloc: Global) -> bool {
    for row in COMPLAINTS {
        if !is_told(alloc, row) {
            return false;
        }
    }
    true
}

#[test]
fn each_complaint_has_one_line(rt: HostRuntime) {
    assert!(rt; all_are_told(rt.alloc()));
}

const COUNTS: &[(&str, Option<u8>)] = &[
    ("1", Some(1)),
    ("48", Some(48)),
    ("0000000048", Some(48)),
    ("00000000048", None),
    ("0", None),
    ("49", None),
    ("", None),
    ("+2", None),
    ("2 ", None),
    ("4294967296", None),
];

/// A word, the bounds of its number, and the number.
const NUMBERS: &[(&str, u32, u32, Option<u32>)] = &[
    ("4294967295", 0, 4_294_967_295, Some(4_294_967_295)),
    ("9999999999", 0, 4_294_967_295, None),
    ("0", 0, 1_024, Some(0)),
    ("1025", 0, 1_024, None),
];

fn are_counts() -> bool {
    for (word, count) in COUNTS {
        if ue_count(word) != *count {
            return false;
        }
    }
    true
}

fn are_numbers() -> bool {
    for (word, least, most, number) in NUMBERS {
        if number_in(word.as_bytes(), *least, *most) != *number {
            return false;
        }
    }
    true
}

#[test]
fn numbers_have_one_to_ten_digits(rt: HostRuntime) {
    assert!(rt; are_counts() && are_numbers());
}
