//! The outside of a program: sinks, buffers and files, in memory and of the system.

use crate::gathered::{GatherRow, Line, all_gather};
use rcce_io::{
    Files, Got, HostFiles, MemFiles, MemSink, Opened, ReadEnd, Sink, StdSink, read_all, write_all,
    write_texts,
};
use std::alloc::{AllocError, Global};

/// A sink, texts that are written to it with whether each is taken completely, and what the sink then has.
struct SinkRow {
    room: usize,
    /// What it takes at one write.
    most: usize,
    /// The writes set to fail, one after the other.
    failing: &'static [u64],
    texts: &'static [(&'static [u8], bool)],
    stands: &'static [u8],
}

fn sink_of(alloc: Global, row: &'static SinkRow) -> Result<MemSink, AllocError> {
    let mut sink = MemSink::new(alloc, row.room, row.most.max(1))?;
    for write in row.failing {
        sink.fail_at(*write);
    }
    Ok(sink)
}

/// Whether each text is taken completely or not, as the row states.
fn are_taken<S: Sink>(sink: &mut S, texts: &[(&[u8], bool)]) -> bool {
    for (text, whole) in texts {
        if write_all(sink, text).is_ok() != *whole {
            return false;
        }
    }
    true
}

/// Whether the sink takes the texts so.
fn takes(alloc: Global, row: &'static SinkRow) -> bool {
    match sink_of(alloc, row) {
        Ok(mut sink) => are_taken(&mut sink, row.texts) && sink.bytes() == row.stands,
        Err(_) => false,
    }
}

const IN_PIECES: &SinkRow = &SinkRow {
    room: 16,
    most: 3,
    failing: &[],
    texts: &[(b"ue 1 y 0102", true), (b"0304\n", true)],
    stands: b"ue 1 y 01020304\n",
};

#[test]
fn a_text_is_taken_piece_by_piece(rt: HostRuntime) {
    assert!(rt; takes(rt.alloc(), IN_PIECES));
}

const BYTE_BY_BYTE: &SinkRow = &SinkRow {
    room: 16,
    most: 1,
    failing: &[2],
    texts: &[(b"ue 1", false)],
    stands: b"u",
};

#[test]
fn a_sink_of_one_byte_that_fails_at_its_second_write(rt: HostRuntime) {
    assert!(rt; takes(rt.alloc(), BYTE_BY_BYTE));
}

const NO_ROOM: &SinkRow = &SinkRow {
    room: 3,
    most: 8,
    failing: &[],
    texts: &[(b"ue 1", false), (b"1", false)],
    stands: b"ue ",
};

#[test]
fn a_sink_fails_where_no_room_is_left(rt: HostRuntime) {
    assert!(rt; takes(rt.alloc(), NO_ROOM));
}

const TWO_NUMBERS: &SinkRow = &SinkRow {
    room: 16,
    most: 8,
    failing: &[1, 2],
    texts: &[(b"a", true), (b"b", false), (b"c", true)],
    stands: b"ac",
};

#[test]
fn the_last_number_set_counts(rt: HostRuntime) {
    assert!(rt; takes(rt.alloc(), TWO_NUMBERS));
}

const FOUR_TEXTS: &[usize] = &[800, 200, 700, 3];

const WAITING: &[GatherRow] = &[
    (FOUR_TEXTS, true, 1, (0, 1, false)),
    (FOUR_TEXTS, true, 2, (1_000, 2, false)),
    (FOUR_TEXTS, true, 3, (1_700, 3, false)),
    (FOUR_TEXTS, true, 4, (1_703, 3, true)),
];

#[test]
fn short_texts_wait_and_go_by_one_write(rt: HostRuntime) {
    assert!(rt; all_gather(rt.alloc(), WAITING));
}

/// A text after which one of one byte follows.
const LONG_TEXTS: &[GatherRow] = &[
    (&[1_023, 1], false, 0, (0, 0, true)),
    (&[1_024, 1], false, 0, (1_025, 2, true)),
    (&[1_025, 1], false, 0, (1_025, 1, true)),
];

#[test]
fn a_text_that_does_not_fit_goes_by_itself(rt: HostRuntime) {
    assert!(rt; all_gather(rt.alloc(), LONG_TEXTS));
}

/// Files with one file, `a`.
fn file_a(alloc: Global, contents: &[u8]) -> Result<MemFiles, AllocError> {
    let mut files = MemFiles::new(alloc);
    files.add("a", contents)?;
    Ok(files)
}

/// Whether a file is these bytes, or begins with them if it is longer than 9.
fn reads<F: Files>(alloc: Global, files: &mut F, name: &str, bytes: &[u8]) -> bool {
    match read_all(alloc, files, name, 9) {
        Ok(read) => read.as_slice() == bytes,
        Err(_) => false,
    }
}

/// Whether a reading of a file ends so.
fn fails<F: Files>(alloc: Global, files: &mut F, name: &str, end: ReadEnd) -> bool {
    read_all(alloc, files, name, 9).err() == Some(end)
}

const TWO_TEXTS: &[Line<'static>] = &[Line { bytes: b"ue 1" }, Line { bytes: b" y\n" }];

/// Whether no write is made after the second one, which fails.
fn stops_writing(alloc: Global) -> bool {
    match MemSink::new(alloc, 16, 1) {
        Ok(mut sink) => {
            sink.fail_at(2);
            write_texts(&mut sink, TWO_TEXTS).is_err() && sink.writes_made() == 2
        }
        Err(_) => false,
    }
}

/// Whether no call is made after the second one that reads a file, which fails.
fn stops_reading(alloc: Global) -> bool {
    match file_a(alloc, b"one") {
        Ok(mut files) => {
            files.fail_at(2);
            fails(alloc, &mut files, "a", ReadEnd::Failed) && files.calls_made() == 2
        }
        Err(_) => false,
    }
}

#[test]
fn no_call_is_made_after_a_failed_one(rt: HostRuntime) {
    assert!(rt; stops_writing(rt.alloc()) && stops_reading(rt.alloc()));
}

#[test]
fn more_room_than_memory_is_refused(rt: HostRuntime) {
    assert!(rt; MemSink::new(rt.alloc(), usize::MAX, 1).is_err());
}

/// A limit, and how many bytes are read of 10,000.
const LIMITS: &[(u16, usize)] = &[
    (10_001, 10_000),
    (10_000, 10_000),
    (9_999, 10_000),
    (9_998, 9_999),
    (4_096, 4_097),
    (0, 1),
];

/// Whether as many bytes are read of `a`.
fn is_len(alloc: Global, files: &mut MemFiles, limit: u16, len: usize) -> bool {
    match read_all(alloc, files, "a", limit as usize) {
        Ok(bytes) => bytes.as_slice().len() == len,
        Err(_) => false,
    }
}

fn are_lens(alloc: Global, files: &mut MemFiles) -> bool {
    for (limit, len) in LIMITS {
        if !is_len(alloc, files, *limit, *len) {
            return false;
        }
    }
    true
}

fn long_file_has_lens(alloc: Global) -> bool {
    match file_a(alloc, &[7; 10_000]) {
        Ok(mut files) => are_lens(alloc, &mut files),
        Err(_) => false,
    }
}

#[test]
fn a_file_is_read_up_to_one_byte_past_the_limit(rt: HostRuntime) {
    assert!(rt; long_file_has_lens(rt.alloc()));
}

/// Whether `a` is read by two bytes at most, or by one if the buffer can hold no more.
fn comes_in_pieces(files: &mut MemFiles) -> bool {
    files.open("a") == Opened::Open
        && files.read(&mut [0; 4]) == Got::Bytes(2)
        && files.read(&mut [0; 1]) == Got::Bytes(1)
}

/// Whether a file is read so, and then by eight calls in all.
fn arrives_whole(alloc: Global) -> bool {
    match file_a(alloc, b"three") {
        Ok(mut files) => {
            files.piece(2);
            comes_in_pieces(&mut files)
                && reads(alloc, &mut files, "a", b"three")
                && files.calls_made() == 8
        }
        Err(_) => false,
    }
}

#[test]
fn a_file_that_is_read_in_pieces_arrives_whole(rt: HostRuntime) {
    assert!(rt; arrives_whole(rt.alloc()));
}

fn two_files(alloc: Global) -> Result<MemFiles, AllocError> {
    let mut files = MemFiles::new(alloc);
    files.add("a", b"one")?;
    files.add("b", b"")?;
    Ok(files)
}

/// Whether two names have their contents, and a third one is not there.
fn are_two(alloc: Global, files: &mut MemFiles) -> bool {
    files.has_file("b")
        && !files.has_file("c")
        && reads(alloc, files, "a", b"one")
        && reads(alloc, files, "b", b"")
}

fn has_two_files(alloc: Global) -> bool {
    match two_files(alloc) {
        Ok(mut files) => are_two(alloc, &mut files),
        Err(_) => false,
    }
}

#[test]
fn each_name_has_its_own_contents(rt: HostRuntime) {
    assert!(rt; has_two_files(rt.alloc()));
}

/// Whether a name is absent that was not added.
fn is_absent(alloc: Global, name: &str) -> bool {
    match file_a(alloc, b"one") {
        Ok(mut files) => fails(alloc, &mut files, name, ReadEnd::Absent),
        Err(_) => false,
    }
}

#[test]
fn a_name_that_was_not_added_is_absent(rt: HostRuntime) {
    assert!(rt; is_absent(rt.alloc(), "none"));
}

/// Whether a reading fails with this call, and the next one does not.
fn fails_once(alloc: Global, call: u64) -> bool {
    match file_a(alloc, b"one") {
        Ok(mut files) => {
            files.fail_at(call);
            fails(alloc, &mut files, "a", ReadEnd::Failed) && reads(alloc, &mut files, "a", b"one")
        }
        Err(_) => false,
    }
}

#[test]
fn a_fault_at_each_call_of_a_reading(rt: HostRuntime) {
    for call in 1..4u64 {
        assert!(rt; fails_once(rt.alloc(), call));
    }
}

/// Whether the third call fails, and the next ones read what the ones before have left.
fn goes_on(files: &mut MemFiles) -> bool {
    let mut buf = [0; 2];
    files.open("a") == Opened::Open
        && files.read(&mut buf) == Got::Bytes(2)
        && buf == *b"on"
        && files.read(&mut buf) == Got::Failed
        && files.read(&mut buf) == Got::Bytes(1)
        && buf == *b"en"
        && files.read(&mut buf) == Got::End
}

fn leaves_the_rest(alloc: Global) -> bool {
    match file_a(alloc, b"one") {
        Ok(mut files) => {
            files.fail_at(3);
            goes_on(&mut files)
        }
        Err(_) => false,
    }
}

#[test]
fn a_fault_leaves_the_rest_of_the_file(rt: HostRuntime) {
    assert!(rt; leaves_the_rest(rt.alloc()));
}

const NOT_READ: &[(&str, ReadEnd)] = &[
    ("no such file", ReadEnd::Absent),
    (".", ReadEnd::Failed),
    ("/dev/null/below", ReadEnd::Failed),
];

/// Whether a name of 300 bytes is a fault.
fn fails_at_long_name<F: Files>(alloc: Global, files: &mut F) -> bool {
    match "n".repeat(alloc, 300) {
        Ok(name) => fails(alloc, files, name.as_str(), ReadEnd::Failed),
        Err(_) => false,
    }
}

fn all_fail<F: Files>(alloc: Global, files: &mut F) -> bool {
    for (name, end) in NOT_READ {
        if !fails(alloc, files, name, *end) {
            return false;
        }
    }
    true
}

fn is_system<F: Files>(alloc: Global, files: &mut F) -> bool {
    all_fail(alloc, files)
        && fails_at_long_name(alloc, files)
        && reads(alloc, files, "/dev/null", b"")
        && reads(alloc, files, "/dev/zero", &[0; 10])
}

#[test]
fn absent_is_what_the_system_does_not_find(rt: HostRuntime) {
    let mut files = HostFiles::new(rt);
    assert!(rt; is_system(rt.alloc(), &mut files));
}

#[test]
fn the_standard_streams_take_a_text(rt: HostRuntime) {
    let out = write_all(&mut StdSink::out(&rt), b"out\n");
    let err = write_all(&mut StdSink::err(&rt), b"err\n");
    assert!(rt; out.is_ok() && err.is_ok());
}
