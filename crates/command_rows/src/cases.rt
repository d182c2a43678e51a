//! Runs of programs on files and sinks in memory, in which given calls fail.

use crate::programs::Program;
use outcomes::Status;
use rcce_io::{MemFiles, MemSink};
use std::alloc::{AllocError, Global};
use std::thread::Threads;

/// The size of a sink, more than any test writes.
const MOST_BYTES: usize = 8_388_608;

/// What a program is given: its words, and the bytes of the files `h` and `s`.
#[derive(Clone, Copy)]
pub struct Given {
    pub words: &'static [&'static str],
    pub hosts: &'static [u8],
    pub script: &'static [u8],
}

/// The result of a run: its status, how many calls read files, and what it wrote to both sinks.
#[derive(Clone, Copy)]
pub struct Wanted<'a> {
    pub status: Status,
    pub reads: u64,
    pub out: &'a [u8],
    pub err: &'a [u8],
}

/// The calls that fail, each counted from 1, or none at 0: the one that reads a file, the write to out, and the one to err.
#[derive(Clone, Copy)]
pub struct Failing {
    pub read: u64,
    pub out: u64,
    pub err: u64,
}

/// No call fails.
pub const NOWHERE: Failing = Failing {
    read: 0,
    out: 0,
    err: 0,
};

/// Rank 0 sends four bytes to rank 1, which prints them.
pub const FOUR_BYTES: &[u8] = b"ue 0\nbytes x 01020304\nsend 1 x\nue 1\nrecv 0 y 4\nprint y\n";

/// How a run ended, how many calls read files, and the sinks.
#[derive(Drop)]
pub struct Ended {
    pub status: Status,
    pub reads: u64,
    pub out: MemSink,
    pub err: MemSink,
}

impl Ended {
    /// Whether the run had this result.
    pub fn is(&self, wanted: &Wanted) -> bool {
        self.status == wanted.status
            && self.reads == wanted.reads
            && self.out.bytes() == wanted.out
            && self.err.bytes() == wanted.err
    }
}

/// Adds one word after the others.
fn push_word(words: &mut Vec<String>, alloc: Global, text: &str) -> Result<(), AllocError> {
    words.push(String::from_str(alloc, text)?)?;
    Ok(())
}

/// The words of a program.
pub fn words_of(alloc: Global, texts: &[&str]) -> Result<Vec<String>, AllocError> {
    let mut words = Vec::new(alloc);
    for text in texts {
        push_word(&mut words, alloc, text)?;
    }
    Ok(words)
}

/// The files of a run, which return one byte at a time.
fn files_of(alloc: Global, given: &Given, failing: Failing) -> Result<MemFiles, AllocError> {
    let mut files = MemFiles::new(alloc);
    files.add("h", given.hosts)?;
    files.add("s", given.script)?;
    files.piece(1);
    files.fail_at(failing.read);
    Ok(files)
}

/// A sink that takes one byte at a time.
fn sink(alloc: Global, failing: u64) -> Result<MemSink, AllocError> {
    let mut sink = MemSink::new(alloc, MOST_BYTES, 1)?;
    sink.fail_at(failing);
    Ok(sink)
}

/// Runs a program in which these calls fail.
pub fn run<R: Threads + Sync, P: Program>(
    rt: &R,
    alloc: Global,
    program: &P,
    given: &Given,
    failing: Failing,
) -> Result<Ended, AllocError> {
    let words = words_of(alloc, given.words)?;
    let mut files = files_of(alloc, given, failing)?;
    run_on(rt, alloc, program, words.as_slice(), &mut files, failing)
}

fn run_on<R: Threads + Sync, P: Program>(
    rt: &R,
    alloc: Global,
    program: &P,
    words: &[String],
    files: &mut MemFiles,
    failing: Failing,
) -> Result<Ended, AllocError> {
    let mut out = sink(alloc, failing.out)?;
    let mut err = sink(alloc, failing.err)?;
    let status = program.run(rt, alloc, words, files, &mut out, &mut err);
    Ok(Ended {
        status,
        reads: files.calls_made(),
        out,
        err,
    })
}

/// Whether a run in which these calls fail has this result.
pub fn comes<R: Threads + Sync, P: Program>(
    rt: &R,
    alloc: Global,
    program: &P,
    given: &Given,
    failing: Failing,
    wanted: &Wanted,
) -> bool {
    match run(rt, alloc, program, given, failing) {
        Ok(ended) => ended.is(wanted),
        Err(_) => false,
    }
}
