//! What no clause states about the lines of a run: a plain run has the same lines; and the texts of ends at the largest numbers.

use crate::cases::{Given, NOWHERE, run};
use crate::programs::{Launcher, Program};
use outcomes::Status;
use rcce_io::{MemSink, Sink};
use run_program::{write_end, write_printed, write_unfinished};
use scc_base::{Call, Head, Kind, PostHead, Rank};
use script_machine::UeEnd;
use script_plain::plain_run;
use script_reader::read_script;
use script_rules::Scripts;
use std::alloc::{AllocError, Global};
use std::thread::Threads;

/// A script of four ranks, of which some print and some do not finish.
const SCRIPT: &[u8] =
    b"all\nrank x int\nprint x\nallreduce 0 sum int y x\nprint int y\nue 1\nsend 0 x\nue 2\nrecv 1 z 4\n";

/// The same script in its file.
const GIVEN: &Given = &Given {
    words: &["-nue", "4", "s"],
    hosts: b"",
    script: SCRIPT,
};

/// Whether the lines of a script's plain run could be written.
fn writes_plain<O: Sink, E: Sink>(
    alloc: Global,
    scripts: &Scripts,
    out: &mut O,
    err: &mut E,
) -> bool {
    match plain_run(alloc, scripts) {
        Ok(end) => {
            write_printed(out, scripts, &end).is_ok()
                && write_unfinished(err, scripts, &end).is_ok()
        }
        Err(_) => false,
    }
}

/// Whether the lines of a script's plain run are these.
fn are_plain(
    alloc: Global,
    scripts: &Scripts,
    out_bytes: &[u8],
    err_bytes: &[u8],
) -> Result<bool, AllocError> {
    let mut out = MemSink::new(alloc, 4096, 4096)?;
    let mut err = MemSink::new(alloc, 4096, 4096)?;
    let wrote = writes_plain(alloc, scripts, &mut out, &mut err);
    Ok(wrote && out.bytes() == out_bytes && err.bytes() == err_bytes)
}

/// Whether a run over the chip does not finish, and has the lines of the plain run.
fn comes_to_plain<R: Threads + Sync, P: Program>(
    rt: &R,
    alloc: Global,
    program: &P,
    scripts: &Scripts,
) -> bool {
    match run(rt, alloc, program, GIVEN, NOWHERE) {
        Ok(ended) => {
            let plain = are_plain(alloc, scripts, ended.out.bytes(), ended.err.bytes());
            matches!(plain, Ok(true)) && ended.status == Status::Stuck
        }
        Err(_) => false,
    }
}

/// Whether that of the script does.
fn script_comes_to_plain<R: Threads + Sync>(rt: &R, alloc: Global) -> bool {
    match read_script(alloc, SCRIPT, 4) {
        Ok(scripts) => comes_to_plain(rt, alloc, &Launcher, &scripts),
        Err(_) => false,
    }
}

#[test]
fn the_plain_run_has_the_same_lines(rt: HostRuntime) {
    assert!(rt; script_comes_to_plain(&rt, rt.alloc()));
}

/// Whether this is the line of rank 12 when it waits at a call.
fn has_line(alloc: Global, line: u32, call: Call, text: &[u8]) -> bool {
    match MemSink::new(alloc, 64, 64) {
        Ok(mut sink) => {
            let end = UeEnd::Waits { line, call };
            write_end(&mut sink, Rank::of(12), &end).is_ok() && sink.bytes() == text
        }
        Err(_) => false,
    }
}

const SEND: &[u8] = b"ue 12 waits at line 7: send to 47 alldown 3 65536\n";

const POST: &[u8] = b"ue 12 waits at line 100000: post to 47 plain 0 3584\n";

const BARRIER: &[u8] = b"ue 12 waits at line 1: barrier 15\n";

/// Whether rank 12 has its lines at a call for rank 47, with the greatest length, and at a barrier.
fn has_lines(alloc: Global) -> bool {
    let to = Rank::of(47);
    let Some(head) = Head::new(Kind::AllDown, 3, 65_536) else {
        return false;
    };
    let Some(post) = PostHead::plain(3_584) else {
        return false;
    };
    has_line(alloc, 7, Call::Send { to, head }, SEND)
        && has_line(alloc, 100_000, Call::Post { to, head: post }, POST)
        && has_line(alloc, 1, Call::Bar { comm: 15 }, BARRIER)
}

/// The lines of ends at the largest numbers.
#[test]
fn each_kind_of_call_has_a_text(rt: HostRuntime) {
    assert!(rt; has_lines(rt.alloc()));
}
