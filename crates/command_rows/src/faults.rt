//! A case of a program, run without a failure and with each of its calls on its files and sinks failing in turn.

use crate::cases::{Failing, Given, NOWHERE, Wanted, comes};
use crate::programs::Program;
use outcomes::Status;
use std::alloc::Global;
use std::process::Abort;
use std::thread::Threads;

/// A run, and its result if no call fails.
pub struct Case {
    pub given: Given,
    pub wanted: Wanted<'static>,
    /// How many calls read the host file, which is read first.
    pub host_reads: u64,
    /// The line on err if the script, the log or the lab cannot be read.
    pub fault: &'static [u8],
}

/// The line on err if the host file cannot be read.
const HOSTS_FAULT: &[u8] = b"rccerun: h: read fault\n";

impl Case {
    /// The result of a run whose call of this number cannot read a file.
    fn read_fault(&self, read: u64) -> Wanted<'static> {
        let err = if read <= self.host_reads {
            HOSTS_FAULT
        } else {
            self.fault
        };
        Wanted {
            status: Status::Files,
            reads: read,
            out: b"",
            err,
        }
    }
}

/// Each failing call that reads a file is reported, and is the last one, and nothing is written to out.
fn expect_read_faults<R: Threads + Sync + Abort, P: Program>(
    rt: &R,
    alloc: Global,
    program: &P,
    case: &Case,
) {
    for read in 1..case.wanted.reads.saturating_add(1) {
        let failing = Failing { read, ..NOWHERE };
        assert!(rt;
            comes(
                rt,
                alloc,
                program,
                &case.given,
                failing,
                &case.read_fault(read)
            )
        );
    }
}

/// Each failing write ends the text of out right there, and nothing is written to err.
fn expect_out_faults<R: Threads + Sync + Abort, P: Program>(
    rt: &R,
    alloc: Global,
    program: &P,
    case: &Case,
) {
    for taken in 0..case.wanted.out.len() {
        let failing = Failing {
            out: (taken as u64).saturating_add(1),
            ..NOWHERE
        };
        let wanted = Wanted {
            status: Status::Write,
            out: &case.wanted.out[..taken],
            err: b"",
            ..case.wanted
        };
        assert!(rt; comes(rt, alloc, program, &case.given, failing, &wanted));
    }
}

/// Each failing write ends the text of err right there, after the complete text of out. A call that reads a file fails too, if its number
/// is not 0.
fn expect_err_faults<R: Threads + Sync + Abort, P: Program>(
    rt: &R,
    alloc: Global,
    program: &P,
    given: &Given,
    read: u64,
    whole: &Wanted,
) {
    for taken in 0..whole.err.len() {
        let failing = Failing {
            read,
            out: 0,
            err: (taken as u64).saturating_add(1),
        };
        let wanted = Wanted {
            status: Status::Write,
            err: &whole.err[..taken],
            ..*whole
        };
        assert!(rt; comes(rt, alloc, program, given, failing, &wanted));
    }
}

/// The same for a case, and for what it reports if its first call that reads a file fails.
fn expect_untold<R: Threads + Sync + Abort, P: Program>(
    rt: &R,
    alloc: Global,
    program: &P,
    case: &Case,
) {
    if case.wanted.reads > 0 {
        expect_err_faults(rt, alloc, program, &case.given, 1, &case.read_fault(1));
    }
    expect_err_faults(rt, alloc, program, &case.given, 0, &case.wanted);
}

/// Nothing changes if calls past the last of each kind are set to fail.
fn expect_whole<R: Threads + Sync + Abort, P: Program>(
    rt: &R,
    alloc: Global,
    program: &P,
    case: &Case,
) {
    assert!(rt; comes(rt, alloc, program, &case.given, NOWHERE, &case.wanted));
    let past = Failing {
        read: case.wanted.reads.saturating_add(1),
        out: (case.wanted.out.len() as u64).saturating_add(1),
        err: (case.wanted.err.len() as u64).saturating_add(1),
    };
    assert!(rt; comes(rt, alloc, program, &case.given, past, &case.wanted));
}

/// Runs each case without a failure, and then with each of its calls failing in turn.
pub fn expect<R: Threads + Sync + Abort, P: Program>(
    rt: &R,
    alloc: Global,
    program: &P,
    cases: &[&Case],
) {
    for case in cases {
        expect_whole(rt, alloc, program, case);
        expect_read_faults(rt, alloc, program, case);
        expect_out_faults(rt, alloc, program, case);
        expect_untold(rt, alloc, program, case);
    }
}
