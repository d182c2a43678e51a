//! What no clause and no row states: the longest texts arrive, and the longest runs and the greatest logs end.

use crate::cases::{Ended, FOUR_BYTES, Given, NOWHERE, run};
use crate::programs::{Audit, Launcher, Program};
use outcomes::Status;
use std::alloc::Global;
use std::process::Abort;
use std::thread::Threads;

/// A run that finishes, and the length, the front and the back of what it writes to out.
struct Row {
    given: Given,
    len: usize,
    front: &'static [u8],
    back: &'static [u8],
}

impl Row {
    /// Whether the run had this result.
    fn is_told_by(&self, ended: &Ended) -> bool {
        let out = ended.out.bytes();
        ended.status == Status::Finished
            && out.len() == self.len
            && out.starts_with(self.front)
            && out.ends_with(self.back)
            && ended.err.bytes().is_empty()
    }

    /// Whether its run has this result.
    fn comes<R: Threads + Sync, P: Program>(&self, rt: &R, alloc: Global, program: &P) -> bool {
        match run(rt, alloc, program, &self.given, NOWHERE) {
            Ok(ended) => self.is_told_by(&ended),
            Err(_) => false,
        }
    }
}

fn expect<R: Threads + Sync + Abort, P: Program>(rt: &R, alloc: Global, program: &P, rows: &[Row]) {
    for row in rows {
        assert!(rt; row.comes(rt, alloc, program));
    }
}

/// The smallest run that prints something.
const FOUR: &[Row] = &[Row {
    given: Given {
        words: &["-nue", "2", "s"],
        hosts: b"",
        script: FOUR_BYTES,
    },
    len: 16,
    front: b"ue 1 y 01020304",
    back: b"\n",
}];

#[test]
fn four_bytes_have_memory(rt: HostRuntime) {
    expect(&rt, rt.alloc(), &Launcher, FOUR);
}

/// One chunk, one byte more, and the most.
const MESSAGES: &[Row] = &[
    Row {
        given: Given {
            words: &["-nue", "2", "s"],
            hosts: b"",
            script: b"ue 0\nfill x 3584 5\nsend 1 x\nue 1\nrecv 0 y 3584\nprint y\n",
        },
        len: 7_176,
        front: b"ue 1 y 05060708",
        back: b"4a\n",
    },
    Row {
        given: Given {
            words: &["-nue", "2", "s"],
            hosts: b"",
            script: b"ue 0\nfill x 3585 5\nsend 1 x\nue 1\nrecv 0 y 3585\nprint y\n",
        },
        len: 7_178,
        front: b"ue 1 y 05060708",
        back: b"4b\n",
    },
    Row {
        given: Given {
            words: &["-nue", "2", "s"],
            hosts: b"",
            script: b"ue 0\nfill x 65536 5\nsend 1 x\nue 1\nrecv 0 y 65536\nprint y\n",
        },
        len: 131_080,
        front: b"ue 1 y 05060708",
        back: b"1d\n",
    },
];

#[test]
fn messages_of_many_bytes_arrive_whole(rt: HostRuntime) {
    expect(&rt, rt.alloc(), &Launcher, MESSAGES);
}

/// One byte more than a chunk has by bit flags.
const BY_BIT_FLAGS: &[Row] = &[Row {
    given: Given {
        words: &["-nue", "2", "-bits", "s"],
        hosts: b"",
        script: b"ue 0\nfill x 6625 5\nsend 1 x\nue 1\nrecv 0 y 6625\nprint y\n",
    },
    len: 13_258,
    front: b"ue 1 y 05060708",
    back: b"\n",
}];

#[test]
fn messages_of_many_bytes_arrive_whole_by_bit_flags(rt: HostRuntime) {
    expect(&rt, rt.alloc(), &Launcher, BY_BIT_FLAGS);
}

const MOST: &[Row] = &[
    Row {
        given: Given {
            words: &["-nue", "2", "s"],
            hosts: b"",
            script: b"all\nrepeat 50000\nbytes x 00\nend\n",
        },
        len: 0,
        front: b"",
        back: b"",
    },
    Row {
        given: Given {
            words: &["-nue", "2", "s"],
            hosts: b"",
            script: b"all\nfill x 65536 0\nrepeat 16\nprint x\nend\n",
        },
        len: 2 * 16 * 131_080,
        front: b"ue 0 x 00",
        back: b"\n",
    },
];

#[test]
fn the_most_operations_and_printed_bytes_finish(rt: HostRuntime) {
    expect(&rt, rt.alloc(), &Launcher, MOST);
}

/// The most calls, and the most bytes.
const LOGS: &[Row] = &[
    Row {
        given: Given {
            words: &["-log", "-nue", "1", "s"],
            hosts: b"",
            script: b"all\nrepeat 10000\nbarrier\nend\n",
        },
        len: 11 + 8 * 10_000,
        front: b"rcce log 1\n0 bar 0\n",
        back: b"0 bar 0\n",
    },
    Row {
        given: Given {
            words: &["-log", "-nue", "2", "s"],
            hosts: b"",
            script: b"ue 0\nfill x 65536 0\nrepeat 4\nsend 1 x\nend\nue 1\nrepeat 4\nrecv 0 x 65536\nend\n",
        },
        len: 11 + 8 * (131_072 + 24),
        front: b"rcce log 2\n0 send 1 plain 0 65536 00",
        back: b"\n",
    },
];

#[test]
fn as_much_as_a_log_may_have(rt: HostRuntime) {
    expect(&rt, rt.alloc(), &Audit, LOGS);
}
