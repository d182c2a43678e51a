//! What no clause states: a run ends as its clauses state if each call on its files and sinks fails in turn.

use crate::cases::{FOUR_BYTES, Given, Wanted};
use crate::faults::{Case, expect};
use crate::programs::{Audit, Collectives, Launcher, MeshLoad, WaitCheck};
use outcomes::Status;

/// Its second message is never received.
const UNFINISHED: &[u8] = b"ue 0\nbytes x aa\nsend 1 x\nsend 1 x\nue 1\nrecv 0 y 1\n";

/// Four bytes arrive.
const FOUR_ARRIVE: &Case = &Case {
    given: Given {
        words: &["-nue", "2", "s"],
        hosts: b"",
        script: FOUR_BYTES,
    },
    wanted: Wanted {
        status: Status::Finished,
        reads: 57,
        out: b"ue 1 y 01020304\n",
        err: b"",
    },
    host_reads: 0,
    fault: b"rccerun: s: read fault\n",
};

/// Two ranks wait for a third one.
const TWO_WAIT: &Case = &Case {
    given: Given {
        words: &["-nue", "3", "s"],
        hosts: b"",
        script: b"ue 0-1\nbarrier\n",
    },
    wanted: Wanted {
        status: Status::Stuck,
        reads: 17,
        out: b"",
        err: b"ue 0 waits at line 2: barrier 0\nue 1 waits at line 2: barrier 0\n",
    },
    host_reads: 0,
    fault: b"rccerun: s: read fault\n",
};

/// A script is rejected.
const A_SCRIPT_IS_REFUSED: &Case = &Case {
    given: Given {
        words: &["-nue", "2", "s"],
        hosts: b"",
        script: b"ue 0\nbytes x 00\nsend 0 x\n",
    },
    wanted: Wanted {
        status: Status::Script,
        reads: 27,
        out: b"",
        err: b"rccerun: s line 3: SelfMessage\n",
    },
    host_reads: 0,
    fault: b"rccerun: s: read fault\n",
};

/// The cores are those of a host file.
const HOSTS_ARE_READ: &Case = &Case {
    given: Given {
        words: &["-nue", "2", "-f", "h", "s"],
        hosts: b"5\nrck07\n",
        script: FOUR_BYTES,
    },
    wanted: Wanted {
        status: Status::Finished,
        reads: 67,
        out: b"ue 1 y 01020304\n",
        err: b"",
    },
    host_reads: 10,
    fault: b"rccerun: s: read fault\n",
};

/// `-gen` reads no file.
const NO_FILE: &Case = &Case {
    given: Given {
        words: &["-nue", "2", "-gen", "0"],
        hosts: b"",
        script: b"",
    },
    wanted: Wanted {
        status: Status::Finished,
        reads: 0,
        out: b"gen 0 ues 2 sends 4 bytes 16 sum 2\n",
        err: b"",
    },
    host_reads: 0,
    fault: b"",
};

const RUNS: &[&Case] = &[FOUR_ARRIVE, TWO_WAIT, A_SCRIPT_IS_REFUSED, HOSTS_ARE_READ];

#[test]
fn each_call_of_rccerun_fails_in_turn(rt: HostRuntime) {
    expect(&rt, rt.alloc(), &Launcher, RUNS);
}

#[test]
fn a_script_of_a_number_asks_for_no_file(rt: HostRuntime) {
    expect(&rt, rt.alloc(), &Launcher, &[NO_FILE]);
}

/// A log of no calls is legal.
const NO_CALLS: &Case = &Case {
    given: Given {
        words: &["s"],
        hosts: b"",
        script: b"rcce log 2\n",
    },
    wanted: Wanted {
        status: Status::Finished,
        reads: 13,
        out: b"legal\n",
        err: b"",
    },
    host_reads: 0,
    fault: b"rcceaudit: s: read fault\n",
};

/// A log of one message is legal.
const ONE_MESSAGE: &Case = &Case {
    given: Given {
        words: &["s"],
        hosts: b"",
        script: b"rcce log 2\n0 send 1 plain 0 4 01020304\n1 recv 0 plain 0 4 01020304\n",
    },
    wanted: Wanted {
        status: Status::Finished,
        reads: 69,
        out: b"legal\n",
        err: b"",
    },
    host_reads: 0,
    fault: b"rcceaudit: s: read fault\n",
};

/// A run is logged.
const A_RUN_IS_LOGGED: &Case = &Case {
    given: Given {
        words: &["-log", "-nue", "2", "s"],
        hosts: b"",
        script: FOUR_BYTES,
    },
    wanted: Wanted {
        status: Status::Finished,
        reads: 57,
        out: b"rcce log 2\n0 send 1 plain 0 4 01020304\n1 recv 0 plain 0 4 01020304\n",
        err: b"",
    },
    host_reads: 0,
    fault: b"rcceaudit: s: read fault\n",
};

const LOGS: &[&Case] = &[NO_CALLS, ONE_MESSAGE, A_RUN_IS_LOGGED];

#[test]
fn each_call_of_rcceaudit_fails_in_turn(rt: HostRuntime) {
    expect(&rt, rt.alloc(), &Audit, LOGS);
}

/// Two ranks get a piece of each.
const TWO_RANKS_GET: &Case = &Case {
    given: Given {
        words: &["2", "alltoall", "1"],
        hosts: b"",
        script: b"",
    },
    wanted: Wanted {
        status: Status::Finished,
        reads: 0,
        out: b"ue 0 alltoall 0007\nue 1 alltoall 030a\n",
        err: b"",
    },
    host_reads: 0,
    fault: b"",
};

/// Words are rejected.
const NO_LENGTH: &Case = &Case {
    given: Given {
        words: &["2", "gather"],
        hosts: b"",
        script: b"",
    },
    wanted: Wanted {
        status: Status::Words,
        reads: 0,
        out: b"",
        err: b"rccecoll: words refused\n",
    },
    host_reads: 0,
    fault: b"",
};

#[test]
fn each_write_of_rccecoll_fails_in_turn(rt: HostRuntime) {
    expect(&rt, rt.alloc(), &Collectives, &[TWO_RANKS_GET, NO_LENGTH]);
}

/// A message goes over one link.
const ONE_LINK: &Case = &Case {
    given: Given {
        words: &["-nue", "2", "-at", "5,7", "s"],
        hosts: b"",
        script: FOUR_BYTES,
    },
    wanted: Wanted {
        status: Status::Finished,
        reads: 57,
        out: b"2,0 -> 3,0 2\n",
        err: b"",
    },
    host_reads: 0,
    fault: b"rccemesh: s: read fault\n",
};

/// A message goes over one link, and another is never received.
const NOT_FINISHED: &Case = &Case {
    given: Given {
        words: &["-nue", "2", "-at", "0,2", "s"],
        hosts: b"",
        script: UNFINISHED,
    },
    wanted: Wanted {
        status: Status::Stuck,
        reads: 52,
        out: b"0,0 -> 1,0 2\n",
        err: b"rccemesh: not finished\n",
    },
    host_reads: 0,
    fault: b"rccemesh: s: read fault\n",
};

#[test]
fn each_call_of_rccemesh_fails_in_turn(rt: HostRuntime) {
    expect(&rt, rt.alloc(), &MeshLoad, &[ONE_LINK, NOT_FINISHED]);
}

/// One message arrives, and another is never received.
const ONE_WAITS: &Case = &Case {
    given: Given {
        words: &["-nue", "2", "s"],
        hosts: b"",
        script: UNFINISHED,
    },
    wanted: Wanted {
        status: Status::Stuck,
        reads: 52,
        out: b"0:3 -> 1:6 plain 0 1\nue 0 waits for 1, cause finished 1\n",
        err: b"",
    },
    host_reads: 0,
    fault: b"rccecheck: s: read fault\n",
};

#[test]
fn each_call_of_rccecheck_fails_in_turn(rt: HostRuntime) {
    expect(&rt, rt.alloc(), &WaitCheck, &[ONE_WAITS]);
}
