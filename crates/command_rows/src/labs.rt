//! What no clause states: a lab ends as its clauses state if each call on its file and the sinks fails in turn.

use crate::cases::{Given, Wanted};
use crate::faults::{Case, expect};
use crate::programs::Laboratory;
use outcomes::Status;

/// The line on err if the lab cannot be read.
const LAB_FAULT: &[u8] = b"rccelab: s: read fault\n";

/// A core reads an old copy instead of the new word.
const AN_OLD_COPY: &Case = &Case {
    given: Given {
        words: &["s"],
        hosts: b"",
        script: OLD_COPY,
    },
    wanted: Wanted {
        status: Status::Stuck,
        reads: 81,
        out: OLD_COPY_SAYS,
        err: b"line 4: 0:3.0 is 0000000000000000, expected 000000000000002a\n",
    },
    host_reads: 0,
    fault: LAB_FAULT,
};

const OLD_COPY: &[u8] = b"core 1 read 0:3.0\n\
core 0 write 3.0 2a\n\
core 0 flush\n\
core 1 read 0:3.0 expect 2a\n";

const OLD_COPY_SAYS: &[u8] = b"line 1: core 1 read 0:3.0\n\
1 load 0.228.0 0000000000000000 # heap\n\
1 load 0.228.1 0000000000000000 # heap\n\
1 load 0.228.2 0000000000000000 # heap\n\
1 load 0.228.3 0000000000000000 # heap\n\
answer 0:3.0 0000000000000000 from words\n\
line 2: core 0 write 3.0 2a\n\
line 3: core 0 flush\n\
0 store 0.228.0 000000000000002a # heap\n\
line 4: core 1 read 0:3.0 expect 2a\n\
answer 0:3.0 0000000000000000 from cache\n";

/// A register is taken and freed, and a core is printed in between.
const A_REGISTER: &Case = &Case {
    given: Given {
        words: &["s"],
        hosts: b"",
        script: b"core 2 take 5\ncore 2 print\ncore 2 free 5\n",
    },
    wanted: Wanted {
        status: Status::Finished,
        reads: 43,
        out: REGISTER_SAYS,
        err: b"",
    },
    host_reads: 0,
    fault: LAB_FAULT,
};

const REGISTER_SAYS: &[u8] = b"line 1: core 2 take 5\n\
2 take 5.register 0000000000000001 # register\n\
answer took\n\
line 2: core 2 print\n\
core 2 caches nothing\n\
core 2 buffers nothing\n\
line 3: core 2 free 5\n\
2 free 5.register 0000000000000000 # register\n";

/// A lab is rejected.
const NO_SUCH_CORE: &Case = &Case {
    given: Given {
        words: &["s"],
        hosts: b"",
        script: b"core 0 flush\ncore 48 flush\n",
    },
    wanted: Wanted {
        status: Status::Script,
        reads: 29,
        out: b"",
        err: b"rccelab: s line 2: BadCore\n",
    },
    host_reads: 0,
    fault: LAB_FAULT,
};

/// Words are rejected.
const TWO_NAMES: &Case = &Case {
    given: Given {
        words: &["s", "h"],
        hosts: b"",
        script: b"",
    },
    wanted: Wanted {
        status: Status::Words,
        reads: 0,
        out: b"",
        err: b"rccelab: words refused\n",
    },
    host_reads: 0,
    fault: b"",
};

const LABS: &[&Case] = &[AN_OLD_COPY, A_REGISTER, NO_SUCH_CORE, TWO_NAMES];

#[test]
fn each_call_of_rccelab_fails_in_turn(rt: HostRuntime) {
    expect(&rt, rt.alloc(), &Laboratory, LABS);
}
