//! What no clause states: without `-serial` the ranks run in separate threads, each of which passes its gate, and with it they do not.

use crate::cases::{Given, NOWHERE, run};
use crate::programs::Program;
use chip_run::Gate;
use outcomes::Status;
use rcce_io::{Files, Sink};
use run_program::rccerun;
use scc_base::Rank;
use scc_mesh::Chip;
use std::alloc::Global;
use std::sync::atomic::{AtomicU64, Ordering};
use std::thread::Threads;

/// How many ranks there are.
const RANKS: usize = 4;

/// The most times that a rank polls for the others.
const LOOKS: u32 = 50_000_000;

/// A gate that counts the passes of each rank, and at which all may wait for each other. It also counts the ranks that gave up waiting.
#[derive(Drop)]
struct Passes {
    counts: [AtomicU64; RANKS],
    waits: bool,
    missed: AtomicU64,
}

impl Passes {
    fn new(waits: bool) -> Passes {
        Passes {
            counts: [
                AtomicU64::new(0),
                AtomicU64::new(0),
                AtomicU64::new(0),
                AtomicU64::new(0),
            ],
            waits,
            missed: AtomicU64::new(0),
        }
    }

    /// Whether each rank has passed at least once.
    fn have_all_come(&self) -> bool {
        for at in 0..RANKS {
            if self.counts[at].load(Ordering::SeqCst) == 0 {
                return false;
            }
        }
        true
    }

    /// Polls for the other ranks, until all have arrived.
    fn wait(&self) {
        for _ in 0..LOOKS {
            if self.have_all_come() {
                return;
            }
        }
        self.missed.fetch_add(1, Ordering::SeqCst);
    }

    /// Whether each rank has passed this many times, and none gave up waiting for the others.
    fn are_all(&self, wanted: u64) -> bool {
        for at in 0..RANKS {
            if self.counts[at].load(Ordering::SeqCst) != wanted {
                return false;
            }
        }
        self.missed.load(Ordering::SeqCst) == 0
    }

    /// Whether all arrived, and none gave up waiting for the others.
    fn was_held(&self) -> bool {
        self.have_all_come() && self.missed.load(Ordering::SeqCst) == 0
    }
}

impl Gate for Passes {
    fn pass(&self, rank: Rank) {
        let at = rank.number() as usize;
        if at < RANKS {
            self.counts[at].fetch_add(1, Ordering::SeqCst);
        }
        if self.waits {
            self.wait();
        }
    }
}

/// `rccerun`, whose ranks pass this gate.
impl Program for Passes {
    fn run<R: Threads + Sync, F: Files, O: Sink, E: Sink>(
        &self,
        rt: &R,
        alloc: Global,
        words: &[String],
        files: &mut F,
        out: &mut O,
        err: &mut E,
    ) -> Status {
        let mut chip = Chip::blank();
        rccerun(rt, alloc, words, files, out, err, &mut chip, self)
    }
}

/// Whether the ranks of a run finish, and out has what they print.
fn finish<R: Threads + Sync>(
    rt: &R,
    alloc: Global,
    gate: &Passes,
    given: &Given,
    out: &[u8],
) -> bool {
    match run(rt, alloc, gate, given, NOWHERE) {
        Ok(ended) => ended.status == Status::Finished && ended.out.bytes() == out,
        Err(_) => false,
    }
}

const TWO_PAIRS: &Given = &Given {
    words: &["-nue", "4", "s"],
    hosts: b"",
    script: b"even\nbytes x 01020304\nsend +1 x\nodd\nrecv -1 y 4\nprint y\n",
};

const FOURS: &[u8] = b"ue 1 y 01020304\nue 3 y 01020304\n";

/// Whether two pairs finish at a gate at which all wait for each other.
fn wait_for_each_other<R: Threads + Sync>(rt: &R, alloc: Global) -> bool {
    let gate = Passes::new(true);
    finish(rt, alloc, &gate, TWO_PAIRS, FOURS) && gate.was_held()
}

#[test]
fn four_ranks_wait_for_each_other_at_the_gate(rt: HostRuntime) {
    assert!(rt; wait_for_each_other(&rt, rt.alloc()));
}

/// The run ends in one round.
const NO_MESSAGES: &[u8] = b"all\nbytes x 07\nprint x\n";

const IN_THREADS: &Given = &Given {
    words: &["-nue", "4", "s"],
    hosts: b"",
    script: NO_MESSAGES,
};

const ON_ONE_THREAD: &Given = &Given {
    words: &["-nue", "4", "-serial", "1", "s"],
    hosts: b"",
    script: NO_MESSAGES,
};

const SEVENS: &[u8] = b"ue 0 x 07\nue 1 x 07\nue 2 x 07\nue 3 x 07\n";

/// Whether each rank passes the gate this many times, and all finish.
fn pass<R: Threads + Sync>(rt: &R, alloc: Global, given: &Given, wanted: u64) -> bool {
    let gate = Passes::new(false);
    finish(rt, alloc, &gate, given, SEVENS) && gate.are_all(wanted)
}

#[test]
fn each_rank_passes_the_gate_once_in_a_round(rt: HostRuntime) {
    assert!(rt; pass(&rt, rt.alloc(), IN_THREADS, 1));
}

#[test]
fn on_one_thread_no_rank_passes_the_gate(rt: HostRuntime) {
    assert!(rt; pass(&rt, rt.alloc(), ON_ONE_THREAD, 0));
}
