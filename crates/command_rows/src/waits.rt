//! For whom ranks wait, and why, at the ends of small scripts, by the calls themselves.

ghost use Rattle.std.specs.Prelude.{◌≡◌, ◌<◌};
ghost use Rattle.plain_meaning.specs.Meaning.{plain_ends};

use check_program::{Cause, cause, waits_for};
use scc_base::Rank;
use script_plain::{End, plain_run};
use script_reader::read_script;
use script_rules::Scripts;
use std::alloc::{AllocError, Global};

/// For whom a rank waits, and the end of a walk from it.
enum Told {
    Waits(u8, Why),
    Nobody,
}

/// The cause, by the number of its rank.
#[derive(PartialEq, Eq, Drop)]
enum Why {
    Finished(u8),
    Mismatch(u8),
    Cycle(u8),
}

/// A cause, by the number of its rank.
fn why_of(found: &Cause) -> Why {
    match found {
        Cause::Finished(rank) => Why::Finished(rank.number()),
        Cause::Mismatch(rank) => Why::Mismatch(rank.number()),
        Cause::Cycle(rank) => Why::Cycle(rank.number()),
    }
}

/// Whether this holds for a rank.
fn is_told(end: &End, scripts: &Scripts, rank: Rank, told: &Told) -> bool
    requires ended { end.now ≡ plain_ends scripts.now }
    requires below { rank < scripts.now.nue }
{
    let on = waits_for(end, scripts, rank);
    let found = cause(end, scripts, rank);
    match told {
        Told::Nobody => on.is_none() && found.is_none(),
        Told::Waits(number, why) => {
            let (Some(on), Some(found)) = (on, found) else {
                return false;
            };
            on.number() == *number && why_of(&found) == *why
        }
    }
}

/// Whether the plain run of a script ends so that this holds for its ranks.
fn are_told(alloc: Global, scripts: &Scripts, told: &[Told]) -> Result<bool, AllocError> {
    let end = plain_run(alloc, scripts)?;
    for number in 0..scripts.nue() {
        let at = number as usize;
        if at >= told.len() || !is_told(&end, scripts, Rank::of(number), &told[at]) {
            return Ok(false);
        }
    }
    Ok(true)
}

/// A script, and for whom each of its ranks waits.
struct Row {
    script: &'static [u8],
    told: &'static [Told],
}

impl Row {
    /// Whether it holds.
    fn is_so(&self, alloc: Global) -> bool {
        let nue = self.told.len();
        if nue < 1 || nue > 48 {
            return false;
        }
        match read_script(alloc, self.script, nue as u8) {
            Ok(scripts) => matches!(are_told(alloc, &scripts, self.told), Ok(true)),
            Err(_) => false,
        }
    }
}

const ROWS: &[Row] = &[
    // two ranks wait into a ring of three, whose least rank is 1
    Row {
        script: b"all\nbytes x 00\nue 0\nsend 4 x\nsend 1 x\nue 1\nsend 2 x\nue 2\nsend 3 x\nue 3\nsend 1 x\nue 4\nrecv 0 y 1\nrecv 0 y 1\n",
        told: &[
            Told::Waits(1, Why::Cycle(1)),
            Told::Waits(2, Why::Cycle(1)),
            Told::Waits(3, Why::Cycle(1)),
            Told::Waits(1, Why::Cycle(1)),
            Told::Waits(0, Why::Cycle(1)),
        ],
    },
    // a rank that has finished never enters a barrier
    Row {
        script: b"ue 0-1\nbarrier\n",
        told: &[
            Told::Waits(2, Why::Finished(2)),
            Told::Waits(2, Why::Finished(2)),
            Told::Nobody,
        ],
    },
    // a rank that rejected a message waits for nobody
    Row {
        script: b"ue 0\nbytes x 0001\nsend 1 x\nue 1\nrecv 0 y 1\nue 2\nrecv 0 y 1\n",
        told: &[
            Told::Waits(1, Why::Mismatch(1)),
            Told::Nobody,
            Told::Waits(0, Why::Mismatch(1)),
        ],
    },
    // a rank waits for the receiver of the posted message in its slot, before that of its send
    Row {
        script: b"ue 0\nbytes x 00\npost 2 x\nsend 1 x\nue 1\nrecv 0 y 1\n",
        told: &[
            Told::Waits(2, Why::Finished(2)),
            Told::Waits(0, Why::Finished(2)),
            Told::Nobody,
        ],
    },
    // ranks that all finish wait for nobody
    Row {
        script: b"ue 0\nbytes x 00\nsend 1 x\nue 1\nrecv 0 y 1\n",
        told: &[Told::Nobody, Told::Nobody],
    },
];

fn all_are_so(alloc: Global) -> bool {
    for row in ROWS {
        if !row.is_so(alloc) {
            return false;
        }
    }
    true
}

#[test]
fn each_rank_waits_for_a_rank_and_has_a_cause(rt: HostRuntime) {
    assert!(rt; all_are_so(rt.alloc()));
}
