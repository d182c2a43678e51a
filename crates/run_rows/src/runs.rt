//! What the clauses do not state: whole runs of scripts in both modes, and that memory suffices for them.

ghost use Rattle.std.specs.Prelude.{◌≡◌, IfOk};
ghost use Rattle.rcce_run.specs.UeRuns.{IsFreshCrew};
ghost use Rattle.scc_mesh.specs.Scenes.{ChipView, IsNew};
ghost use Rattle.script_rules.specs.Script.{rules_of};

use crate::evictors::PerRank;
use crate::scripts::{End, FOUR_BYTES, LAYOUTS, chip_with, has_printed, is_at, setup_of};
use chip_run::{Gate, Mode, Open, RunEnd};
use line_cache::{Always, Evict, Never, Seeded};
use rcce_run::{Crew, run};
use rcce_ue::Ue;
use scc_base::{Layout, Rank, Setup};
use scc_mesh::Chip;
use script_reader::read_script;
use script_rules::Scripts;
use std::alloc::{AllocError, Global};
use std::thread::Threads;

/// A script and its results: the end of the run, and for each rank its end and the items that it prints.
#[derive(Drop)]
pub(crate) struct Row<'a> {
    script: &'a [u8],
    end: RunEnd,
    ranks: &'a [(End, &'a [&'a [u8]])],
}

/// Rank 0 sends four bytes to rank 1, which prints them.
const FOUR_ARRIVE: &Row<'static> = &Row {
    script: FOUR_BYTES,
    end: RunEnd::Finished,
    ranks: &[(End::Finished, &[]), (End::Finished, &[&[1, 2, 3, 4]])],
};

/// Rank 0 sends four bytes to rank 1, and rank 2 to rank 3.
pub(crate) const TWO_PAIRS: &Row<'static> = &Row {
    script: b"even\nbytes x 01020304\nsend +1 x\nodd\nrecv -1 y 4\nprint y\n",
    end: RunEnd::Finished,
    ranks: &[
        (End::Finished, &[]),
        (End::Finished, &[&[1, 2, 3, 4]]),
        (End::Finished, &[]),
        (End::Finished, &[&[1, 2, 3, 4]]),
    ],
};

/// The same by six ranks.
pub(crate) const THREE_PAIRS: &Row<'static> = &Row {
    script: b"even\nbytes x 01020304\nsend +1 x\nodd\nrecv -1 y 4\nprint y\n",
    end: RunEnd::Finished,
    ranks: &[
        (End::Finished, &[]),
        (End::Finished, &[&[1, 2, 3, 4]]),
        (End::Finished, &[]),
        (End::Finished, &[&[1, 2, 3, 4]]),
        (End::Finished, &[]),
        (End::Finished, &[&[1, 2, 3, 4]]),
    ],
};

/// Rank 0 sends a byte to each of five others.
pub(crate) const ONE_TO_FIVE: &Row<'static> = &Row {
    script: b"ue 0\nbytes x 09\nsend 1 x\nsend 2 x\nsend 3 x\nsend 4 x\nsend 5 x\nue 1-5\nrecv 0 y 1\nprint y\n",
    end: RunEnd::Finished,
    ranks: &[
        (End::Finished, &[]),
        (End::Finished, &[&[9]]),
        (End::Finished, &[&[9]]),
        (End::Finished, &[&[9]]),
        (End::Finished, &[&[9]]),
        (End::Finished, &[&[9]]),
    ],
};

/// A rank that finishes and prints nothing.
const IDLE: (End, &[&[u8]]) = (End::Finished, &[]);

/// Forty-eight ranks do nothing.
pub(crate) const ALL_IDLE: &Row<'static> = &Row {
    script: b"",
    end: RunEnd::Finished,
    ranks: &[IDLE; 48],
};

/// Four ranks print.
pub(crate) const NO_MESSAGES: &Row<'static> = &Row {
    script: b"all\nbytes x 07\nprint x\n",
    end: RunEnd::Finished,
    ranks: &[
        (End::Finished, &[&[7]]),
        (End::Finished, &[&[7]]),
        (End::Finished, &[&[7]]),
        (End::Finished, &[&[7]]),
    ],
};

/// A member for each rank, with an evictor like this one.
pub(crate) fn crew_of<'s, V: PerRank>(
    alloc: Global,
    scripts: &'s Scripts,
    setup: &Setup,
    like: &V,
) -> Result<Vec<Crew<'s, V>>, AllocError>
    requires ranks { setup.now.nue ≡ scripts.now.nue }
    requires communicators { setup.now.comms ≡ rules_of scripts.now.items }
    ensures fresh { IfOk result (λ crew. (chip : ChipView) → IsNew setup.now chip → IsFreshCrew scripts.now chip crew.items) }
{
    let mut crew = Vec::with_capacity(alloc, setup.nue() as usize)?;
    for number in 0..setup.nue() {
        let ue = Ue::new(
            alloc,
            scripts,
            setup.copy(),
            Rank::of(number),
            like.for_rank(number),
        )?;
        crew.push(Crew::new(ue))?;
    }
    Ok(crew)
}

/// Whether the ranks have the results that a row states.
fn are_as_told<V: Evict + Drop>(crew: &[Crew<'_, V>], row: &Row<'_>) -> bool {
    if crew.len() != row.ranks.len() {
        return false;
    }
    for at in 0..crew.len() {
        let (end, printed) = &row.ranks[at];
        let ue = &crew[at].worker;
        if !is_at(ue, end) || !has_printed(ue, printed) {
            return false;
        }
    }
    true
}

/// Whether a run of a script on this new chip has all results that a row states.
fn run_comes_to<V: PerRank + Send, G: Gate + Sync, R: Threads + Sync>(
    rt: &R,
    alloc: Global,
    chip: &mut Chip,
    scripts: &Scripts,
    setup: &Setup,
    row: &Row<'_>,
    like: &V,
    mode: Mode,
    gate: &G,
) -> Result<bool, AllocError>
    requires new { IsNew setup.now chip.old }
    requires ranks { setup.now.nue ≡ scripts.now.nue }
    requires communicators { setup.now.comms ≡ rules_of scripts.now.items }
{
    let mut crew = crew_of(alloc, scripts, setup, like)?;
    let end = run(rt, chip, crew.as_mut_slice(), mode, gate);
    Ok(end == row.end && are_as_told(crew.as_slice(), row))
}

/// Whether a run of a row's script, on a new chip in this layout, has all results that the row states.
pub(crate) fn comes_to<V: PerRank + Send, G: Gate + Sync, R: Threads + Sync>(
    rt: &R,
    alloc: Global,
    layout: Layout,
    row: &Row<'_>,
    like: &V,
    mode: Mode,
    gate: &G,
) -> bool {
    let nue = row.ranks.len();
    if nue < 1 || nue > 48 {
        return false;
    }
    let Ok(scripts) = read_script(alloc, row.script, nue as u8) else {
        return false;
    };
    let Some(setup) = setup_of(&scripts, layout, false) else {
        return false;
    };
    match chip_with(alloc, &setup) {
        Ok(mut chip) => matches!(
            run_comes_to(
                rt, alloc, &mut chip, &scripts, &setup, row, like, mode, gate
            ),
            Ok(true)
        ),
        Err(_) => false,
    }
}

/// Whether runs in both layouts and these modes do.
fn always_comes_to<V: PerRank + Send, R: Threads + Sync>(
    rt: &R,
    alloc: Global,
    row: &Row<'_>,
    like: &V,
    modes: &[Mode],
) -> bool {
    for mode in modes {
        for layout in LAYOUTS {
            if !comes_to(rt, alloc, *layout, row, like, *mode, &Open) {
                return false;
            }
        }
    }
    true
}

const MODES: &[Mode] = &[
    Mode::Serial(0),
    Mode::Serial(1),
    Mode::Serial(2),
    Mode::Serial(u64::MAX),
    Mode::Threads,
];

/// Whether four bytes arrive in every mode with evictors like this one.
fn four_bytes_arrive<V: PerRank + Send, R: Threads + Sync>(
    rt: &R,
    alloc: Global,
    like: &V,
) -> bool {
    always_comes_to(rt, alloc, FOUR_ARRIVE, like, MODES)
}

#[test]
fn four_bytes_arrive_in_every_mode_and_with_every_evictor(rt: HostRuntime) {
    assert!(rt; four_bytes_arrive(&rt, rt.alloc(), &Never));
    assert!(rt; four_bytes_arrive(&rt, rt.alloc(), &Always::new()));
    assert!(rt; four_bytes_arrive(&rt, rt.alloc(), &Seeded::new(0)));
}

const RING_THAT_ALL_SEND_FIRST: &Row<'static> = &Row {
    script: b"all\nfill x 1 9\nsend +1 x\nrecv -1 y 1\nprint y\n",
    end: RunEnd::Stuck,
    ranks: &[
        (End::Waits(3), &[]),
        (End::Waits(3), &[]),
        (End::Waits(3), &[]),
    ],
};

const RING_THAT_ALL_POST_FIRST: &Row<'static> = &Row {
    script: b"all\nfill x 1 9\npost +1 x\nrecv -1 y 1\nprint y\n",
    end: RunEnd::Finished,
    ranks: &[
        (End::Finished, &[&[9]]),
        (End::Finished, &[&[9]]),
        (End::Finished, &[&[9]]),
    ],
};

const POST_THAT_NOBODY_TAKES: &Row<'static> = &Row {
    script: b"ue 0\nbytes x 05\npost 1 x\nprint x\n",
    end: RunEnd::Stuck,
    ranks: &[(End::Waits(3), &[&[5]]), (End::Finished, &[])],
};

const SUM_IN_GROUPS_OF_GROUPS: &Row<'static> = &Row {
    script: b"rcce 2\nall\nsplit 1 div 3\nsplit 9 of 1 mod 2\nrank x int\nallreduce 9 sum int y x\nbarrier 9\nbarrier 1\nprint y\n",
    end: RunEnd::Finished,
    ranks: &[
        (End::Finished, &[&[2, 0, 0, 0]]),
        (End::Finished, &[&[1, 0, 0, 0]]),
        (End::Finished, &[&[2, 0, 0, 0]]),
        (End::Finished, &[&[8, 0, 0, 0]]),
        (End::Finished, &[&[4, 0, 0, 0]]),
        (End::Finished, &[&[8, 0, 0, 0]]),
    ],
};

const LENGTHS_THAT_DIFFER: &Row<'static> = &Row {
    script: b"ue 0\nbytes x 0001020304050607\nsend 1 x\nue 1\nrecv 0 y 4\nprint y\n",
    end: RunEnd::Stuck,
    ranks: &[(End::Waits(3), &[]), (End::Mismatch(5), &[])],
};

const ROWS: &[&Row<'static>] = &[
    RING_THAT_ALL_SEND_FIRST,
    RING_THAT_ALL_POST_FIRST,
    POST_THAT_NOBODY_TAKES,
    SUM_IN_GROUPS_OF_GROUPS,
    LENGTHS_THAT_DIFFER,
];

/// On one thread, and in threads.
pub(crate) const BOTH_MODES: &[Mode] = &[Mode::Serial(1), Mode::Threads];

#[test]
fn scripts_come_to_their_ends(rt: HostRuntime) {
    for row in ROWS {
        assert!(rt; always_comes_to(&rt, rt.alloc(), row, &Seeded::new(0), BOTH_MODES));
    }
}
