//! Runs of a worker that a user writes: a number goes round a ring.

use crate::ring_turns::seated;
use crate::runs::BOTH_MODES;
use crate::scripts::LAYOUTS;
use chip_run::{Mode, Open, RunEnd, run};
use chip_teams::opened;
use scc_base::{CommRule, Layout};
use std::alloc::Global;
use std::test::Fail;
use std::thread::Threads;

/// Whether a number that four ranks pass round returns raised by each of them, and all ranks finish.
fn comes_round<R: Threads + Sync>(
    rt: &R,
    alloc: Global,
    layout: Layout,
    mode: Mode,
) -> Result<bool, Fail> {
    let mut chip = opened(alloc, 4, layout, CommRule::Absent)?;
    let mut ring = [
        seated(3, 1, true, 7),
        seated(0, 2, false, 0),
        seated(1, 3, false, 0),
        seated(2, 0, false, 0),
    ];
    let end = run(rt, &mut chip, &mut ring, mode, &Open);
    Ok(end == RunEnd::Finished && ring[0].worker.number[0] == 11)
}

#[test]
fn a_number_comes_round_a_ring(rt: HostRuntime) -> Result<(), Fail> {
    for layout in LAYOUTS {
        for mode in BOTH_MODES {
            assert!(rt; comes_round(&rt, rt.alloc(), *layout, *mode)?);
        }
    }
    Ok(())
}
