//! Runs whose calls are kept: that there is memory, and the calls of a script.

ghost use Rattle.std.specs.Prelude.{◌≡◌, ◌<◌};

use crate::scripts::{FOUR_BYTES, setup_of};
use chip_run::RunEnd;
use log_run::{LogRun, has_room, run_script};
use scc_base::{Layout, Rank};
use scc_mesh::Chip;
use script_reader::read_script;
use script_rules::Scripts;
use std::alloc::{AllocError, Global};

const BYTES: &[u8] = &[1, 2, 3, 4];

/// Whether a rank has made one call, of four bytes.
fn keeps_one_call(run: &LogRun<'_>, rank: Rank) -> bool
    requires below { rank < run.now.nue }
{
    run.calls(rank).len() == 1 && run.bytes(rank) == BYTES
}

/// Whether a run of two ranks has finished, and keeps one call of each.
fn keeps_two_calls(run: &LogRun<'_>) -> bool
    requires two { run.now.nue ≡ 2 }
{
    keeps_one_call(run, Rank::of(0))
        && keeps_one_call(run, Rank::of(1))
        && run.end() == RunEnd::Finished
}

/// Whether a run of a script for two ranks has enough memory, finishes, and keeps one call of each rank.
fn keeps_both(alloc: Global, scripts: &Scripts, layout: Layout) -> Result<bool, AllocError>
    requires two { scripts.now.nue ≡ 2 }
{
    let Some(setup) = setup_of(scripts, layout, false) else {
        return Ok(false);
    };
    if !has_room(alloc, scripts)? {
        return Ok(false);
    }
    let mut chip = Chip::blank();
    let run = run_script(alloc, scripts, &setup, &mut chip)?;
    Ok(keeps_two_calls(&run))
}

/// Whether the run of this text does so.
fn is_kept(alloc: Global, text: &[u8], layout: Layout) -> bool {
    match read_script(alloc, text, 2) {
        Ok(scripts) => matches!(keeps_both(alloc, &scripts, layout), Ok(true)),
        Err(_) => false,
    }
}

#[test]
fn a_message_is_kept_by_both_ranks_in_both_layouts(rt: HostRuntime) {
    assert!(rt; is_kept(rt.alloc(), FOUR_BYTES, Layout::LineFlags));
    assert!(rt; is_kept(rt.alloc(), FOUR_BYTES, Layout::BitFlags));
}
