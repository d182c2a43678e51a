//! The loggers of a run, before its start.

ghost use Rattle.std.specs.Prelude.{◌≡◌, ◌<◌, IfOk};
ghost use Rattle.script_rules.specs.Script.{rules_of};
ghost use Rattle.log_run.specs.LogRuns.{AreFreshLoggers, IsFreshLogger};

use crate::loggers::Logger;
use call_tap::Tap;
use line_cache::Never;
use rcce_ue::Ue;
use scc_base::{Rank, Setup};
use script_rules::Scripts;
use std::alloc::{AllocError, Global};

// The logger of a rank: its UE, with a tap. Their memory is taken here.
fn logger_of<'s>(
    alloc: Global,
    scripts: &'s Scripts,
    setup: &Setup,
    rank: Rank,
) -> Result<Logger<Ue<'s, Never>>, AllocError>
    requires within { rank < setup.now.nue }
    requires ranks { setup.now.nue ≡ scripts.now.nue }
    requires communicators { setup.now.comms ≡ rules_of scripts.now.items }
    ensures { IfOk result (λ logger. IsFreshLogger scripts.now setup.now rank logger) }
{
    let tap = Tap::new(alloc, setup.copy(), rank)?;
    let ue = Ue::new(alloc, scripts, setup.copy(), rank, Never)?;
    Ok(Logger::new(ue, tap))
}

/// A UE with a tap for each rank, before its first turn. All their memory is taken here.
pub fn crew_of<'s>(
    alloc: Global,
    scripts: &'s Scripts,
    setup: &Setup,
) -> Result<Vec<Logger<Ue<'s, Never>>>, AllocError>
    requires ranks { setup.now.nue ≡ scripts.now.nue }
    requires communicators { setup.now.comms ≡ rules_of scripts.now.items }
    ensures { IfOk result (λ crew. AreFreshLoggers scripts.now setup.now crew.items) }
{
    let mut crew = Vec::with_capacity(alloc, setup.nue() as usize)?;
    for number in 0..setup.nue() {
        let logger = logger_of(alloc, scripts, setup, Rank::of(number))?;
        crew.push(logger)?;
    }
    Ok(crew)
}
