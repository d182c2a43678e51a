//! The units of execution of a run.

ghost use Rattle.std.specs.Prelude.{◌≡◌, IfOk};
ghost use Rattle.rcce_run.specs.UeRuns.{AreFresh};
ghost use Rattle.script_rules.specs.Script.{rules_of};
ghost use Rattle.run_program.specs.Evictors.{HaveEvictors, evictor_of};

use line_cache::{Choice, Seeded};
use rcce_run::Crew;
use rcce_ue::Ue;
use scc_base::{Rank, Setup};
use script_rules::Scripts;
use std::alloc::{AllocError, Global};

/// A unit of execution for each rank, before its first turn. All their memory is taken here.
pub fn crew_of<'s>(
    alloc: Global,
    scripts: &'s Scripts,
    setup: &Setup,
    evict: Option<u32>,
) -> Result<Vec<Crew<'s, Choice>>, AllocError>
    requires ranks { setup.now.nue ≡ scripts.now.nue }
    requires communicators { setup.now.comms ≡ rules_of scripts.now.items }
    ensures fresh { IfOk result (λ crew. AreFresh scripts.now setup.now setup.now.nue crew.items) }
    ensures evictors { IfOk result (λ crew. HaveEvictors evict crew.items) }
{
    let mut crew = Vec::with_capacity(alloc, setup.nue() as usize)?;
    for number in 0..setup.nue() {
        let ue = Ue::new(
            alloc,
            scripts,
            setup.copy(),
            Rank::of(number),
            evictor(evict, number),
        )?;
        crew.push(Crew::new(ue))?;
    }
    Ok(crew)
}

/// The evictor of a rank: one that the seed and the rank start, and without a seed one that never evicts.
fn evictor(seed: Option<u32>, rank: u8) -> Choice
    ensures { result ≡ evictor_of seed rank }
{
    match seed {
        Some(seed) => Choice::Seeded(Seeded::new(u64::from(seed) + u64::from(rank))),
        None => Choice::Never,
    }
}
