//! The setup of a lab.

ghost use Rattle.lab_run.specs.Turns.{IsLabSetup};

use scc_base::{Layout, Setup, own_cores, world_alone};

/// 48 ranks with line flags and only the world, rank r on core r.
pub(crate) fn lab_setup() -> Setup
    ensures { IsLabSetup result }
{
    match Setup::new(48, Layout::lines(), own_cores(), world_alone()) {
        Some(setup) => setup,
        None => unreachable!(),
    }
}
