//! The setup of a run of the world alone.

ghost use Rattle.std.specs.Prelude.{◌≡◌, ◌<◌, ◌≤◌, ℕ, SomeIff};
ghost use Rattle.scc_base.specs.Communicators.{AreRules};
ghost use Rattle.scc_base.specs.Setups.{AreApart, host_of};
ghost use Rattle.scc_base.specs.Worlds.{own_cores, world_alone, world_setup};

use crate::communicators::CommRule;
use crate::layouts::Layout;
use crate::names::CoreId;
use crate::setups::Setup;

/// The core of each rank: that of its number.
pub fn own_cores() -> [CoreId; 48]
    ensures gives { result ≡ own_cores }
    ensures own { (r : ℕ) → r < 48 → host_of result r ≡ r }
    ensures apart { (nue : ℕ) → nue ≤ 48 → AreApart nue result }
{
    let mut cores = [CoreId::of(0); 48];
    for number in 0..48 {
        cores[number] = CoreId::of(number as u8);
    }
    cores
}

/// The world and no other communicator.
pub fn world_alone() -> [CommRule; 16]
    ensures gives { result ≡ world_alone }
    ensures valid { AreRules result }
{
    let mut rules = [CommRule::Absent; 16];
    rules[0] = CommRule::World;
    rules
}

/// A setup of `nue` ranks, each on the core of its number, with line flags and the world alone. It is None exactly where `nue`
/// is not 1 to 48.
pub fn world_of(nue: u8) -> Option<Setup>
    ensures gives { SomeIff result ((1 ≤ nue) × (nue ≤ 48)) (world_setup nue) }
{
    Setup::new(nue, Layout::lines(), own_cores(), world_alone())
}
