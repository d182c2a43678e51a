//! A chip in memory and one rank's turn: it can be made, and its words and registers are used.

ghost use Rattle.std.specs.Prelude.{◌≡◌, [], IfOk};
ghost use Rattle.chip_memory.specs.Chips.{turn_sight};

use crate::fixtures::{as_named, world_of};
use chip_memory::TurnChip;
use scc_base::{CoreId, Layout, Line, Place, Rank};
use scc_ports::CountingPort;
use scc_proto::Port;
use scc_proto::examples::store_then_load;
use std::alloc::Global;
use std::test::Fail;

fn chip(alloc: Global) -> Result<TurnChip, Fail>
    ensures { IfOk result (λ chip. (turn_sight chip).events ≡ []) }
{
    let setup = world_of(1, Layout::BitFlags).ok_or("a setup")?;
    Ok(TurnChip::new(alloc, setup, Rank::of(0))?)
}

// Stores a value in a heap word of the port's core, and loads it again.
fn kept<P: Port>(port: &mut P, value: u64) -> u64
    requires fresh { (P.sight port.old).events ≡ [] }
{
    let rank = port.rank();
    let setup = port.setup();
    let _nue = setup.nue();
    let place = Place::new(setup.core_of(rank), 240, 1);
    store_then_load(port, place, value, place)
}

fn taken<P: Port>(port: &mut P) -> bool
    requires fresh { (P.sight port.old).events ≡ [] }
{
    port.take(CoreId::of(31))
}

// Whether a word has what was stored, and the word beside it has nothing.
fn keeps<P: Port>(port: &mut P) -> bool
    requires fresh { (P.sight port.old).events ≡ [] }
{
    let stored = kept(port, 7);
    let line = Line::new(CoreId::of(0), 240);
    stored == 7 && port.load(line.word(2)) == 0 && port.load(line.word(1)) == 7
}

#[test]
fn a_word_has_what_was_stored(rt: HostRuntime) -> Result<(), Fail> {
    let mut port = chip(rt.alloc())?;
    as_named(keeps(&mut port))
}

// Whether the one load of a word is counted.
fn counts<P: Port + Drop>(port: P) -> bool
    requires fresh { (P.sight port).events ≡ [] }
{
    let mut port = CountingPort::new(port);
    kept(&mut port, 9) == 9 && port.loads() == 1
}

#[test]
fn loads_are_counted(rt: HostRuntime) -> Result<(), Fail> {
    as_named(counts(chip(rt.alloc())?))
}

#[test]
fn a_free_register_is_taken(rt: HostRuntime) -> Result<(), Fail> {
    let mut port = chip(rt.alloc())?;
    as_named(taken(&mut port))
}
