//! Single accesses of the core that runs, past its cache and its buffer.

ghost use Rattle.std.specs.Prelude.{◌≡◌, OnOk, IfOk};
ghost use Rattle.scc_proto.specs.Words.{word_at};
ghost use Rattle.lab_plain.specs.Scenes.{after_load, after_store};
ghost use Rattle.lab_run.specs.Turns.{MayGoOn, CoreTurned, memory_in};

use crate::evictor::Named;
use crate::moves::{answer, own};
use chip_memory::TurnChip;
use lab_plain::{Said, Source};
use lab_reader::HeapWord;
use put_get::Core;
use scc_proto::Port;
use std::alloc::AllocError;

/// Loads a word by one access.
pub(crate) fn load(
    core: &Core<Named>,
    chip: &mut TurnChip,
    said: &mut Vec<Said>,
    at: HeapWord,
) -> Result<u64, AllocError>
    requires ready { MayGoOn core.now chip.old }
    ensures turned { OnOk result (CoreTurned (after_load chip.old.rank at)
        core.now chip.old said.old.items core.now chip.new said.new.items) }
    ensures answers { IfOk result (λ v. v ≡ word_at (memory_in chip.old) at) }
{
    let _core = core;
    let _word = at.number();
    let me = own(chip);
    let place = at.place();
    let value = chip.load(place);
    chip.tells();
    said.push(Said::LoadsWord {
        core: me,
        at: place,
        value,
    })?;
    answer(said, at, value, Source::Words)?;
    Ok(value)
}

/// Stores a word by one access.
pub(crate) fn store(
    core: &Core<Named>,
    chip: &mut TurnChip,
    said: &mut Vec<Said>,
    at: HeapWord,
    value: u64,
) -> Result<(), AllocError>
    requires ready { MayGoOn core.now chip.old }
    ensures turned { OnOk result (CoreTurned (after_store chip.old.rank at value)
        core.now chip.old said.old.items core.now chip.new said.new.items) }
{
    let _core = core;
    let _word = at.number();
    let me = own(chip);
    let place = at.place();
    chip.store(place, value);
    said.push(Said::StoresWord {
        core: me,
        at: place,
        value,
    })?;
    Ok(())
}
