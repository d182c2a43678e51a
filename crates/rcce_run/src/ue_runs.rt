//! A run of UEs over a chip.

ghost use Rattle.std.specs.Prelude.{◌≡◌};
ghost use Rattle.chip_run.specs.Runs.{InOrder};
ghost use Rattle.chip_run.specs.Waiting.{NoneDrafts};
ghost use Rattle.rcce_run.specs.UeRuns.{AreHome, AreLegal, IsFreshCrew, IsSameChip, RunGives, ue_members};
ghost use Rattle.scc_mesh.specs.Scenes.{about_in, records_in};
ghost use Rattle.script_rules.specs.Script.{Script};

use chip_run::{Gate, Member, Mode, RunEnd};
use line_cache::Evict;
use rcce_ue::Ue;
use scc_mesh::Chip;
use std::thread::Threads;

/// A UE with a place for its rank's token, which is empty before and after a run.
pub type Crew<'s, V> = Member<Ue<'s, V>>;

/// Runs UEs over their chip, until a sweep in which none of them moves.
pub fn run<V: Evict + Drop + Send, G: Gate + Sync, R: Threads + Sync>(
    rt: &R,
    chip: &mut Chip,
    crew: &mut [Crew<'_, V>],
    mode: Mode,
    gate: &G,
) -> RunEnd
    requires fresh { (script : Script) × IsFreshCrew script chip.old crew.old }
    // It is the same chip with the same setup, and all its ranks are at home.
    ensures stands { IsSameChip chip.old chip.new }
    // There are as many members as before, and no token is left with one.
    ensures home { AreHome crew.old crew.new }
    // The UEs have come to the plain meaning of their script: the answer, the ends, the calls, what was sent, the open calls and
    // the collective calls are its own.
    ensures gives { (script : Script) → IsFreshCrew script chip.old crew.old → RunGives script result chip.new crew.new }
    // A rank that has no call open is in the midst of nothing: it has no message in draft.
    ensures no_draft { NoneDrafts (about_in chip.new) (records_in chip.new) }
    // The passed calls of all ranks are legal, each rank has received what it was sent, but for one message that is open or on
    // its way, and nobody has finished more barriers of a communicator than each member of its group has entered.
    ensures legal { AreLegal chip.new }
    // On one thread the turns were those of the ranks that the seed's generator names, and in threads each UE took a row of turns
    // in each round; with a sweep behind each round.
    ensures order { InOrder ue_members mode chip.old crew.old chip.new crew.new }
{
    chip.known();
    let end = chip_run::run(rt, chip, crew, mode, gate);
    chip.agrees();
    end
}
