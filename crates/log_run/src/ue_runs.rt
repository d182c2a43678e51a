//! A run of UEs whose calls are kept.

ghost use Rattle.std.specs.Prelude.{◌≡◌, ◌<◌, All, length, ℕ, slice_index_or, Some, true};
ghost use Rattle.call_tap.specs.Kept.{HasTapRoom};
ghost use Rattle.call_tap.specs.Planned.{has_room_for};
ghost use Rattle.rcce_run.specs.Crews.{EndsAs};
ghost use Rattle.chip_run.specs.Waiting.{NoneDrafts};
ghost use Rattle.rcce_run.specs.UeRuns.{IsSameChip, WaitsOpen};
ghost use Rattle.rcce_ue.specs.Ues.{UeView};
ghost use Rattle.scc_base.specs.Calls.{DataCall, HasItsBytes};
ghost use Rattle.scc_mesh.specs.Scenes.{about_in, records_in};
ghost use Rattle.scc_proto.specs.Passed.{open_call};
ghost use Rattle.script_machine.specs.CallLists.{calls_of};
ghost use Rattle.script_rules.specs.Script.{Script};
ghost use Rattle.log_run.specs.declared.loggers.Logger.{Logger};
ghost use Rattle.log_run.specs.LogRuns.{AreLegalCalls, IsFreshLogCrew, IsOwnCall, KeepsCalls, plain_calls};

use crate::loggers::Logger;
use chip_run::{RunEnd, run_by_sweeps};
use line_cache::Evict;
use rcce_ue::Ue;
use scc_mesh::Chip;

/// Runs the UEs of a chip, each with a tap on its port, by sweeps in rank order until one in which none moves. What holds of
/// the whole chip then, `Chip::agrees` tells.
pub fn log_run<V: Evict + Drop>(chip: &mut Chip, crew: &mut [Logger<Ue<'_, V>>]) -> RunEnd
    requires fresh { (script : Script) × IsFreshLogCrew script chip.old crew.old }
    // It is the same chip with the same setup, and all its ranks are at home.
    ensures stands { IsSameChip chip.old chip.new }
    ensures count { length crew.new ≡ length crew.old }
    // It answers Finished where every rank finishes in the plain meaning of the script, and Stuck where one does not.
    ensures answer { (script : Script) → IsFreshLogCrew script chip.old crew.old → EndsAs result script }
    // The finished calls of each rank are those that the plain meaning has done for it, with their bytes and in order.
    ensures calls { (script : Script) → IsFreshLogCrew script chip.old crew.old → (k : ℕ)
        → (records_in chip.new k).calls ≡ plain_calls script k }
    // They are legal: all of them can be used up.
    ensures legal { AreLegalCalls chip.new }
    // A call that a rank has open is the one at which the plain meaning leaves it waiting. None is open where the rank waits
    // for its posted message at its end.
    ensures opened { (script : Script) → IsFreshLogCrew script chip.old crew.old → (k : ℕ) (call : DataCall) → k < script.nue
        → open_call (about_in chip.new) (records_in chip.new k) ≡ Some call → WaitsOpen script k call }
    // A rank that has no call open is in the midst of nothing: it has no message in draft.
    ensures no_draft { NoneDrafts (about_in chip.new) (records_in chip.new) }
    // The tap of a rank keeps its finished calls, where it has room for all calls of the rank's program.
    ensures kept { (script : Script) → IsFreshLogCrew script chip.old crew.old
        → (k : ℕ) (d : Logger UeView) → k < script.nue → has_room_for (calls_of script k) ≡ true
        → KeepsCalls (slice_index_or crew.new k d).tap (records_in chip.new k).calls }
    // Each of them has the bytes that its head says.
    ensures long { (script : Script) → IsFreshLogCrew script chip.old crew.old → (k : ℕ) → k < script.nue
        → All HasItsBytes (records_in chip.new k).calls }
    // Each of them is one that the rank can make, and a tap has room for them where it has room for all calls of the program.
    ensures own { (script : Script) → IsFreshLogCrew script chip.old crew.old → (k : ℕ) → k < script.nue
        → All (IsOwnCall script k) (records_in chip.new k).calls }
    ensures room { (script : Script) → IsFreshLogCrew script chip.old crew.old → (k : ℕ) → k < script.nue
        → has_room_for (calls_of script k) ≡ true
        → HasTapRoom (records_in chip.new k).calls }
{
    chip.known();
    let end = run_by_sweeps(chip, crew);
    chip.agrees();
    end
}
