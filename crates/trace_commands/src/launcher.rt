//! The top call.

ghost use Rattle.std.specs.Prelude.{◌≡◌, ◌<◌, ◌≤◌, ℕ, List, length, map, string_bytes, None};
ghost use Rattle.outcomes.specs.Delivery.{sinks};
ghost use Rattle.outcomes.specs.declared.status.Status.TheVariants.{Finished};
ghost use Rattle.scc_base.specs.Setups.{IsSetup};
ghost use Rattle.scc_mesh.specs.Scenes.{IsOpen, about_in};
ghost use Rattle.rcce_run.specs.UeRuns.{AreLegal};
ghost use Rattle.trace_script.specs.Tracing.{TracesWords};
ghost use Rattle.trace_program.specs.Legal.{NamesLegal};
ghost use Rattle.trace_commands.specs.Again.{HasPrinted, TellsOfChip, WroteAll};
ghost use Rattle.trace_commands.specs.Commands.{JudgesWords};

use rcce_io::{Files, Sink};
use scc_mesh::Chip;
use std::alloc::Global;
use trace_program::rccetrace as judge_trace;
use trace_script::{TraceEnd, trace_script};

/// Judges a trace, or runs a script over the chip and writes the trace of the run. The words are those after the program's name:
/// `[-calls] TRACE`, or those of the launcher. Up to two words are taken for a trace that is judged, since a run has no fewer
/// than three.
///
/// A trace is judged as trace_program says, and a run traced as trace_script says, with the checks in their order. A sink that
/// fails is not written to again, nor is the other one.
pub fn rccetrace<F: Files, O: Sink, E: Sink>(
    alloc: Global,
    words: &[String],
    files: &mut F,
    out: &mut O,
    err: &mut E,
    chip: &mut Chip,
) -> TraceEnd
    requires blank { chip.old ≡ None }
    // Up to two words: what the judge promises, and the chip is blank.
    ensures judges { length words.now ≤ 2 → JudgesWords (map string_bytes words.now) (F.seen files.old) (F.seen files.new)
        (sinks (O.seen out.old) (E.seen err.old)) (sinks (O.seen out.new) (E.seen err.new)) result }
    ensures none { length words.now ≤ 2 → chip.new ≡ None }
    // And status 0: what was read of the file is the text of a legal trace, with no fault of the files, and its calls are printed.
    // Each message that its chip delivered was whole, once and in order. (If the files tell their contents, the text is the file's.)
    ensures whole { length words.now ≤ 2 → result ≡ TraceEnd.Ended Finished
        → NamesLegal (map string_bytes words.now) (F.seen files.old) (F.seen files.new)
        (sinks (O.seen out.old) (E.seen err.old)) (sinks (O.seen out.new) (E.seen err.new)) }
    // More words: by rank the events written are exactly those of the chip's record, in order; all together are a run from the
    // blank memory, each permitted when it is made; err and the status are those of the launcher's definition.
    ensures traces { 2 < length words.now → ∥ TracesWords (map string_bytes words.now) (F.seen files.old) (F.seen files.new) chip.new
        (sinks (O.seen out.old) (E.seen err.old)) (sinks (O.seen out.new) (E.seen err.new)) result ∥₁ }
    // What was printed of a run is read again: the same program is expected to call it legal, with the calls of the chip, whichever
    // words name a file that has this text. (Out had taken nothing before, and the text has no more lines than a trace may have.)
    ensures again { 2 < length words.now → IsOpen chip.new → WroteAll result → (text : List ℕ)
        → HasPrinted (O.seen out.old) (O.seen out.new) text → ∥ TellsOfChip chip.new text ∥₁ }
    // The legality theorem, whatever the status. (A blank chip has no calls.)
    ensures legal { IsOpen chip.new → AreLegal chip.new }
{
    if words.len() <= 2 {
        TraceEnd::Ended(judge_trace(alloc, words, files, out, err))
    } else {
        let end = trace_script(alloc, words, files, out, err, chip);
        see_setup(chip);
        end
    }
}

/// Does nothing. It tells a proof that the setup of an open chip is one that a run may have.
fn see_setup(chip: &Chip)
    ensures valid { IsOpen chip.now → IsSetup (about_in chip.now) }
{
    if chip.is_open() {
        chip.known();
    }
}
