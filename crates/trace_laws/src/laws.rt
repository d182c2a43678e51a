//! Laws of traces, each a function whose contract is the law.

ghost use Rattle.std.specs.Prelude.{◌≡◌, ◌<◌, ◌≤◌, ◌+◌, ℕ, List, Ok, Err, length};
ghost use Rattle.scc_base.specs.Setups.{SetupView, host_of};
ghost use Rattle.scc_proto.specs.Words.{RankEvent};
ghost use Rattle.trace_judge.specs.Judged.{judged_by, new_judged};
ghost use Rattle.trace_judge.specs.Rulings.{AreRankEvents, ruling_from};
ghost use Rattle.trace_text.specs.Grammar.{trace_of};
ghost use Rattle.trace_text.specs.Traces.{most_trace_lines};
ghost use Rattle.trace_text.specs.declared.faults.TraceKind.TheVariants.{TooLong};
ghost use Rattle.trace_writer.specs.Desks.{IsLegalRun};
ghost use Rattle.trace_writer.specs.Lines.{trace_text};
ghost use Rattle.trace_laws.specs.Told.{IsWritable, text_lines, told_setup};

/// What is written is read back: the text of a trace says exactly its events, and its setup but for the cores of ranks that there
/// are not. Of the three limits of a text a written one can pass only that of its lines, and then it is too long.
pub fn inverse_law()
    ensures read { (s : SetupView) (run : List RankEvent) → IsWritable s → AreRankEvents s run
        → text_lines (trace_text s run) ≤ most_trace_lines
        → trace_of (trace_text s run) ≡ Ok (record { setup = told_setup s; events = run }) }
    ensures long { (s : SetupView) (run : List RankEvent) → IsWritable s → AreRankEvents s run
        → most_trace_lines < text_lines (trace_text s run) → trace_of (trace_text s run) ≡ Err (record { line = 0; kind = TooLong }) }
    // A first line, at most fifteen of communicators, and one an event.
    ensures lines { (s : SetupView) (run : List RankEvent) → IsWritable s → AreRankEvents s run
        → (length run < text_lines (trace_text s run)) × (text_lines (trace_text s run) ≤ length run + 16) }
    // A setup that has core 0 for the ranks that there are not is told as it is.
    ensures same { (s : SetupView) → s.nue ≤ 48 → length s.hosts ≡ 48 → ((r : ℕ) → s.nue ≤ r → host_of s.hosts r ≡ 0) → told_setup s ≡ s }
{}

/// A run that is legal with a setup is legal with the setup that its text tells, and the judge takes it whole, with the records of
/// the run.
pub fn again_law()
    ensures legal { (s : SetupView) (run : List RankEvent) → IsLegalRun s run → IsLegalRun (told_setup s) run }
    ensures judged { (s : SetupView) (run : List RankEvent) → IsLegalRun s run
        → ruling_from 0 (new_judged (told_setup s)) run ≡ Ok (judged_by (told_setup s) run) }
    ensures records { (s : SetupView) (run : List RankEvent) → (judged_by (told_setup s) run).records ≡ (judged_by s run).records }
{}
