//! The top call.

ghost use Rattle.std.specs.Prelude.{◌≡◌, codes, map, string_bytes, None};
ghost use Rattle.rcce_io.specs.Files.{FilesView};
ghost use Rattle.outcomes.specs.Coming.{Comes};
ghost use Rattle.outcomes.specs.Complaints.{outcome_of};
ghost use Rattle.outcomes.specs.Delivery.{sinks};
ghost use Rattle.outcomes.specs.Numbers.{file_named};
ghost use Rattle.outcomes.specs.Promises.{EndsWith, Promises};
ghost use Rattle.log_run.specs.LogRuns.{AreLegalCalls};
ghost use Rattle.rcce_audit.specs.declared.verdicts.Verdict.{Verdict};
ghost use Rattle.rcce_audit.specs.Logs.{LogView};
ghost use Rattle.rcce_audit.specs.Verdicts.{IsJudge};
ghost use Rattle.audit_program.specs.History.{AuditChipTells};
ghost use Rattle.audit_program.specs.Loading.{EndsByPlan};
ghost use Rattle.audit_program.specs.Program.{log_bytes_plan, command_of, log_file_plan, judged_ran, rcceaudit, rcceaudit_log};
ghost use Rattle.scc_mesh.specs.Scenes.{IsOpen};

use crate::logging::log_words;
use crate::report::Judged;
use outcomes::{Complaint, Status, deliver, file_named, read_file};
use rcce_audit::{LogStop, MOST_LOG_BYTES, audit, read_log};
use rcce_io::{Files, Sink};
use scc_mesh::Chip;
use std::alloc::Global;

/// Tells whether the calls of the log that the words name are legal: with status 0 that they are, with status 3 that
/// they are not, and then the lowest rank that has calls left and its first one. Or it runs the script that the words name
/// over the chip, and writes the log of its calls: with status 0 where all ranks finish, with status 3 where one does not.
/// The words are those after the program's name: `LOG`, or `-log -nue N SCRIPT`.
///
/// The checks go in this order, and the first that refuses counts: the words, the reading of the file, its grammar, and of a
/// script how many calls a rank makes. Memory is taken only by the reading and the grammar, and before a run; the chip's words
/// are taken last. A sink that fails is not written to again, nor is the other one.
pub fn rcceaudit<F: Files, O: Sink, E: Sink>(
    alloc: Global,
    words: &[String],
    files: &mut F,
    out: &mut O,
    err: &mut E,
    chip: &mut Chip,
) -> Status
    requires blank { chip.old ≡ None }
    // Words that name no log need no verdict: where they are refused, and where a run is logged, this is promised with no premise
    // but that. What is promised has a name for each fact, among them `output`, the output theorem.
    ensures logs { file_named (map string_bytes words.now) ≡ None
        → Promises rcceaudit_log (map string_bytes words.now) (F.seen files.old) (F.seen files.new)
        (sinks (O.seen out.old) (E.seen err.old)) (sinks (O.seen out.new) (E.seen err.new)) result }
    // Whatever the words are, the same is promised for each function that tells the verdicts of logs. There is one (`judge` of
    // rcce_audit's verdict_law), and a log has exactly one verdict.
    ensures promises { (judge : LogView → Verdict) → IsJudge judge
        → Promises (rcceaudit judge) (map string_bytes words.now) (F.seen files.old) (F.seen files.new)
        (sinks (O.seen out.old) (E.seen err.old)) (sinks (O.seen out.new) (E.seen err.new)) result }
    // Where a run was logged, what was written, or was to be written, is the log of the chip's finished calls. They are those
    // that the plain meaning did for each rank, in order, and they are legal; reading this text gives back exactly this log, and
    // its verdict is Yes. Else the chip is blank.
    ensures logs_history { file_named (map string_bytes words.now) ≡ None
        → EndsWith (AuditChipTells (F.seen files.old).told (file_named (map string_bytes words.now))
        (command_of (map string_bytes words.now)) chip.new)
        rcceaudit_log (map string_bytes words.now) (F.seen files.old) (F.seen files.new)
        (sinks (O.seen out.old) (E.seen err.old)) (sinks (O.seen out.new) (E.seen err.new)) result }
    // The same whatever the words are.
    ensures history { (judge : LogView → Verdict) → IsJudge judge
        → EndsWith (AuditChipTells (F.seen files.old).told (file_named (map string_bytes words.now))
        (command_of (map string_bytes words.now)) chip.new)
        (rcceaudit judge) (map string_bytes words.now) (F.seen files.old) (F.seen files.new)
        (sinks (O.seen out.old) (E.seen err.old)) (sinks (O.seen out.new) (E.seen err.new)) result }
    // The finished calls of the chip are legal, whatever the status. (A blank chip has no calls.)
    ensures legal { IsOpen chip.new → AreLegalCalls chip.new }
{
    match file_named(words) {
        Some(file) => judge_log(alloc, file, files, out, err),
        None => log_words(alloc, words, files, out, err, chip),
    }
}

// Tells whether the calls of a log are legal.
fn judge_log<F: Files, O: Sink, E: Sink>(
    alloc: Global,
    file: &str,
    files: &mut F,
    out: &mut O,
    err: &mut E,
) -> Status
    ensures { (judge : LogView → Verdict) → IsJudge judge
        → EndsByPlan (λ o. Unit {0}) (Ok (log_file_plan judge file.now)) (F.seen files.old) (F.seen files.new)
        (sinks (O.seen out.old) (E.seen err.old)) (sinks (O.seen out.new) (E.seen err.new)) result }
{
    let ending = judge_file(alloc, files, file);
    deliver("rcceaudit", ending, out, err)
}

fn judge_file<'a, F: Files>(
    alloc: Global,
    files: &mut F,
    file: &'a str,
) -> Result<Judged, Complaint<'a>>
    ensures { (judge : LogView → Verdict) → IsJudge judge
        → Comes (codes "rcceaudit") (log_file_plan judge file.now) (F.seen files.old) (F.seen files.new)
        (outcome_of (codes "rcceaudit") judged_ran result) }
{
    match read_file(alloc, files, file, MOST_LOG_BYTES) {
        Ok(bytes) => judge_bytes(alloc, file, bytes.as_slice()),
        Err(complaint) => Err(complaint),
    }
}

fn judge_bytes<'a>(alloc: Global, file: &'a str, bytes: &[u8]) -> Result<Judged, Complaint<'a>>
    ensures { (judge : LogView → Verdict) (files : FilesView) → IsJudge judge
        → Comes (codes "rcceaudit") (log_bytes_plan judge file.now bytes.now) files files
        (outcome_of (codes "rcceaudit") judged_ran result) }
{
    match read_log(alloc, bytes) {
        Ok(log) => Ok(Judged {
            verdict: audit(&log),
        }),
        Err(LogStop::Fault(fault)) => Err(Complaint::Refused {
            file,
            line: fault.line,
            kind: fault.kind.name(),
        }),
        Err(LogStop::Memory) => Err(Complaint::Memory),
    }
}
