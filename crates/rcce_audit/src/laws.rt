//! Laws of logs, each a function whose contract is the law.

ghost use Rattle.std.specs.Prelude.{◌≡◌, ◌≤◌, ℕ, List, Ok, []};
ghost use Rattle.rcce_audit.specs.Grammar.{log_of};
ghost use Rattle.rcce_audit.specs.Logs.{IsLog, LogView, calls_at_rank, most_log_bytes};
ghost use Rattle.rcce_audit.specs.Sizes.{AreFew};
ghost use Rattle.rcce_audit.specs.Texts.{IsFileLog, log_text};
ghost use Rattle.rcce_audit.specs.declared.verdicts.Verdict.{Verdict};
ghost use Rattle.rcce_audit.specs.Verdicts.{IsJudge, IsVerdict};

/// The text of a log and its reading are inverse to each other: a text that says a log is the text of that log, and the
/// text of a log says the log.
pub fn text_law()
    ensures read { (bytes : List ℕ) (log : LogView) → log_of bytes ≡ Ok log → log_text log ≡ bytes }
    ensures written { (log : LogView) → IsFileLog log → log_of (log_text log) ≡ Ok log }
    // What a text says is a log that a file may have.
    ensures valid { (bytes : List ℕ) (log : LogView) → log_of bytes ≡ Ok log → IsFileLog log }
{}

/// A log with at most 10,000 calls of a rank, which move at most 262,144 bytes, is one that a file may have.
pub fn size_law()
    ensures fits { (log : LogView) → IsLog log → ((r : ℕ) → AreFew (calls_at_rank log.lists r)) → IsFileLog log }
{}

/// A log has one verdict, and some function tells the verdict of each log that a file may have.
pub fn verdict_law()
    ensures once { (log : LogView) (v w : Verdict) → IsVerdict log v → IsVerdict log w → v ≡ w }
    ensures found { (log : LogView) → ((k : ℕ) → 48 ≤ k → calls_at_rank log.lists k ≡ []) → (v : Verdict) × IsVerdict log v }
    ensures judge { (judge : LogView → Verdict) × IsJudge judge }
{}

/// The number of bytes that a log's text may have.
pub fn numbers_law()
    ensures bytes { most_log_bytes ≡ 67108864 }
{}
