//! The words after the program's name.

ghost use Rattle.std.specs.Prelude.{◌≡◌, ◌≤◌, IfSome, map, option_map, string_bytes};
ghost use Rattle.rcce_words.specs.ScriptWords.{job_command};
ghost use Rattle.audit_program.specs.Program.{command_of};

use rcce_words::{ScriptJob, parse_script_words};

/// The run whose log the words ask for, if they are `-log -nue N SCRIPT`. No memory is taken.
pub fn job_of(words: &[String]) -> Option<ScriptJob<'_>>
    ensures gives { option_map job_command result ≡ command_of (map string_bytes words.now) }
    ensures some { IfSome result (λ job. 1 ≤ job.nue) }
    ensures most { IfSome result (λ job. job.nue ≤ 48) }
{
    match words {
        [log, script @ ..] if log.as_str() == "-log" => parse_script_words(script),
        _ => None,
    }
}
