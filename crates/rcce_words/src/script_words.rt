//! The words that ask for a script, by a number of units of execution and the name of its file. No memory is taken.

ghost use Rattle.std.specs.Prelude.{◌≡◌, ◌≤◌, ◌∷◌, [], IfSome, map, option_map, string_bytes};
ghost use Rattle.rcce_words.specs.ScriptWords.{script_command, job_command};

use outcomes::{is_option, ue_count};

/// What the words ask for: a number of units of execution, 1 to 48, and the script's file.
#[derive(Clone, Copy)]
pub struct ScriptJob<'a> {
    pub nue: u8,
    pub script: &'a str,
}

/// What three words ask for, if they are `-nue N SCRIPT`.
pub fn script_job<'a>(option: &str, count: &str, script: &'a str) -> Option<ScriptJob<'a>>
    ensures gives { option_map job_command result ≡ script_command (option.now ∷ count.now ∷ script.now ∷ []) }
    ensures some { IfSome result (λ job. 1 ≤ job.nue) }
    ensures most { IfSome result (λ job. job.nue ≤ 48) }
{
    if option != "-nue" || is_option(script) {
        return None;
    }
    let nue = ue_count(count)?;
    Some(ScriptJob { nue, script })
}

/// What the words ask for, if they are `-nue N SCRIPT`.
pub fn parse_script_words(words: &[String]) -> Option<ScriptJob<'_>>
    ensures gives { option_map job_command result ≡ script_command (map string_bytes words.now) }
    ensures some { IfSome result (λ job. 1 ≤ job.nue) }
    ensures most { IfSome result (λ job. job.nue ≤ 48) }
{
    match words {
        [option, count, script] => script_job(option.as_str(), count.as_str(), script.as_str()),
        _ => None,
    }
}
