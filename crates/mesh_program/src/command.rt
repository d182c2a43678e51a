//! The words after the program's name.

ghost use Rattle.std.specs.Prelude.{◌≡◌, ◌≤◌, ◌∷◌, [], IfSome, codes, map, option_map, string_bytes};
ghost use Rattle.mesh_program.specs.Jobs.{placed_job};
ghost use Rattle.mesh_program.specs.Program.{mesh_command_of};

use crate::cores::listed_cores;
use rcce_words::{ScriptJob, script_job};
use scc_base::{CoreId, own_cores};

/// What the words ask for: how many units of execution and the script's file, and the core of each rank.
#[derive(Clone, Copy)]
pub struct Job<'a> {
    pub asked: ScriptJob<'a>,
    pub at: [CoreId; 48],
}

/// What the words ask for, if they are `-nue N SCRIPT` or `-nue N -at LIST SCRIPT`. No memory is taken.
pub fn job_of(words: &[String]) -> Option<Job<'_>>
    ensures gives { option_map placed_job result ≡ mesh_command_of (map string_bytes words.now) }
    ensures some { IfSome result (λ job. 1 ≤ job.asked.nue) }
    ensures most { IfSome result (λ job. job.asked.nue ≤ 48) }
{
    match words {
        [option, count, script] => own_job(option.as_str(), count.as_str(), script.as_str()),
        [option, count, at, cores, script] if at.as_str() == "-at" => {
            listed_job(
                option.as_str(),
                count.as_str(),
                cores.as_str(),
                script.as_str(),
            )
        }
        _ => None,
    }
}

/// A job whose ranks are on the cores of their own numbers.
fn own_job<'a>(option: &str, count: &str, script: &'a str) -> Option<Job<'a>>
    ensures gives { option_map placed_job result ≡ mesh_command_of (option.now ∷ count.now ∷ script.now ∷ []) }
    ensures some { IfSome result (λ job. 1 ≤ job.asked.nue) }
    ensures most { IfSome result (λ job. job.asked.nue ≤ 48) }
{
    let asked = script_job(option, count, script)?;
    let at = own_cores();
    Some(Job { asked, at })
}

/// A job whose ranks are on the cores of a list.
fn listed_job<'a>(option: &str, count: &str, cores: &str, script: &'a str) -> Option<Job<'a>>
    ensures gives { option_map placed_job result ≡ mesh_command_of (option.now ∷ count.now ∷ codes "-at" ∷ cores.now ∷ script.now ∷ []) }
    ensures some { IfSome result (λ job. 1 ≤ job.asked.nue) }
    ensures most { IfSome result (λ job. job.asked.nue ≤ 48) }
{
    let asked = script_job(option, count, script)?;
    let at = listed_cores(cores.as_bytes(), asked.nue)?;
    Some(Job { asked, at })
}
