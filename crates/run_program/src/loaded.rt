//! A run that can begin.

ghost use Rattle.std.specs.Prelude.{◌≡◌};
ghost use Rattle.script_rules.specs.Script.{rules_of};

use rcce_words::Job;
use scc_base::Setup;
use script_rules::Scripts;

/// A run that can begin: the job that asks for it, its script, its setup, which has the script's ranks and communicators, and
/// the number that the script was made of, if it was.
#[derive(Drop)]
pub struct Loaded {
    pub job: Job,
    pub script: Scripts,
    pub setup: Setup,
    pub seed: Option<u32>,
    ghost ranks: { setup.nue ≡ script.nue },
    ghost communicators: { setup.comms ≡ rules_of script.items },
}
