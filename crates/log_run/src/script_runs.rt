//! A run of a script on a blank chip, and the calls that it keeps.

ghost use Rattle.std.specs.Prelude.{◌≡◌, None, IfErr, IfOk, true};
ghost use Rattle.script_rules.specs.Script.{rules_of};
ghost use Rattle.scc_mesh.specs.Scenes.{IsNew};
ghost use Rattle.log_run.specs.LogRuns.{AreFreshLoggers, HasRunLogged, IsLogRunOver};
ghost use Rattle.log_run.specs.Sizes.{has_room_for_all};

use crate::crew::crew_of;
use crate::loggers::Logger;
use crate::ue_runs::log_run;
use chip_run::RunEnd;
use line_cache::Never;
use rcce_ue::Ue;
use scc_base::{Call, CommRule, Rank, Setup};
use scc_mesh::Chip;
use script_rules::Scripts;
use std::alloc::{AllocError, Global};
use std::marker::Model;

/// A run of a script that is over, with the finished calls of its ranks. It is seen as the script.
#[derive(Drop)]
pub struct LogRun<'s> {
    scripts: &'s Scripts,
    crew: Vec<Logger<Ue<'s, Never>>>,
    end: RunEnd,
}

impl<'s> Model for LogRun<'s> {
    ghost use Rattle.script_rules.specs.Script.{Script};
    ghost use Rattle.rcce_run.specs.Crews.{EndsAs};
    ghost use Rattle.log_run.specs.LogRuns.{HaveKept};

    ghost Value = { Script };

    ghost view = { λ r. r.scripts.now };

    ghost invariant = { λ r. HaveKept r.scripts.now r.crew.items × EndsAs r.end r.scripts.now };
}

impl<'s> LogRun<'s> {
    ghost use Rattle.std.specs.Prelude.{◌≡◌, ◌<◌, ◌≤◌, All, flat_map, map};
    ghost use Rattle.scc_base.specs.Calls.{HasItsBytes, call_of};
    ghost use Rattle.rank_monitor.specs.Following.{moved_by};
    ghost use Rattle.script_rules.specs.Script.{rules_of};
    ghost use Rattle.rcce_run.specs.Crews.{EndsAs};
    ghost use Rattle.log_run.specs.LogRuns.{HaveKept, plain_calls};

    /// A run that ended so.
    pub(crate) fn new(
        scripts: &'s Scripts,
        crew: Vec<Logger<Ue<'s, Never>>>,
        end: RunEnd,
    ) -> LogRun<'s>
        requires kept { HaveKept scripts.now crew.items }
        requires answer { EndsAs end scripts.now }
        ensures { result ≡ scripts.now }
    {
        LogRun { scripts, crew, end }
    }

    /// Whether all ranks have finished.
    pub fn end(&self) -> RunEnd
        ensures { EndsAs result self.now }
    {
        self.end
    }

    /// How many ranks there are.
    pub fn nue(&self) -> u8
        ensures gives { result ≡ self.now.nue }
        ensures most { result ≤ 48 }
    {
        self.scripts.nue()
    }

    /// The rules of the communicators.
    pub fn comms(&self) -> [CommRule; 16]
        ensures { result ≡ rules_of self.now.items }
    {
        self.scripts.comm_rules()
    }

    /// The finished calls of a rank, without their bytes.
    pub fn calls(&self, rank: Rank) -> &[Call]
        requires { rank < self.now.nue }
        ensures gives { result.now ≡ map call_of (plain_calls self.now rank) }
        ensures long { All HasItsBytes (plain_calls self.now rank) }
    {
        match &self.crew[rank.number() as usize].tap {
            Some(tap) => tap.kept.calls.as_slice(),
            None => unreachable!(),
        }
    }

    /// Their bytes, one after the other.
    pub fn bytes(&self, rank: Rank) -> &[u8]
        requires { rank < self.now.nue }
        ensures gives { result.now ≡ flat_map moved_by (plain_calls self.now rank) }
    {
        match &self.crew[rank.number() as usize].tap {
            Some(tap) => tap.kept.bytes.as_slice(),
            None => unreachable!(),
        }
    }
}

/// Runs a script on a blank chip of this setup. All memory is taken before the run: for the UEs and their taps, and last for
/// the chip's words. For want of memory the chip stays blank.
pub fn run_script<'s>(
    alloc: Global,
    scripts: &'s Scripts,
    setup: &Setup,
    chip: &mut Chip,
) -> Result<LogRun<'s>, AllocError>
    requires blank { chip.old ≡ None }
    requires ranks { setup.now.nue ≡ scripts.now.nue }
    requires communicators { setup.now.comms ≡ rules_of scripts.now.items }
    requires room { has_room_for_all scripts.now ≡ true }
    ensures run { IfOk result (λ run. run ≡ scripts.now) }
    ensures history { IfOk result (λ run. HasRunLogged scripts.now setup.now chip.new) }
    ensures refused { IfErr result (λ failed. chip.new ≡ None) }
{
    let crew = crew_of(alloc, scripts, setup)?;
    chip.open(alloc, setup.copy())?;
    let run = run_opened(scripts, setup, crew, chip);
    Ok(run)
}

/// Runs the loggers of a script on the chip that was opened for them.
fn run_opened<'s>(
    scripts: &'s Scripts,
    setup: &Setup,
    mut crew: Vec<Logger<Ue<'s, Never>>>,
    chip: &mut Chip,
) -> LogRun<'s>
    requires chip { IsNew setup.now chip.old }
    requires fresh { AreFreshLoggers scripts.now setup.now crew.items }
    requires ranks { setup.now.nue ≡ scripts.now.nue }
    requires room { has_room_for_all scripts.now ≡ true }
    ensures run { result ≡ scripts.now }
    ensures history { HasRunLogged scripts.now setup.now chip.new }
{
    let end = run_crew(scripts, setup, chip, crew.as_mut_slice());
    LogRun::new(scripts, crew, end)
}

/// Runs the loggers of a script on a chip that was just opened.
fn run_crew(
    scripts: &Scripts,
    setup: &Setup,
    chip: &mut Chip,
    crew: &mut [Logger<Ue<'_, Never>>],
) -> RunEnd
    requires chip { IsNew setup.now chip.old }
    requires fresh { AreFreshLoggers scripts.now setup.now crew.old }
    requires ranks { setup.now.nue ≡ scripts.now.nue }
    requires room { has_room_for_all scripts.now ≡ true }
    ensures { IsLogRunOver scripts.now setup.now chip.new crew.new result }
{
    scripts.acceptance_law();
    log_run(chip, crew)
}
