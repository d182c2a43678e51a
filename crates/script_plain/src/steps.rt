//! The plain step, and the run that takes it again and again.

ghost use Rattle.std.specs.Prelude.{◌≡◌, ◌≢◌, ◌<◌, None, Some, true, length, IfOk, OnOk, replicate, sum_by};
ghost use Rattle.scc_base.specs.Setups.{setup_key};
ghost use Rattle.plain_meaning.specs.Barriers.{AreMet};
ghost use Rattle.plain_meaning.specs.Collectives.{CollectivesHold};
ghost use Rattle.script_plain.specs.Code.{GoesOn, IsSetupOfUes, StepsAt, Sweeps, config, decision};
ghost use Rattle.script_rules.specs.Script.{rules_of};
ghost use Rattle.script_machine.specs.Local.{most_steps_left, local_next};
ghost use Rattle.plain_meaning.specs.Meaning.{keys_of, locals_of, plain_end, plain_ends, plain_step, start_of};
ghost use Rattle.plain_meaning.specs.Meaning.{ends_at};
ghost use Rattle.plain_meaning.specs.Step.{lowest_step, run_on};
ghost use Rattle.script_plain.specs.declared.steps.Step.TheVariants as variant;

use crate::barriers::{pass_barrier, setup_of};
use crate::decisions::decide;
use crate::ends::{End, end_all};
use crate::posts::Left;
use crate::ues::Ue;
use scc_base::{Head, Rank, Setup};
use script_rules::Scripts;
use std::alloc::{AllocError, Global};

/// The step that a rank owns.
#[derive(Drop)]
pub enum Step {
    /// It owns no step.
    Stays,
    /// Its own statement.
    Goes,
    /// It leaves its message behind.
    Posts,
    /// Its message is taken by this rank.
    Matches { to: Rank },
    /// It takes the message that this rank left behind.
    Takes { from: Rank },
    /// It refuses a message with this head.
    Mismatches { sent: Head },
    /// Its group goes past a barrier of this communicator.
    Passes { comm: u8 },
}

/// The end of the plain run of scripts: from the start enabled steps are taken, until no step is enabled. A rank goes on as
/// long as its own step is enabled, then the next rank that can.
pub fn plain_run(alloc: Global, scripts: &Scripts) -> Result<End, AllocError>
    // The end is that of the plain meaning.
    ensures end { IfOk result (λ end. end ≡ plain_ends scripts.now) }
    // No step is enabled there.
    ensures still { plain_step (keys_of scripts.now) (plain_end scripts.now) ≡ None }
    ensures ranks { IfOk result (λ end. length end ≡ scripts.now.nue) }
    // And nobody has finished more barriers of a communicator than each member of its group has entered.
    ensures barriers { AreMet (keys_of scripts.now) (plain_end scripts.now) }
    // Messages have come as they were sent, and collective calls have given what they give.
    ensures collectives { CollectivesHold scripts.now (plain_end scripts.now) }
{
    scripts.acceptance_law();
    run_scripts(alloc, scripts)
}

/// The end to which the steps of scripts come.
fn run_scripts(alloc: Global, scripts: &Scripts) -> Result<End, AllocError>
    ensures end { IfOk result (λ end. end ≡ plain_ends scripts.now) }
    ensures ranks { IfOk result (λ end. length end ≡ scripts.now.nue) }
{
    let setup = setup_of(scripts);
    let Ranks { mut ues, mut slots } = begin(alloc, scripts, &setup)?;
    let end = run_to_end(alloc, &setup, &mut ues, &mut slots)?;
    Ok(end)
}

/// What ranks leave behind once no step is enabled.
fn run_to_end(
    alloc: Global,
    setup: &Setup,
    ues: &mut [Ue],
    slots: &mut [Option<Left>],
) -> Result<End, AllocError>
    requires run { IsSetupOfUes setup.now ues.old slots.old }
    ensures { IfOk result (λ end. end
        ≡ ends_at (run_on (setup_key setup.now) local_next (sum_by most_steps_left ues.old) (config ues.old slots.old))) }
{
    run_on(alloc, setup, ues, slots)?;
    let end = end_all(alloc, ues, slots)?;
    Ok(end)
}

/// The ranks of a run, and the slot of each.
#[derive(Drop)]
pub(crate) struct Ranks<'s> {
    pub ues: Vec<Ue<'s>>,
    pub slots: Vec<Option<Left>>,
}

/// The ranks at the start, each with an empty slot.
pub(crate) fn begin<'s>(
    alloc: Global,
    scripts: &'s Scripts,
    setup: &'s Setup,
) -> Result<Ranks<'s>, AllocError>
    requires ranks { setup.now.nue ≡ scripts.now.nue }
    requires communicators { setup.now.comms ≡ rules_of scripts.now.items }
    ensures run { IfOk result (λ r. IsSetupOfUes setup.now r.ues.items r.slots.items) }
    ensures cells { IfOk result (λ r. r.ues.items ≡ locals_of (start_of scripts.now)) }
    ensures slots { IfOk result (λ r. r.slots.items ≡ replicate scripts.now.nue None) }
{
    let ues = start(alloc, scripts, setup)?;
    let slots = empty_slots(alloc, scripts.nue() as usize)?;
    Ok(Ranks { ues, slots })
}

/// The ranks at the start.
fn start<'s>(
    alloc: Global,
    scripts: &'s Scripts,
    setup: &'s Setup,
) -> Result<Vec<Ue<'s>>, AllocError>
    requires ranks { setup.now.nue ≡ scripts.now.nue }
    requires communicators { setup.now.comms ≡ rules_of scripts.now.items }
    ensures { IfOk result (λ ues. ues.items ≡ locals_of (start_of scripts.now)) }
{
    let mut ues = Vec::new(alloc);
    for number in 0..scripts.nue() {
        ues.push(Ue::new(alloc, scripts, setup, Rank::of(number))?)?;
    }
    Ok(ues)
}

/// This many empty slots.
fn empty_slots(alloc: Global, count: usize) -> Result<Vec<Option<Left>>, AllocError>
    ensures { IfOk result (λ slots. slots.items ≡ replicate count None) }
{
    let mut slots = Vec::new(alloc);
    for _ in 0..count {
        slots.push(None)?;
    }
    Ok(slots)
}

/// Takes enabled steps until no step is enabled.
fn run_on(
    alloc: Global,
    setup: &Setup,
    ues: &mut [Ue],
    slots: &mut [Option<Left>],
) -> Result<(), AllocError>
    requires run { IsSetupOfUes setup.now ues.old slots.old }
    ensures end { OnOk result (config ues.new slots.new
        ≡ run_on (setup_key setup.now) local_next (sum_by most_steps_left ues.old) (config ues.old slots.old)) }
    ensures still { OnOk result (lowest_step (setup_key setup.now) local_next (config ues.new slots.new) ≡ None) }
{
    while sweep(alloc, setup, ues, slots)? {}
    Ok(())
}

/// Lets each rank go on as far as it can, one after the other. Answers whether any did.
fn sweep(
    alloc: Global,
    setup: &Setup,
    ues: &mut [Ue],
    slots: &mut [Option<Left>],
) -> Result<bool, AllocError>
    requires run { IsSetupOfUes setup.now ues.old slots.old }
    ensures { IfOk result
        (λ moved. Sweeps (setup_key setup.now) moved setup.now.nue (config ues.old slots.old) (config ues.new slots.new)) }
{
    let mut moved = false;
    for number in 0..setup.nue() {
        if go_on(alloc, setup, ues, slots, Rank::of(number))? {
            moved = true;
        }
    }
    Ok(moved)
}

/// Takes the step that a rank owns, as long as it is enabled. Answers whether it was.
fn go_on(
    alloc: Global,
    setup: &Setup,
    ues: &mut [Ue],
    slots: &mut [Option<Left>],
    rank: Rank,
) -> Result<bool, AllocError>
    requires rank { rank < setup.now.nue }
    requires run { IsSetupOfUes setup.now ues.old slots.old }
    ensures { IfOk result (λ moved. GoesOn (setup_key setup.now) moved rank (config ues.old slots.old) (config ues.new slots.new)) }
{
    let mut moved = false;
    while step_at(alloc, setup, ues, slots, rank)? {
        moved = true;
    }
    Ok(moved)
}

/// Takes the step that a rank owns, if it is enabled.
pub(crate) fn step_at(
    alloc: Global,
    setup: &Setup,
    ues: &mut [Ue],
    slots: &mut [Option<Left>],
    rank: Rank,
) -> Result<bool, AllocError>
    requires rank { rank < setup.now.nue }
    requires run { IsSetupOfUes setup.now ues.old slots.old }
    ensures { IfOk result (λ moved. StepsAt (setup_key setup.now) moved rank (config ues.old slots.old) (config ues.new slots.new)) }
{
    match decide(setup, ues, slots, rank) {
        Step::Stays => Ok(false),
        step => {
            take_step(alloc, setup, ues, slots, rank, step)?;
            Ok(true)
        }
    }
}

/// Takes the step that a rank owns.
pub(crate) fn take_step(
    alloc: Global,
    setup: &Setup,
    ues: &mut [Ue],
    slots: &mut [Option<Left>],
    rank: Rank,
    step: Step,
) -> Result<(), AllocError>
    requires rank { rank < setup.now.nue }
    requires run { IsSetupOfUes setup.now ues.old slots.old }
    requires step { step ≡ decision (setup_key setup.now) ues.old slots.old rank }
    requires moves { step ≢ variant.Stays }
    ensures { OnOk result (StepsAt (setup_key setup.now) true rank (config ues.old slots.old) (config ues.new slots.new)) }
{
    let i = rank.number() as usize;
    match step {
        Step::Stays => unreachable!(),
        Step::Goes => {
            ues[i].go();
            Ok(())
        }
        Step::Posts => leave(alloc, setup, ues, slots, i),
        Step::Matches { to } => deliver(alloc, setup, ues, slots, i, to.number() as usize),
        Step::Takes { from } => {
            take(setup, ues, slots, i, from.number() as usize);
            Ok(())
        }
        Step::Mismatches { sent } => {
            ues[i].refuse(sent);
            Ok(())
        }
        Step::Passes { comm } => {
            pass_barrier(setup, ues, comm, rank);
            Ok(())
        }
    }
}

/// Puts the message that a rank posts into its slot.
fn leave(
    alloc: Global,
    setup: &Setup,
    ues: &mut [Ue],
    slots: &mut [Option<Left>],
    i: usize,
) -> Result<(), AllocError>
    requires slot { i < length slots.old }
    requires step { decision (setup_key setup.now) ues.old slots.old i ≡ variant.Posts }
    ensures { OnOk result (StepsAt (setup_key setup.now) true i (config ues.old slots.old) (config ues.new slots.new)) }
{
    slots[i] = Some(ues[i].post(alloc)?);
    Ok(())
}

/// Brings the message of a rank to the rank that receives it.
fn deliver(
    alloc: Global,
    setup: &Setup,
    ues: &mut [Ue],
    slots: &[Option<Left>],
    from: usize,
    to: usize,
) -> Result<(), AllocError>
    requires { decision (setup_key setup.now) ues.old slots.now from ≡ variant.Matches to }
    ensures { OnOk result (StepsAt (setup_key setup.now) true from (config ues.old slots.now) (config ues.new slots.now)) }
{
    let bytes = ues[from].send(alloc)?;
    ues[to].receive(&bytes);
    Ok(())
}

/// Brings the message in a slot to the rank that receives it.
fn take(setup: &Setup, ues: &mut [Ue], slots: &mut [Option<Left>], to: usize, from: usize)
    requires { decision (setup_key setup.now) ues.old slots.old to ≡ variant.Takes from }
    ensures { StepsAt (setup_key setup.now) true to (config ues.old slots.old) (config ues.new slots.new) }
{
    let Some(message) = slots[from].take() else {
        unreachable!()
    };
    ues[to].receive(message.bytes());
}
