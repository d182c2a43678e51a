//! The messages of the plain meaning, in its order: the enabled step with the lowest owner is taken, again and again.

ghost use Rattle.std.specs.Prelude.{◌≡◌, ◌≢◌, ◌<◌, ◌∷◌, ◌++◌, [], None, is_some, length, IfOk, IfSome, OnOk, sum_by};
ghost use Rattle.scc_base.specs.Setups.{setup_key};
ghost use Rattle.script_plain.specs.Code.{BringsAt, BringsLowest, IsSetupOfUes, config, decision};
ghost use Rattle.script_plain.specs.Facing.{IsStillTo};
ghost use Rattle.script_machine.specs.Local.{most_steps_left, local_next, statement_line};
ghost use Rattle.script_plain.specs.Matches.{messages_brought, statement_line_at, matches_on, plain_matches};
ghost use Rattle.plain_meaning.specs.Meaning.{ends_at, plain_ends};
ghost use Rattle.plain_meaning.specs.Step.{lowest_step, run_on};
ghost use Rattle.script_plain.specs.declared.steps.Step.TheVariants as variant;

use crate::barriers::setup_of;
use crate::decisions::{call_at, decide};
use crate::ends::{End, end_all};
use crate::facing::{facing_at, still_to};
use crate::posts::Left;
use crate::steps::{Ranks, Step, begin, take_step};
use crate::ues::Ue;
use scc_base::{Call, Head, Rank, Setup};
use script_rules::Scripts;
use std::alloc::{AllocError, Global};
use std::marker::Model;

/// A message that came to its receiver: from which rank to which, its head, and the lines of the statements that sent and
/// received it.
#[derive(Clone, Copy)]
pub struct Match {
    pub from: Rank,
    pub to: Rank,
    pub head: Head,
    pub send_line: u32,
    pub recv_line: u32,
}

/// The messages of a run, in the order in which they came. There is room for 2^40.
#[derive(Drop)]
pub struct Matches {
    list: Vec<Match>,
}

impl Model for Matches {
    ghost use Rattle.std.specs.Prelude.{◌^◌, ◌≤◌, List, vec_len};
    ghost use Rattle.script_plain.specs.declared.matches.Match.{Match};

    ghost Value = { List Match };

    ghost view = { λ m. m.list.items };

    ghost invariant = { λ m. vec_len m.list ≤ 2 ^ 40 };
}

impl Matches {
    ghost use Rattle.std.specs.Prelude.{◌≡◌, ◌<◌, ◌≤◌, ◌^◌, ◌++◌, ◌∷◌, [], length, slice_get, OnOk, Some};

    /// How many entries there is room for.
    const MOST: usize = 1 << 40;

    fn new(alloc: Global) -> Matches
        ensures { result ≡ [] }
    {
        Matches {
            list: Vec::new(alloc),
        }
    }

    /// How many messages came.
    pub fn len(&self) -> usize
        ensures same { result ≡ length self.now }
        ensures most { result ≤ 2 ^ 40 }
    {
        self.list.len()
    }

    /// A message, in their order.
    pub fn get(&self, i: usize) -> &Match
        requires { i < length self.now }
        ensures { slice_get self.now i ≡ Some result.now }
    {
        &self.list[i]
    }

    /// Puts a message behind the others.
    fn push(&mut self, found: Match) -> Result<(), AllocError>
        ensures { OnOk result (self.new ≡ self.old ++ found ∷ []) }
    {
        if self.list.len() >= Matches::MOST {
            return Err(AllocError);
        }
        self.list.push(found)?;
        Ok(())
    }
}

/// The messages of a run, and its end.
#[derive(Drop)]
pub struct History {
    pub matches: Matches,
    pub end: End,
}

/// The matches and takes of the plain meaning and its end, by one run.
pub fn plain_history(alloc: Global, scripts: &Scripts) -> Result<History, AllocError>
    ensures matches { IfOk result (λ h. h.matches ≡ plain_matches scripts.now) }
    ensures end { IfOk result (λ h. h.end ≡ plain_ends scripts.now) }
    ensures ranks { IfOk result (λ h. length h.end ≡ scripts.now.nue) }
{
    let setup = setup_of(scripts);
    let Ranks { mut ues, mut slots } = begin(alloc, scripts, &setup)?;
    let history = history_of(alloc, &setup, &mut ues, &mut slots)?;
    Ok(history)
}

/// Takes the enabled step with the lowest owner until no step is enabled, and gives what the steps bring and what the ranks
/// leave behind.
fn history_of(
    alloc: Global,
    setup: &Setup,
    ues: &mut [Ue],
    slots: &mut [Option<Left>],
) -> Result<History, AllocError>
    requires run { IsSetupOfUes setup.now ues.old slots.old }
    ensures matches { IfOk result (λ h. h.matches
        ≡ matches_on (setup_key setup.now) local_next statement_line (sum_by most_steps_left ues.old) (config ues.old slots.old)) }
    ensures end { IfOk result (λ h. h.end
        ≡ ends_at (run_on (setup_key setup.now) local_next (sum_by most_steps_left ues.old) (config ues.old slots.old))) }
{
    let matches = match_on(alloc, setup, ues, slots)?;
    let end = end_all(alloc, ues, slots)?;
    Ok(History { matches, end })
}

/// The matches and takes of the plain meaning of scripts, in its order: the enabled step with the lowest owner is taken
/// until no step is enabled. After a step the next one is looked for from the lowest rank on that heeds it.
pub fn plain_matches(alloc: Global, scripts: &Scripts) -> Result<Matches, AllocError>
    ensures { IfOk result (λ matches. matches ≡ plain_matches scripts.now) }
{
    let History { matches, end: _ } = plain_history(alloc, scripts)?;
    Ok(matches)
}

/// Takes the enabled step with the lowest owner until no step is enabled, and gives what the steps bring.
fn match_on(
    alloc: Global,
    setup: &Setup,
    ues: &mut [Ue],
    slots: &mut [Option<Left>],
) -> Result<Matches, AllocError>
    requires run { IsSetupOfUes setup.now ues.old slots.old }
    ensures matches { IfOk result (λ matches. matches
        ≡ matches_on (setup_key setup.now) local_next statement_line (sum_by most_steps_left ues.old) (config ues.old slots.old)) }
    ensures end { OnOk result (config ues.new slots.new
        ≡ run_on (setup_key setup.now) local_next (sum_by most_steps_left ues.old) (config ues.old slots.old)) }
    ensures still { OnOk result (lowest_step (setup_key setup.now) local_next (config ues.new slots.new) ≡ None) }
{
    let mut matches = Matches::new(alloc);
    let mut from = 0;
    while let Some(next) = step_lowest(alloc, setup, ues, slots, from, &mut matches)? {
        from = next;
    }
    Ok(matches)
}

/// Takes the enabled step with the lowest owner, if there is one, and puts what it brings behind the others. No rank below
/// `from` owns one. Answers up to which rank none owns one then.
fn step_lowest(
    alloc: Global,
    setup: &Setup,
    ues: &mut [Ue],
    slots: &mut [Option<Left>],
    from: u8,
    matches: &mut Matches,
) -> Result<Option<u8>, AllocError>
    requires run { IsSetupOfUes setup.now ues.old slots.old }
    requires still { IsStillTo (setup_key setup.now) from (config ues.old slots.old) }
    ensures brings { IfOk result (λ next. BringsLowest (setup_key setup.now) (is_some next) (config ues.old slots.old)
        (config ues.new slots.new) matches.old matches.new) }
    ensures still { IfOk result (λ next. IfSome next (λ n. IsStillTo (setup_key setup.now) n (config ues.new slots.new))) }
{
    for number in from..setup.nue() {
        let rank = Rank::of(number);
        let facing = facing_at(ues, rank);
        if step_by(alloc, setup, ues, slots, rank, matches)? {
            return Ok(Some(still_to(ues, rank, facing)));
        }
    }
    Ok(None)
}

/// Takes the step that a rank owns, if it is enabled, and puts what it brings behind the others.
fn step_by(
    alloc: Global,
    setup: &Setup,
    ues: &mut [Ue],
    slots: &mut [Option<Left>],
    rank: Rank,
    matches: &mut Matches,
) -> Result<bool, AllocError>
    requires rank { rank < setup.now.nue }
    requires run { IsSetupOfUes setup.now ues.old slots.old }
    ensures { IfOk result
        (λ moved. BringsAt (setup_key setup.now) moved rank (config ues.old slots.old) (config ues.new slots.new) matches.old matches.new) }
{
    match decide(setup, ues, slots, rank) {
        Step::Stays => Ok(false),
        step => {
            note(setup, ues, slots, rank, &step, matches)?;
            take_step(alloc, setup, ues, slots, rank, step)?;
            Ok(true)
        }
    }
}

/// Puts what the step of a rank brings behind the others.
fn note(
    setup: &Setup,
    ues: &[Ue],
    slots: &[Option<Left>],
    rank: Rank,
    step: &Step,
    matches: &mut Matches,
) -> Result<(), AllocError>
    requires step { step.now ≡ decision (setup_key setup.now) ues.now slots.now rank }
    requires moves { step.now ≢ variant.Stays }
    ensures { OnOk result (matches.new ≡ matches.old ++ messages_brought local_next statement_line (config ues.now slots.now) rank) }
{
    match step {
        Step::Matches { to } => matches.push(match_to(setup, ues, slots, rank, *to)),
        Step::Takes { from } => matches.push(take_from(setup, ues, slots, rank, *from)),
        Step::Stays | Step::Goes | Step::Posts | Step::Mismatches { .. } | Step::Passes { .. } =>
            Ok(()),
    }
}

/// The message of a rank that stands at a send, which the rank `to` receives.
fn match_to(setup: &Setup, ues: &[Ue], slots: &[Option<Left>], rank: Rank, to: Rank) -> Match
    requires { decision (setup_key setup.now) ues.now slots.now rank ≡ variant.Matches to }
    ensures { messages_brought local_next statement_line (config ues.now slots.now) rank ≡ result ∷ [] }
{
    match &call_at(ues, rank) {
        Some(Call::Send { head, .. }) => Match {
            from: rank,
            to,
            head: *head,
            send_line: line_at(ues, rank),
            recv_line: line_at(ues, to),
        },
        _ => unreachable!(),
    }
}

/// The message in the slot of the rank `from`, which a rank takes that stands at a receive.
fn take_from(setup: &Setup, ues: &[Ue], slots: &[Option<Left>], rank: Rank, from: Rank) -> Match
    requires { decision (setup_key setup.now) ues.now slots.now rank ≡ variant.Takes from }
    ensures { messages_brought local_next statement_line (config ues.now slots.now) rank ≡ result ∷ [] }
{
    match slots.get(from.number() as usize) {
        Some(Some(message)) => Match {
            from,
            to: rank,
            head: message.head(),
            send_line: message.line(),
            recv_line: line_at(ues, rank),
        },
        _ => unreachable!(),
    }
}

/// The line of the statement at which a rank stands.
fn line_at(ues: &[Ue], rank: Rank) -> u32
    ensures { result ≡ statement_line_at statement_line (config ues.now []) rank }
{
    match ues.get(rank.number() as usize) {
        Some(ue) => ue.line(),
        None => 0,
    }
}
