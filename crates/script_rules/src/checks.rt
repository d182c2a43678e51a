//! The checks of a statement against the statements before it.

ghost use Rattle.std.specs.Prelude.{◌≡◌, ◌<◌, ◌≤◌};
ghost use Rattle.script_rules.specs.Checks.{cost_of, differs_from, has_no_parent, has_no_root, is_badly_split, is_div_of, is_mod_of, is_not_split, is_overworked, is_to_self, is_unknown, last_comm};
ghost use Rattle.script_rules.specs.Tally.{is_new_split, refuses_by, split_in};

use crate::effect::{Cost, Effect, Group, parent_of};
use crate::fault::FaultKind;
use crate::run::Run;
use crate::tally::{MOST_OPERATIONS, Tally};
use crate::uses::{is_misshapen, is_unset, posts_too_much, prints_too_much};
use crate::version::Version;
use scc_base::{CommRule, Rank};

/// Whether the root is known to be no place of the rank's group.
fn has_no_root(run: &Run, effect: &Effect, rank: u8) -> bool
    requires { rank < run.now.nue }
    ensures { result ≡ has_no_root run.now effect.now rank }
{
    match effect.root {
        Some(root) => run.is_past_group(effect.group.needed(), rank, root),
        None => false,
    }
}

/// Whether a rank sends to itself or receives from itself.
fn is_to_self(nue: u8, effect: &Effect, rank: u8) -> bool
    requires some { 1 ≤ nue }
    requires most { nue ≤ 48 }
    requires within { rank < nue }
    ensures { result ≡ is_to_self nue effect.now rank }
{
    match effect.peer {
        Some(peer) => peer.rank(nue, Rank::of(rank)).number() == rank,
        None => false,
    }
}

/// The highest communicator number of a version.
fn last_comm(version: Version) -> u8
    ensures { result ≡ last_comm version }
{
    match version {
        Version::One => 7,
        Version::Two => 15,
    }
}

/// Whether a rule splits this parent by the remainder modulo `k`.
fn is_mod_of(rule: CommRule, parent: u8, k: u8) -> bool
    ensures { result ≡ is_mod_of rule parent k }
{
    match rule {
        CommRule::Mod {
            parent: other,
            k: parts,
        } => parent == other && k == parts,
        CommRule::Absent | CommRule::World | CommRule::Div { .. } => false,
    }
}

/// Whether a rule splits this parent by the quotient by `k`.
fn is_div_of(rule: CommRule, parent: u8, k: u8) -> bool
    ensures { result ≡ is_div_of rule parent k }
{
    match rule {
        CommRule::Div {
            parent: other,
            k: parts,
        } => parent == other && k == parts,
        CommRule::Absent | CommRule::World | CommRule::Mod { .. } => false,
    }
}

/// Whether there is a rule already, and it is not the other one.
fn differs_from(rule: CommRule, other: CommRule) -> bool
    ensures { result ≡ differs_from rule other }
{
    match rule {
        CommRule::Absent => false,
        CommRule::World => true,
        CommRule::Mod { parent, k } => !is_mod_of(other, parent, k),
        CommRule::Div { parent, k } => !is_div_of(other, parent, k),
    }
}

/// Whether a statement splits with a rule that the communicator cannot have.
fn is_badly_split(run: &Run, comm: u8, rule: CommRule) -> bool
    ensures { result ≡ is_badly_split run.now comm rule }
{
    comm == 0 || parent_of(rule) >= comm || differs_from(run.rule(comm), rule)
}

/// Whether a statement names a communicator above the highest of its version, or splits one wrongly.
pub fn is_unknown(version: Version, run: &Run, group: Group) -> bool
    ensures { result ≡ is_unknown version run.now group }
{
    match group {
        Group::World => false,
        Group::Of(comm) => comm > last_comm(version),
        Group::Split(comm, rule) => comm > last_comm(version) || is_badly_split(run, comm, rule),
    }
}

/// Whether the rank has not split the communicator that a statement names.
fn is_not_split(tally: &Tally, group: Group) -> bool
    ensures { result ≡ is_not_split (split_in tally.now) group }
{
    let comm = group.needed();
    comm != 0 && !tally.has_split(comm)
}

/// Whether no earlier line splits the parent of this split.
pub fn has_no_parent(run: &Run, group: Group) -> bool
    ensures { result ≡ has_no_parent run.now group }
{
    match group {
        Group::World | Group::Of(_) => false,
        Group::Split(_, rule) => !run.is_known(parent_of(rule)),
    }
}

/// Whether a statement splits a communicator that has no rule yet.
pub fn is_new_split(run: &Run, group: Group) -> bool
    ensures { result ≡ is_new_split run.now group }
{
    match group {
        Group::World | Group::Of(_) => false,
        Group::Split(comm, _) => !run.is_known(comm),
    }
}

/// How many operations one pass of a statement costs a rank.
pub(crate) fn cost_of(run: &Run, cost: Cost, rank: u8) -> u32
    requires { rank < run.now.nue }
    ensures { result ≡ cost_of run.now cost rank }
{
    match cost {
        Cost::Free => 0,
        Cost::One => 1,
        Cost::Steps(call) => run.steps(call, rank),
    }
}

/// Whether the rank has too many operations with the statement.
fn is_overworked(run: &Run, tally: &Tally, turns: u32, cost: Cost, rank: u8) -> bool
    requires { rank < run.now.nue }
    ensures { result ≡ is_overworked run.now tally.now.operations turns cost rank }
{
    let operations = (turns as u64).saturating_mul(cost_of(run, cost, rank) as u64);
    tally.operations.saturating_add(operations) > MOST_OPERATIONS
}

/// Whether the check of this kind refuses a statement for a rank that has this tally.
pub fn refuses_by(
    kind: FaultKind,
    run: &Run,
    tally: &Tally,
    turns: u32,
    effect: &Effect,
    rank: u8,
) -> bool
    requires some { 1 ≤ run.now.nue }
    requires most { run.now.nue ≤ 48 }
    requires within { rank < run.now.nue }
    ensures { result ≡ refuses_by kind run.now tally.now turns effect.now rank }
{
    match kind {
        FaultKind::RankRange => has_no_root(run, effect, rank),
        FaultKind::SelfMessage => is_to_self(run.nue(), effect, rank),
        FaultKind::NotSplit => is_not_split(tally, effect.group),
        FaultKind::Unset => is_unset(run, tally, effect, rank),
        FaultKind::Shape => is_misshapen(run, tally, effect, rank),
        FaultKind::TooManyOps => is_overworked(run, tally, turns, effect.cost, rank),
        FaultKind::TooLong => {
            posts_too_much(tally, effect) || prints_too_much(tally, turns, effect)
        }
        FaultKind::NotText
        | FaultKind::UnknownStatement
        | FaultKind::WrongCount
        | FaultKind::BadNumber
        | FaultKind::BadHex
        | FaultKind::BadName
        | FaultKind::UnknownComm
        | FaultKind::NoSection
        | FaultKind::UnclosedRepeat
        | FaultKind::StrayEnd
        | FaultKind::TooDeep
        | FaultKind::TooManyNames => false,
    }
}
