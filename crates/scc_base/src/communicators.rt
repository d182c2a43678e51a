//! Communicators: the rules that make their groups, and the groups that come of them.

ghost use Rattle.std.specs.Prelude.{◌≡◌, ◌+◌, ◌*◌, ◌/◌, ◌%◌, ◌<◌, ◌≤◌, ◌↔◌, ℕ, IsTrue, slice_get, slice_index};
ghost use Rattle.scc_base.specs.Groups.{members_in, place_in, root_in, size_in};
ghost use Rattle.scc_base.specs.Communicators.{AreRules, IsRule, key_of, rule_of};
ghost use Rattle.scc_base.specs.Tables.{ShowsGroup, ShowAll, no_table, HasKeys};

use crate::names::Rank;

/// How the groups of a communicator are made. A split takes each group of its parent apart, by the places of
/// the members in that group: `Mod` by the remainder of the place by k, `Div` by the quotient.
#[derive(Clone, Copy, Debug, PartialEq, Eq)]
pub enum CommRule {
    /// No call may name the communicator.
    Absent,
    /// One group of all ranks.
    World,
    Mod { parent: u8, k: u8 },
    Div { parent: u8, k: u8 },
}

/// The groups of a communicator: the root of each rank's group, and the rank's place in it.
#[derive(Clone, Copy)]
pub(crate) struct Grouping {
    pub(crate) roots: [u8; 48],
    pub(crate) places: [u8; 48],
}

// The lowest rank with the same label.
fn first_alike(labels: &[u16; 48], r: usize) -> u8
    requires below { r < 48 }
    ensures lowest { result ≡ root_in (λ x. slice_index labels.now x) r }
{
    let mut found: usize = 0;
    for x in 0..r {
        if labels[found] != labels[r] {
            found = x + 1;
        }
    }
    found as u8
}

// How many ranks below r have the same label.
fn count_alike(labels: &[u16; 48], r: usize) -> u8
    requires below { r < 48 }
    ensures counts { result ≡ place_in (λ x. slice_index labels.now x) r }
{
    let mut count: u8 = 0;
    for x in 0..r {
        if labels[x] == labels[r] {
            count += 1;
        }
    }
    count
}

// The groups of equal labels.
fn group_alike(labels: &[u16; 48]) -> Grouping
    ensures shows { ShowsGroup (λ x. slice_index labels.now x) result }
{
    let mut roots: [u8; 48] = [0; 48];
    let mut places: [u8; 48] = [0; 48];
    for r in 0..48 {
        roots[r] = first_alike(labels, r);
        places[r] = count_alike(labels, r);
    }
    Grouping { roots, places }
}

// One number for each rank's group of the parent and remainder of its place in it.
fn remainder_labels(parent: &Grouping, k: u8) -> [u16; 48]
    requires some { 1 ≤ k }
    ensures labels { (r : ℕ) → r < 48
        → slice_index result r ≡ 48 * slice_index parent.now.roots r + slice_index parent.now.places r % k }
{
    let mut labels: [u16; 48] = [0; 48];
    for r in 0..48 {
        labels[r] = 48 * parent.roots[r] as u16 + (parent.places[r] % k) as u16;
    }
    labels
}

// One number for each rank's group of the parent and quotient of its place in it.
fn quotient_labels(parent: &Grouping, k: u8) -> [u16; 48]
    requires some { 1 ≤ k }
    ensures labels { (r : ℕ) → r < 48
        → slice_index result r ≡ 48 * slice_index parent.now.roots r + slice_index parent.now.places r / k }
{
    let mut labels: [u16; 48] = [0; 48];
    for r in 0..48 {
        labels[r] = 48 * parent.roots[r] as u16 + (parent.places[r] / k) as u16;
    }
    labels
}

// The groups of a communicator, from those of the communicators below it.
fn group_of(comms: &[CommRule; 16], groups: &[Grouping; 16], comm: usize) -> Grouping
    requires rules { AreRules comms.now }
    requires below { comm < 16 }
    requires shown { ShowAll comms.now comm groups.now }
    ensures shows { ShowsGroup (key_of comms.now comm) result }
{
    match comms[comm] {
        CommRule::Absent | CommRule::World => group_alike(&[0; 48]),
        CommRule::Mod { parent, k } => {
            group_alike(&remainder_labels(&groups[parent as usize], k))
        }
        CommRule::Div { parent, k } => {
            group_alike(&quotient_labels(&groups[parent as usize], k))
        }
    }
}

/// The groups of all communicators.
pub(crate) fn group_all(comms: &[CommRule; 16]) -> [Grouping; 16]
    requires rules { AreRules comms.now }
    ensures shows { ShowAll comms.now 16 result }
{
    let mut groups: [Grouping; 16] = [Grouping {
        roots: [0; 48],
        places: [0; 48],
    }; 16];
    for comm in 0..16 {
        groups[comm] = group_of(comms, &groups, comm);
    }
    groups
}

// Whether a communicator may have a rule, among these rules.
fn is_rule(comms: &[CommRule; 16], comm: usize) -> bool
    requires below { comm < 16 }
    ensures tells { IsTrue result ↔ IsRule comms.now comm (rule_of comms.now comm) }
{
    match comms[comm] {
        CommRule::Absent => comm != 0,
        CommRule::World => comm == 0,
        CommRule::Mod { parent, k } | CommRule::Div { parent, k } => {
            (parent as usize) < comm
                && comms[parent as usize] != CommRule::Absent
                && k >= 1
                && k <= 48
        }
    }
}

/// Whether each communicator may have its rule.
pub(crate) fn are_rules(comms: &[CommRule; 16]) -> bool
    ensures tells { IsTrue result ↔ AreRules comms.now }
{
    for comm in 0..16 {
        if !is_rule(comms, comm) {
            return false;
        }
    }
    true
}

/// How many of the first nue ranks have the root of rank r.
pub(crate) fn count_members(roots: &[u8; 48], nue: u8, r: usize) -> u8
    requires ranks { nue ≤ 48 }
    requires below { r < 48 }
    ensures counts { result ≡ size_in nue (λ x. slice_index roots.now x) r }
{
    let mut count: u8 = 0;
    for x in 0..nue {
        if roots[x as usize] == roots[r] {
            count += 1;
        }
    }
    count
}

/// The i-th of the first nue ranks that have the root of rank r.
pub(crate) fn nth_member(roots: &[u8; 48], nue: u8, r: usize, i: u8) -> Option<Rank>
    requires ranks { nue ≤ 48 }
    requires below { r < 48 }
    ensures gives { result ≡ slice_get (members_in nue (λ x. slice_index roots.now x) r) i }
{
    let mut left: u8 = i;
    for x in 0..nue {
        if roots[x as usize] == roots[r] {
            if left == 0 {
                return Some(Rank::of(x));
            }
            left -= 1;
        }
    }
    None
}
