//! The setup of a run.

ghost use Rattle.std.specs.Prelude.{◌≡◌, ◌≢◌, ◌<◌, ◌≤◌, ◌↔◌, ℕ, IsTrue};
ghost use Rattle.scc_base.specs.Setups.{AreApart, host_of};

use crate::communicators::{CommRule, Grouping, are_rules, count_members, group_all, nth_member};
use crate::layouts::Layout;
use crate::names::{CoreId, Rank};
use std::marker::Model;

// Whether the core of a rank is no core of a rank before it.
fn is_alone(hosts: &[CoreId; 48], rank: usize) -> bool
    requires below { rank < 48 }
    ensures tells { IsTrue result ↔ ((r : ℕ) → r < rank → host_of hosts.now r ≢ host_of hosts.now rank) }
{
    for r in 0..rank {
        if hosts[r] == hosts[rank] {
            return false;
        }
    }
    true
}

// Whether the first ranks have cores of their own.
fn are_apart(hosts: &[CoreId; 48], nue: u8) -> bool
    requires ranks { nue ≤ 48 }
    ensures tells { IsTrue result ↔ AreApart nue hosts.now }
{
    for rank in 0..nue as usize {
        if !is_alone(hosts, rank) {
            return false;
        }
    }
    true
}

/// The setup of a run: how many units of execution there are, how the buffers are laid out, on which core
/// each rank is, and how the communicators are made.
#[derive(Drop)]
pub struct Setup {
    nue: u8,
    layout: Layout,
    hosts: [CoreId; 48],
    comms: [CommRule; 16],
    groups: [Grouping; 16],
}

impl Model for Setup {
    ghost use Rattle.scc_base.specs.Setups.{SetupView, IsSetup};
    ghost use Rattle.scc_base.specs.Tables.{ShowAll};

    ghost Value = { SetupView };

    ghost view = { λ a. record { nue = a.nue; layout = a.layout; hosts = a.hosts; comms = a.comms } };

    ghost invariant = { λ a.
        IsSetup (record { nue = a.nue; layout = a.layout; hosts = a.hosts; comms = a.comms }) × ShowAll a.comms 16 a.groups };
}

impl Setup {
    ghost use Rattle.std.specs.Prelude.{◌≡◌, ◌≢◌, ◌<◌, ◌↔◌, IfSome, IsSome, SomeIff, slice_get};
    ghost use Rattle.scc_base.specs.Setups.{IsMemberAt, IsSetup, host_of, members_of, place_of, root_of, size_of};
    ghost use Rattle.scc_base.specs.Communicators.{rule_of};
    ghost use Rattle.scc_base.specs.declared.communicators.CommRule.TheVariants.{Absent};

    /// A setup of that many ranks, on the first of these cores, with these communicators.
    pub fn new(nue: u8, layout: Layout, hosts: [CoreId; 48], comms: [CommRule; 16]) -> Option<Setup>
        ensures gives { SomeIff result
            (IsSetup (record { nue = nue; layout = layout; hosts = hosts; comms = comms }))
            (record { nue = nue; layout = layout; hosts = hosts; comms = comms }) }
    {
        if nue < 1 || nue > 48 || !are_apart(&hosts, nue) || !are_rules(&comms) {
            return None;
        }
        let groups = group_all(&comms);
        Some(Setup {
            nue,
            layout,
            hosts,
            comms,
            groups,
        })
    }

    /// A copy of the setup.
    pub fn copy(&self) -> Setup
        ensures gives { result ≡ self.now }
    {
        Setup {
            nue: self.nue,
            layout: self.layout,
            hosts: self.hosts,
            comms: self.comms,
            groups: self.groups,
        }
    }

    /// The number of ranks.
    pub fn nue(&self) -> u8
        ensures gives { result ≡ self.now.nue }
        ensures valid { IsSetup self.now }
    {
        self.nue
    }

    pub fn layout(&self) -> Layout
        ensures gives { result ≡ self.now.layout }
    {
        self.layout
    }

    /// The core of a rank.
    pub fn core_of(&self, r: Rank) -> CoreId
        requires below { r < self.now.nue }
        ensures gives { result ≡ host_of self.now.hosts r }
    {
        self.hosts[r.number() as usize]
    }

    /// The rule of a communicator.
    pub fn rule(&self, comm: u8) -> CommRule
        requires below { comm < 16 }
        ensures gives { result ≡ rule_of self.now.comms comm }
    {
        self.comms[comm as usize]
    }

    /// The number of members of a rank's group in a communicator.
    pub fn group_size(&self, comm: u8, r: Rank) -> u8
        requires comm_below { comm < 16 }
        requires rank_below { r < self.now.nue }
        requires present { rule_of self.now.comms comm ≢ Absent }
        ensures gives { result ≡ size_of self.now comm r }
    {
        count_members(
            &self.groups[comm as usize].roots,
            self.nue,
            r.number() as usize,
        )
    }

    /// The member at place i of a rank's group in a communicator. The members are in rank order.
    pub fn member(&self, comm: u8, r: Rank, i: u8) -> Option<Rank>
        requires comm_below { comm < 16 }
        requires rank_below { r < self.now.nue }
        requires present { rule_of self.now.comms comm ≢ Absent }
        ensures gives { result ≡ slice_get (members_of self.now comm r) i }
        ensures found { IsSome result ↔ (i < size_of self.now comm r) }
        ensures placed { IfSome result (λ m. IsMemberAt self.now comm r i m) }
    {
        nth_member(
            &self.groups[comm as usize].roots,
            self.nue,
            r.number() as usize,
            i,
        )
    }

    /// The place of a rank in its group of a communicator, from 0.
    pub fn place(&self, comm: u8, r: Rank) -> u8
        requires comm_below { comm < 16 }
        requires rank_below { r < self.now.nue }
        requires present { rule_of self.now.comms comm ≢ Absent }
        ensures gives { result ≡ place_of self.now comm r }
        ensures below { result < size_of self.now comm r }
    {
        self.groups[comm as usize].places[r.number() as usize]
    }

    /// The root of a rank's group in a communicator: its member 0.
    pub fn root(&self, comm: u8, r: Rank) -> Rank
        requires comm_below { comm < 16 }
        requires rank_below { r < self.now.nue }
        requires present { rule_of self.now.comms comm ≢ Absent }
        ensures gives { result ≡ root_of self.now comm r }
        ensures placed { IsMemberAt self.now comm r 0 result }
    {
        Rank::of(self.groups[comm as usize].roots[r.number() as usize])
    }
}
