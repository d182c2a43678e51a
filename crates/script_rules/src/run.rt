//! The run that a script is read for, with the groups that its splits make.

ghost use Rattle.std.specs.Prelude.{◌≡◌, ℕ, ◌<◌};
ghost use Rattle.scc_base.specs.Setups.{host_of};
ghost use Rattle.script_rules.specs.Checks.{is_absent};

use groups::{Coll, steps};
use scc_base::{CommRule, CoreId, Layout, Rank, Setup};
use std::marker::Model;

// Puts each rank on the core of its number.
fn hosts() -> [CoreId; 48]
    ensures { (r : ℕ) → r < 48 → host_of result r ≡ r }
{
    let mut hosts: [CoreId; 48] = [CoreId::of(0); 48];
    for core in 0..48 {
        hosts[core] = CoreId::of(core as u8);
    }
    hosts
}

fn is_absent(rule: CommRule) -> bool
    ensures { result ≡ is_absent rule }
{
    match rule {
        CommRule::Absent => true,
        CommRule::World | CommRule::Mod { .. } | CommRule::Div { .. } => false,
    }
}

/// The groups of a run. Its layout and its cores do not matter for them.
#[derive(Drop)]
pub struct Run {
    nue: u8,
    comms: [CommRule; 16],
    setup: Setup,
}

impl Model for Run {
    ghost use Rattle.std.specs.Prelude.{◌≡◌, []};
    ghost use Rattle.scc_base.specs.Setups.{SetupView};
    ghost use Rattle.scc_base.specs.declared.layouts.Layout.TheVariants.{LineFlags};
    ghost use Rattle.script_rules.specs.Run.{IsRunSetup};

    ghost Value = { SetupView };

    ghost view = { λ r. record { nue = r.nue; layout = LineFlags; hosts = []; comms = r.comms } };

    ghost invariant = { λ r. IsRunSetup r.nue r.comms r.setup };
}

impl Run {
    ghost use Rattle.std.specs.Prelude.{◌≡◌, ◌≢◌, ◌<◌, ◌≤◌, ◌&&◌, [], IsTrue};
    ghost use Rattle.scc_base.specs.Communicators.{AreRules, rule_of};
    ghost use Rattle.scc_base.specs.declared.layouts.Layout.TheVariants.{LineFlags};
    ghost use Rattle.scc_base.specs.declared.communicators.CommRule.TheVariants.{Absent};
    ghost use Rattle.groups.specs.declared.collectives.Coll.TheVariants.{Bcast, Reduce, Allreduce};
    ghost use Rattle.script_rules.specs.Checks.{has_place, is_at_place, is_known, is_past_group, of_no_bytes, steps_in};

    /// A run of 1 to 48 ranks with these rules of communicators, which must be valid for a setup.
    pub fn new(nue: u8, comms: [CommRule; 16]) -> Run
        requires some { 1 ≤ nue }
        requires most { nue ≤ 48 }
        requires rules { AreRules comms }
        ensures { result ≡ record { nue = nue; layout = LineFlags; hosts = []; comms = comms } }
    {
        match Setup::new(nue, Layout::lines(), hosts(), comms) {
            Some(setup) => Run { nue, comms, setup },
            None => unreachable!(),
        }
    }

    /// The number of ranks.
    pub(crate) fn nue(&self) -> u8
        ensures { result ≡ self.now.nue }
    {
        self.nue
    }

    /// The rule of a communicator, or no rule above the last one.
    pub(crate) fn rule(&self, comm: u8) -> CommRule
        ensures gives { result ≡ rule_of self.now.comms comm }
        ensures past { 16 ≤ comm → result ≡ Absent }
        ensures rules { AreRules self.now.comms }
    {
        if comm < 16 {
            self.comms[comm as usize]
        } else {
            CommRule::Absent
        }
    }

    /// Whether the communicator has a rule.
    pub(crate) fn is_known(&self, comm: u8) -> bool
        ensures same { result ≡ is_known self.now comm }
        ensures below { IsTrue result → comm < 16 }
        ensures present { IsTrue result → rule_of self.now.comms comm ≢ Absent }
    {
        !is_absent(self.rule(comm))
    }

    /// Whether the root of a collective call is known to be no place of the rank's group.
    pub(crate) fn is_past_group(&self, comm: u8, rank: u8, root: u8) -> bool
        requires { rank < self.now.nue }
        ensures { result ≡ is_past_group self.now comm rank root }
    {
        self.is_known(comm) && self.setup.group_size(comm, Rank::of(rank)) <= root
    }

    /// Whether the rank is known to be at this place of its group.
    pub(crate) fn is_at(&self, comm: u8, rank: u8, place: u8) -> bool
        requires { rank < self.now.nue }
        ensures { result ≡ is_at_place self.now comm rank place }
    {
        self.is_known(comm) && self.setup.place(comm, Rank::of(rank)) == place
    }

    /// Whether the group is known and the root of a collective call is one of its places.
    fn has_root(&self, comm: u8, rank: u8, root: u8) -> bool
        requires { rank < self.now.nue }
        ensures same { result ≡ (is_known self.now comm && has_place self.now comm rank root) }
        ensures below { IsTrue result → comm < 16 }
        ensures present { IsTrue result → rule_of self.now.comms comm ≢ Absent }
    {
        self.is_known(comm) && root < self.setup.group_size(comm, Rank::of(rank))
    }

    /// The steps of a rank in a broadcast, or 0 if its group or root is not known.
    fn bcast_steps(&self, comm: u8, root: u8, rank: u8) -> u32
        requires { rank < self.now.nue }
        ensures { result ≡ steps_in self.now rank (Bcast comm root 0) }
    {
        if self.has_root(comm, rank, root) {
            let len = 0;
            steps(&self.setup, Rank::of(rank), Coll::Bcast { comm, root, len })
        } else {
            0
        }
    }

    /// The steps of a rank in a reduce, or 0 if its group or root is not known.
    fn reduce_steps(&self, comm: u8, root: u8, rank: u8) -> u32
        requires { rank < self.now.nue }
        ensures { result ≡ steps_in self.now rank (Reduce comm root 0) }
    {
        if self.has_root(comm, rank, root) {
            let len = 0;
            steps(
                &self.setup,
                Rank::of(rank),
                Coll::Reduce { comm, root, len },
            )
        } else {
            0
        }
    }

    /// The steps of a rank in an allreduce, or 0 if its group is not known.
    fn allreduce_steps(&self, comm: u8, rank: u8) -> u32
        requires { rank < self.now.nue }
        ensures { result ≡ steps_in self.now rank (Allreduce comm 0) }
    {
        if self.is_known(comm) {
            let len = 0;
            steps(&self.setup, Rank::of(rank), Coll::Allreduce { comm, len })
        } else {
            0
        }
    }

    /// The steps of a rank in a collective call, or 0 if its group or root is not known.
    pub(crate) fn steps(&self, call: Coll, rank: u8) -> u32
        requires { rank < self.now.nue }
        ensures { result ≡ steps_in self.now rank (of_no_bytes call) }
    {
        match call {
            Coll::Bcast { comm, root, .. } => self.bcast_steps(comm, root, rank),
            Coll::Reduce { comm, root, .. } => self.reduce_steps(comm, root, rank),
            Coll::Allreduce { comm, .. } => self.allreduce_steps(comm, rank),
        }
    }
}
