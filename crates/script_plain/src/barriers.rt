//! The groups of a script's communicators.

ghost use Rattle.std.specs.Prelude.{◌≡◌, ◌==◌, ◌<◌, length, IsTrue};
ghost use Rattle.scc_base.specs.Groups.{is_with, root_in};
ghost use Rattle.scc_base.specs.Setups.{setup_key};
ghost use Rattle.script_machine.specs.Local.{local_next};
ghost use Rattle.script_rules.specs.Script.{rules_of};
ghost use Rattle.plain_meaning.specs.Step.{all_at_barrier, by_rank, past_if};

use crate::ues::Ue;
use scc_base::{CommRule, CoreId, Layout, Rank, Setup};
use script_rules::Scripts;

/// The ranks and communicators of a script, on any cores.
pub fn setup_of(scripts: &Scripts) -> Setup
    ensures ranks { result.nue ≡ scripts.now.nue }
    ensures communicators { result.comms ≡ rules_of scripts.now.items }
{
    let mut hosts = [CoreId::of(0); 48];
    for number in 0..scripts.nue() {
        hosts[number as usize] = CoreId::of(number);
    }
    scripts.setup(Layout::lines(), hosts)
}

/// Member 0 of the group of a rank. A communicator that no rule makes is one group.
pub fn root_of(setup: &Setup, comm: u8, rank: Rank) -> Rank
    requires rank { rank < setup.now.nue }
    requires sixteen { length setup.now.comms ≡ 16 }
    ensures { result ≡ root_in (setup_key setup.now comm) rank }
{
    if comm >= 16 {
        return Rank::of(0);
    }
    match setup.rule(comm) {
        CommRule::Absent => Rank::of(0),
        CommRule::World | CommRule::Mod { .. } | CommRule::Div { .. } => setup.root(comm, rank),
    }
}

/// Whether a rank is in the group of another.
pub fn is_with(setup: &Setup, comm: u8, rank: Rank, other: Rank) -> bool
    requires rank { rank < setup.now.nue }
    requires other { other < setup.now.nue }
    requires sixteen { length setup.now.comms ≡ 16 }
    ensures { result ≡ is_with (setup_key setup.now comm) rank other }
{
    root_of(setup, comm, other) == root_of(setup, comm, rank)
}

/// Whether all members of the group of a rank stand at a barrier of this communicator.
pub fn all_at_barrier(setup: &Setup, ues: &[Ue], comm: u8, rank: Rank) -> bool
    requires rank { rank < setup.now.nue }
    requires ranks { length ues.now ≡ setup.now.nue }
    requires sixteen { length setup.now.comms ≡ 16 }
    ensures { result ≡ all_at_barrier local_next comm (is_with (setup_key setup.now comm) rank) ues.now }
{
    for number in 0..setup.nue() {
        if is_with(setup, comm, rank, Rank::of(number))
            && !ues[number as usize].is_at_barrier(comm)
        {
            return false;
        }
    }
    true
}

/// All members of the group of a rank go past the barrier at which they stand.
pub fn pass_barrier(setup: &Setup, ues: &mut [Ue], comm: u8, rank: Rank)
    requires rank { rank < setup.now.nue }
    requires ranks { length ues.old ≡ setup.now.nue }
    requires sixteen { length setup.now.comms ≡ 16 }
    requires at_barrier { IsTrue (all_at_barrier local_next comm (is_with (setup_key setup.now comm) rank) ues.old) }
    ensures { ues.new ≡ by_rank (λ r. past_if local_next (is_with (setup_key setup.now comm) rank r)) ues.old }
{
    for number in 0..setup.nue() {
        if is_with(setup, comm, rank, Rank::of(number)) {
            ues[number as usize].pass(comm);
        }
    }
}
