//! For whom a rank waits.

ghost use Rattle.std.specs.Prelude.{◌≡◌, ◌<◌, is_some, length, IfSome};
ghost use Rattle.groups.specs.Peers.{IsPeer};
ghost use Rattle.scc_base.specs.Setups.{setup_key};
ghost use Rattle.plain_meaning.specs.Ends.{ended_at};
ghost use Rattle.plain_meaning.specs.HeldUp.{ended_at_barrier};
ghost use Rattle.plain_meaning.specs.Meaning.{keys_of, plain_ends};
ghost use Rattle.check_program.specs.Waiting.{is_waiting, lowest_absent, waits_by_call, waits_for};

use scc_base::{Call, Rank, Setup};
use script_machine::UeEnd;
use script_plain::{End, is_with, setup_of};
use script_rules::Scripts;

/// The rank that a rank waits for at the end of a script. No memory is taken.
pub fn waits_for(end: &End, scripts: &Scripts, rank: Rank) -> Option<Rank>
    requires ended { end.now ≡ plain_ends scripts.now }
    requires below { rank < scripts.now.nue }
    ensures gives { result ≡ waits_for (keys_of scripts.now) end.now rank }
    // None exactly where the rank does not wait.
    ensures waits { is_some result ≡ is_waiting (ended_at end.now rank).end }
    // A rank never waits for itself.
    ensures other { IfSome result (λ on. IsPeer scripts.now.nue rank on) }
{
    scripts.acceptance_law();
    wait_of(end, scripts, rank)
}

/// The rank that a rank waits for.
fn wait_of(end: &End, scripts: &Scripts, rank: Rank) -> Option<Rank>
    requires ranks { length end.now ≡ scripts.now.nue }
    requires below { rank < scripts.now.nue }
    ensures { result ≡ waits_for (keys_of scripts.now) end.now rank }
{
    match end.ue(rank) {
        UeEnd::Waits { call, .. } => waits_at(end, scripts, rank, &call),
        UeEnd::Finished | UeEnd::Mismatch { .. } => None,
    }
}

/// The rank that a rank waits for at a call.
fn waits_at(end: &End, scripts: &Scripts, rank: Rank, call: &Call) -> Option<Rank>
    requires ranks { length end.now ≡ scripts.now.nue }
    requires below { rank < scripts.now.nue }
    ensures { result ≡ waits_by_call (keys_of scripts.now) end.now rank (ended_at end.now rank).in_flight call.now }
{
    match call {
        Call::Send { to, .. } | Call::Post { to, .. } => {
            Some(end.in_flight(rank).unwrap_or(*to))
        }
        Call::Recv { from, .. } => Some(*from),
        Call::Bar { comm } => {
            let setup = setup_of(scripts);
            lowest_absent(end, &setup, *comm, rank)
        }
    }
}

/// The lowest member of the group of a rank that has not come to its barrier.
fn lowest_absent(end: &End, setup: &Setup, comm: u8, rank: Rank) -> Option<Rank>
    requires ranks { length end.now ≡ setup.now.nue }
    requires below { rank < setup.now.nue }
    requires sixteen { length setup.now.comms ≡ 16 }
    ensures { result ≡ lowest_absent (setup_key setup.now) end.now comm rank }
{
    for number in 0..setup.nue() {
        let other = Rank::of(number);
        if is_with(setup, comm, rank, other) && !is_at_barrier(end, comm, other) {
            return Some(other);
        }
    }
    None
}

/// Whether the run of a rank ended at a barrier of a communicator.
fn is_at_barrier(end: &End, comm: u8, rank: Rank) -> bool
    requires below { rank < length end.now }
    ensures { result ≡ ended_at_barrier comm (ended_at end.now rank).end }
{
    match end.ue(rank) {
        UeEnd::Waits { call, .. } => match &call {
            Call::Bar { comm: asked } => *asked == comm,
            Call::Send { .. } | Call::Recv { .. } | Call::Post { .. } => false,
        },
        UeEnd::Finished | UeEnd::Mismatch { .. } => false,
    }
}
