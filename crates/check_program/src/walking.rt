//! The walk from a rank that waits to the cause.

ghost use Rattle.std.specs.Prelude.{◌≡◌, ◌<◌, is_some, length, IfSome};
ghost use Rattle.std.specs.Option.{option_map};
ghost use Rattle.plain_meaning.specs.Ends.{ended_at};
ghost use Rattle.plain_meaning.specs.Meaning.{keys_of, plain_ends};
ghost use Rattle.check_program.specs.Waiting.{IsCause, cause_of, is_waiting, least_walked, stopped_by, waits_for, after_steps};

use crate::causes::Cause;
use crate::waiting::waits_for;
use scc_base::Rank;
use script_machine::UeEnd;
use script_plain::End;
use script_rules::Scripts;

/// Why a rank waits at the end of a script: what a walk from rank to rank comes to, each to the one that is waited for. No
/// memory is taken.
pub fn cause(end: &End, scripts: &Scripts, rank: Rank) -> Option<Cause>
    requires ended { end.now ≡ plain_ends scripts.now }
    requires below { rank < scripts.now.nue }
    ensures gives { result
        ≡ option_map (λ on. cause_of (waits_for (keys_of scripts.now) end.now) end.now rank)
        (waits_for (keys_of scripts.now) end.now rank) }
    // None exactly where the rank does not wait.
    ensures waits { is_some result ≡ is_waiting (ended_at end.now rank).end }
    // At most as many steps as there are ranks lead to it: to a rank that has finished or refused a message, or to the least
    // rank of a ring.
    ensures means { IfSome result (λ why. IsCause (waits_for (keys_of scripts.now) end.now) end.now rank why) }
{
    scripts.acceptance_law();
    waits_for(end, scripts, rank)?;
    let last = walk(end, scripts, rank);
    match waits_for(end, scripts, last) {
        None => Some(stop(end, last)),
        Some(_) => Some(Cause::Cycle(least(end, scripts, last))),
    }
}

/// Where as many steps lead from a rank as there are ranks.
fn walk(ends: &End, scripts: &Scripts, rank: Rank) -> Rank
    requires ended { ends.now ≡ plain_ends scripts.now }
    requires below { rank < scripts.now.nue }
    ensures walked { result ≡ after_steps (waits_for (keys_of scripts.now) ends.now) scripts.now.nue rank }
    ensures below { result < scripts.now.nue }
{
    let mut at = rank;
    for _ in 0..scripts.nue() {
        match waits_for(ends, scripts, at) {
            Some(next) => at = next,
            None => return at,
        }
    }
    at
}

/// The least of the ranks to which up to as many steps lead as there are ranks.
fn least(ends: &End, scripts: &Scripts, rank: Rank) -> Rank
    requires ended { ends.now ≡ plain_ends scripts.now }
    requires below { rank < scripts.now.nue }
    ensures { result ≡ least_walked (waits_for (keys_of scripts.now) ends.now) scripts.now.nue rank }
{
    let mut at = rank;
    let mut least = rank;
    for _ in 0..scripts.nue() {
        match waits_for(ends, scripts, at) {
            Some(next) => {
                at = next;
                if next.number() < least.number() {
                    least = next;
                }
            }
            None => return least,
        }
    }
    least
}

/// Why a walk ends at a rank that does not wait.
fn stop(ends: &End, rank: Rank) -> Cause
    requires { rank < length ends.now }
    ensures { result ≡ stopped_by rank (ended_at ends.now rank).end }
{
    match ends.ue(rank) {
        UeEnd::Mismatch { .. } => Cause::Mismatch(rank),
        UeEnd::Finished | UeEnd::Waits { .. } => Cause::Finished(rank),
    }
}
