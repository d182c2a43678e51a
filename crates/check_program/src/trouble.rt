//! What is the matter with each rank.

ghost use Rattle.std.specs.Prelude.{◌≡◌, ◌<◌, IfOk};
ghost use Rattle.plain_meaning.specs.Meaning.{keys_of, plain_ends};
ghost use Rattle.check_program.specs.Waiting.{all_found, cause_of, trouble_by_waits, trouble_of, waits_for};

use crate::causes::Cause;
use crate::waiting::waits_for;
use crate::walking::cause;
use scc_base::Rank;
use script_machine::UeEnd;
use script_plain::End;
use script_rules::Scripts;
use std::alloc::{AllocError, Global};

/// How the run of a rank ended, and for whom it waits.
#[derive(Clone, Copy)]
pub enum Trouble {
    /// It has finished.
    Finished,
    /// It waits for a rank.
    Waits { on: Rank, why: Cause },
    /// It refused a message of this rank.
    Mismatch { from: Rank },
}

/// A rank, and what is the matter with it.
#[derive(Clone, Copy)]
pub struct Found {
    pub rank: Rank,
    pub trouble: Trouble,
}

/// What is the matter with each rank at the end of a script.
pub fn all_found(alloc: Global, end: &End, scripts: &Scripts) -> Result<Vec<Found>, AllocError>
    requires { end.now ≡ plain_ends scripts.now }
    ensures { IfOk result (λ found. found.items ≡ all_found (keys_of scripts.now) end.now) }
{
    let mut all = Vec::new(alloc);
    for number in 0..scripts.nue() {
        let rank = Rank::of(number);
        all.push(Found {
            rank,
            trouble: trouble_of(end, scripts, rank),
        })?;
    }
    Ok(all)
}

/// What is the matter with a rank.
fn trouble_of(end: &End, scripts: &Scripts, rank: Rank) -> Trouble
    requires ended { end.now ≡ plain_ends scripts.now }
    requires below { rank < scripts.now.nue }
    ensures { result ≡ trouble_of (keys_of scripts.now) end.now rank }
{
    match end.ue(rank) {
        UeEnd::Finished => Trouble::Finished,
        UeEnd::Mismatch { from, .. } => Trouble::Mismatch { from },
        UeEnd::Waits { .. } => waiting(end, scripts, rank),
    }
}

/// What is the matter with a rank that waits.
fn waiting(end: &End, scripts: &Scripts, rank: Rank) -> Trouble
    requires ended { end.now ≡ plain_ends scripts.now }
    requires below { rank < scripts.now.nue }
    ensures { result
        ≡ trouble_by_waits (cause_of (waits_for (keys_of scripts.now) end.now) end.now rank)
        (waits_for (keys_of scripts.now) end.now rank) }
{
    let Some(on) = waits_for(end, scripts, rank) else {
        return Trouble::Finished;
    };
    match cause(end, scripts, rank) {
        Some(why) => Trouble::Waits { on, why },
        None => unreachable!(),
    }
}
