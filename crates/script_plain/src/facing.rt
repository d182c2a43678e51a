//! Whom ranks face in what stands next, and where the next step is looked for.

ghost use Rattle.std.specs.Prelude.{◌≡◌, ◌<◌, ◌≤◌, ℕ};
ghost use Rattle.script_plain.specs.Facing.{AreAside, IsAside, facing_at, heeds};

use crate::ues::Ue;
use scc_base::Rank;
use script_machine::Facing;

/// Whether a rank that faces these may come to own a step as another rank comes to face those.
fn heeds(facing: &Facing, rank: Rank, there: &Facing) -> bool
    ensures { result ≡ heeds facing.now rank there.now }
{
    match facing {
        Facing::Nobody => false,
        Facing::One { rank: other } => *other == rank,
        Facing::Group => match there {
            Facing::Group => true,
            Facing::Nobody | Facing::One { .. } => false,
        },
    }
}

/// Whom a rank faces.
pub(crate) fn facing_at(ues: &[Ue], rank: Rank) -> Facing
    ensures { result ≡ facing_at ues.now rank }
{
    match ues.get(rank.number() as usize) {
        Some(ue) => ue.facing(),
        None => Facing::Nobody,
    }
}

/// Up to which rank none may own a step now that a rank has taken one, at which it faced these, where none below it owned
/// one before.
pub(crate) fn still_to(ues: &[Ue], rank: Rank, facing: Facing) -> u8
    ensures within { result ≤ rank }
    ensures aside { AreAside ues.now rank facing result }
{
    match &facing {
        Facing::Nobody => aside_to(ues, rank, rank),
        Facing::One { rank: other } => aside_to(ues, rank, *other),
        Facing::Group => 0,
    }
}

/// Up to which rank none heeds what these two ranks have come to.
fn aside_to(ues: &[Ue], rank: Rank, other: Rank) -> u8
    ensures within { result ≤ rank }
    ensures aside { (k : ℕ) → k < result → IsAside ues.now rank other k }
{
    let here = facing_at(ues, rank);
    let there = facing_at(ues, other);
    for number in 0..rank.number() {
        let facing = facing_at(ues, Rank::of(number));
        if number == other.number()
            || heeds(&facing, rank, &here)
            || heeds(&facing, other, &there)
        {
            return number;
        }
    }
    rank.number()
}
