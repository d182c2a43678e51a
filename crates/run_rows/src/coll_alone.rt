//! Collective calls of one rank of a chip whose other ranks make no event.

ghost use Rattle.std.specs.Prelude.{◌≤◌};

use crate::coll_teams::{met, right_at};
use chip_teams::{Player, Team};
use coll_more::More;
use line_cache::Never;
use scc_base::{Layout, Turn};
use std::alloc::Global;
use std::test::Fail;

// The answer of rank 0 after `moves` turns that move, or None if one of them does not.
fn answer_after<M: Player + Drop>(team: &mut Team<M>, moves: u32) -> Option<Turn> {
    for _ in 0..moves {
        if !matches!(team.turn(0), Some(Turn::Moved)) {
            return None;
        }
    }
    team.turn(0)
}

// The same for `nue` ranks that make a call once, with pieces of three bytes, and how many calls of rank 0 have then got their bytes.
fn first_after(alloc: Global, nue: u8, more: More, moves: u32) -> Result<(Option<Turn>, u32), Fail>
    requires few { nue ≤ 48 }
{
    let mut team = met::<Never>(alloc, Layout::LineFlags, nue, more, 3, 1)?;
    let answer = answer_after(&mut team, moves);
    Ok((answer, right_at(&team, 0)))
}

#[test]
fn a_rank_of_one_ends_and_a_rank_of_two_waits(rt: HostRuntime) -> Result<(), Fail> {
    // An alltoall of one rank begins, copies its own piece, and ends.
    let one = first_after(rt.alloc(), 1, More::Alltoall, 2)?;
    assert!(rt; matches!(one, (Some(Turn::Done), 1)));
    // A gather of two begins, copies its own piece, begins the message of rank 1, and waits for it.
    let two = first_after(rt.alloc(), 2, More::Gather, 3)?;
    assert!(rt; matches!(two, (Some(Turn::Waiting(_)), 0)));
    Ok(())
}
