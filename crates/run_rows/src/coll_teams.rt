//! Collective calls of two and of three ranks of a chip with one seat.

ghost use Rattle.std.specs.Prelude.{◌≤◌};

use crate::coll_members::{Member, member_of};
use crate::coll_pieces::KINDS;
use chip_teams::{Team, opened};
use coll_more::More;
use line_cache::{Always, Evict, Never};
use scc_base::{CommRule, Layout, Rank};
use std::alloc::Global;
use std::test::Fail;

// Gives the next rank of a team a call that it makes `times` times.
fn join_next<V: Evict + Default + Drop>(
    alloc: Global,
    team: &mut Team<Member<V>>,
    more: More,
    len: u32,
    rank: Rank,
    nue: u8,
    times: u32,
) -> Result<(), Fail>
    requires few { nue ≤ 48 }
    requires short { len ≤ 1024 }
{
    team.join(member_of(alloc, more, len, rank, nue, times)?)
}

/// The `nue` ranks of a chip, each of which makes a call `times` times.
pub(crate) fn met<V: Evict + Default + Drop>(
    alloc: Global,
    layout: Layout,
    nue: u8,
    more: More,
    len: u32,
    times: u32,
) -> Result<Team<Member<V>>, Fail>
    requires few { nue ≤ 48 }
    requires short { len ≤ 1024 }
{
    let mut team = Team::new(alloc, opened(alloc, nue, layout, CommRule::Absent)?);
    for rank in 0..nue {
        join_next(alloc, &mut team, more, len, Rank::of(rank), nue, times)?;
    }
    Ok(team)
}

/// How many calls of a rank have got the right bytes.
pub(crate) fn right_at<V: Evict + Drop>(team: &Team<Member<V>>, at: usize) -> u32 {
    match team.player(at) {
        Some(member) => member.right,
        None => 0,
    }
}

// Whether these ranks have made two calls, each with the right bytes.
fn are_right<V: Evict + Drop>(team: &Team<Member<V>>, order: &[usize]) -> bool {
    for at in order {
        if right_at(team, *at) != 2 {
            return false;
        }
    }
    true
}

// Whether a call that is made twice ends at all ranks by turns in this order, and each rank has got its pieces.
fn end_right<V: Evict + Default + Drop>(
    alloc: Global,
    layout: Layout,
    order: &[usize],
    more: More,
    len: u32,
) -> Result<bool, Fail> {
    let nue = order.len();
    if nue > 48 || len > 1_024 {
        return Ok(false);
    }
    let mut team = met::<V>(alloc, layout, nue as u8, more, len, 2)?;
    Ok(team.rounds(order, 2_000) > 0 && are_right(&team, order))
}

// Whether the pieces of this length arrive in this layout, if no line is evicted and if one is at each fill.
fn come(
    alloc: Global,
    layout: Layout,
    order: &[usize],
    more: More,
    len: u32,
) -> Result<bool, Fail> {
    let kept = end_right::<Never>(alloc, layout, order, more, len)?;
    Ok(end_right::<Always>(alloc, layout, order, more, len)? && kept)
}

// Whether the pieces of each call arrive in both layouts.
fn all_come(alloc: Global, order: &[usize], len: u32) -> Result<bool, Fail> {
    let mut right = true;
    for more in KINDS {
        right = come(alloc, Layout::LineFlags, order, *more, len)? && right;
        right = come(alloc, Layout::BitFlags, order, *more, len)? && right;
    }
    Ok(right)
}

const ORDERS: &[&[usize]] = &[&[0, 1], &[0, 1, 2], &[2, 0, 1]];

#[test]
fn the_pieces_come_to_two_and_three_ranks(rt: HostRuntime) -> Result<(), Fail> {
    for order in ORDERS {
        for len in &[0, 1, 33] {
            assert!(rt; all_come(rt.alloc(), order, *len)?);
        }
    }
    Ok(())
}
