//! Whole runs of a collective call: each kind, over chips of several sizes.

ghost use Rattle.std.specs.Prelude.{◌≡◌, ◌≤◌, IfOk, length};
ghost use Rattle.coll_run.specs.Teams.{AreFreshMembers};

use crate::coll_pieces::{KINDS, is_right, src_of};
use chip_teams::opened;
use coll_more::More;
use coll_run::{Member, join, run};
use line_cache::{Always, Evict, Never};
use scc_base::{CommRule, Layout, Rank};
use std::alloc::{AllocError, Global};
use std::test::Fail;

/// The ranks of a run before their first turns.
fn team_of<V: Evict + Default + Drop>(
    alloc: Global,
    more: More,
    nue: u8,
    len: u32,
) -> Result<Vec<Member<V>>, AllocError>
    requires few { nue ≤ 48 }
    requires short { len ≤ 1024 }
    ensures each { IfOk result (λ team. length team.items ≡ nue) }
    ensures fresh { IfOk result (λ team. AreFreshMembers more len nue team.items) }
{
    let mut team = Vec::new(alloc);
    for number in 0..nue {
        let src = src_of(alloc, more, Rank::of(number), nue, len)?;
        join(alloc, &mut team, nue, V::default(), more, len, src)?;
    }
    Ok(team)
}

/// Whether all ranks have got the right bytes.
fn all_right<V: Evict + Drop>(team: &[Member<V>], more: More, nue: u8, len: u32) -> bool {
    for number in 0..nue {
        match team.get(number as usize) {
            Some(member) if is_right(member.dst(), more, number, nue, len) => {}
            _ => return false,
        }
    }
    true
}

/// Whether all ranks get their pieces in a run, of at most 1,024 bytes a piece.
fn ends_right<V: Evict + Default + Drop>(
    alloc: Global,
    layout: Layout,
    more: More,
    nue: u8,
    len: u32,
) -> Result<bool, Fail>
    requires few { nue ≤ 48 }
{
    if len > 1_024 {
        return Ok(false);
    }
    let mut chip = opened(alloc, nue, layout, CommRule::Absent)?;
    let mut team = team_of::<V>(alloc, more, nue, len)?;
    run(&mut chip, team.as_mut_slice());
    Ok(all_right(team.as_slice(), more, nue, len))
}

/// Whether a kind ends with the right bytes with either evictor.
fn kind_right(alloc: Global, layout: Layout, more: More, nue: u8, len: u32) -> Result<bool, Fail>
    requires few { nue ≤ 48 }
{
    let kept = ends_right::<Never>(alloc, layout, more, nue, len)?;
    Ok(ends_right::<Always>(alloc, layout, more, nue, len)? && kept)
}

/// Whether each kind ends with the right bytes in both layouts.
fn kinds_right(alloc: Global, nue: u8, len: u32) -> Result<bool, Fail>
    requires few { nue ≤ 48 }
{
    let mut right = true;
    for more in KINDS {
        right = kind_right(alloc, Layout::LineFlags, *more, nue, len)? && right;
        right = kind_right(alloc, Layout::BitFlags, *more, nue, len)? && right;
    }
    Ok(right)
}

/// Whether they do so with pieces of each length.
fn all_lengths_right(alloc: Global, nue: u8) -> Result<bool, Fail>
    requires few { nue ≤ 48 }
{
    let mut right = true;
    for len in &[0, 1, 32, 33, 1_024] {
        right = kinds_right(alloc, nue, *len)? && right;
    }
    Ok(right)
}

#[test]
fn each_kind_comes_to_its_end(rt: HostRuntime) -> Result<(), Fail> {
    for nue in 1..4u8 {
        assert!(rt; all_lengths_right(rt.alloc(), nue)?);
    }
    Ok(())
}

#[test]
fn each_kind_comes_to_its_end_on_all_cores(rt: HostRuntime) -> Result<(), Fail> {
    assert!(rt; all_lengths_right(rt.alloc(), 48)?);
    Ok(())
}
