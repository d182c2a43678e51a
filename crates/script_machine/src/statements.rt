//! The primitives that statements make for a rank.

ghost use Rattle.std.specs.Prelude.{◌≡◌, ◌<◌, ◌≤◌, ℕ, length, slice_get, IfSome};
ghost use Rattle.std.specs.Option.{option_map, option_to_list};
ghost use Rattle.groups.specs.Collectives.{IsCallable, steps_of};
ghost use Rattle.script_rules.specs.Script.{IsSized};
ghost use Rattle.script_machine.specs.Program.{acts_of, begins, call_steps, collective_of, parts_of, single_of};
ghost use Rattle.script_machine.specs.Walk.{IsShort, act_meant};

use crate::prims::{Action, Collective, Content, Operands, Source};
use crate::registers::plain_message;
use groups::{Coll, Op, Ty, step, steps};
use scc_base::{Rank, Setup};
use script_rules::{Stmt, parent_of};

/// The primitive of a statement that makes exactly one.
#[inline(always)]
fn single_of<'s>(nue: u8, rank: Rank, stmt: &'s Stmt) -> Option<Action<'s>>
    requires some { 1 ≤ nue }
    requires most { nue ≤ 48 }
    requires within { rank < nue }
    requires sized { IsSized stmt.now }
    ensures same { option_map act_meant result ≡ single_of nue rank stmt.now }
    ensures short { IfSome result IsShort }
{
    match stmt {
        Stmt::Bytes { reg, bytes } => Some(Action::Set {
            reg: *reg,
            content: Content::Bytes(bytes),
        }),
        Stmt::Fill { reg, len, start } => Some(Action::Set {
            reg: *reg,
            content: Content::Filling {
                len: *len,
                start: *start,
            },
        }),
        Stmt::RankOf { reg, ty } => Some(Action::Set {
            reg: *reg,
            content: Content::Number {
                ty: *ty,
                number: rank.number(),
            },
        }),
        Stmt::Own(own) => Some(Action::Own(*own)),
        Stmt::Send { peer, reg } => Some(Action::Send {
            to: peer.rank(nue, rank),
            head: plain_message(0),
            source: Source::Own { reg: *reg },
        }),
        Stmt::Post { peer, reg } => Some(Action::Post {
            to: peer.rank(nue, rank),
            reg: *reg,
        }),
        Stmt::Recv { peer, reg, len } => Some(Action::Recv {
            from: peer.rank(nue, rank),
            reg: *reg,
            head: plain_message(*len),
        }),
        Stmt::Barrier { comm } => Some(Action::Bar { comm: *comm }),
        Stmt::Split { rule, .. } => Some(Action::Bar {
            comm: parent_of(*rule),
        }),
        Stmt::Bcast { .. }
        | Stmt::Reduce { .. }
        | Stmt::Allreduce { .. }
        | Stmt::Repeat { .. }
        | Stmt::End { .. } => None,
    }
}

/// The collective call of a statement, if it is one.
#[inline(always)]
fn collective_of(stmt: &Stmt) -> Option<Collective>
    ensures { result ≡ collective_of stmt.now }
{
    match stmt {
        Stmt::Bcast {
            comm,
            root,
            reg,
            len,
        } => Some(Collective {
            coll: Coll::Bcast {
                comm: *comm,
                root: *root,
                len: *len,
            },
            operands: Operands {
                op: Op::Sum,
                ty: Ty::Int,
                dst: *reg,
                src: *reg,
                sized: None,
            },
        }),
        Stmt::Reduce {
            comm,
            root,
            op,
            ty,
            dst,
            src,
        } => Some(Collective {
            coll: Coll::Reduce {
                comm: *comm,
                root: *root,
                len: 0,
            },
            operands: Operands {
                op: *op,
                ty: *ty,
                dst: *dst,
                src: *src,
                sized: Some(*src),
            },
        }),
        Stmt::Allreduce {
            comm,
            op,
            ty,
            dst,
            src,
        } => Some(Collective {
            coll: Coll::Allreduce {
                comm: *comm,
                len: 0,
            },
            operands: Operands {
                op: *op,
                ty: *ty,
                dst: *dst,
                src: *src,
                sized: Some(*src),
            },
        }),
        Stmt::Bytes { .. }
        | Stmt::Fill { .. }
        | Stmt::RankOf { .. }
        | Stmt::Own(_)
        | Stmt::Send { .. }
        | Stmt::Post { .. }
        | Stmt::Recv { .. }
        | Stmt::Barrier { .. }
        | Stmt::Split { .. }
        | Stmt::Repeat { .. }
        | Stmt::End { .. } => None,
    }
}

/// Whether the steps of a collective call begin with the source in the accumulator: those of the root of a reduction.
fn begins(setup: &Setup, rank: Rank, coll: Coll) -> bool
    requires { IsCallable setup.now rank coll }
    ensures { result ≡ begins (steps_of setup.now rank coll) }
{
    match coll {
        Coll::Bcast { .. } => false,
        Coll::Reduce { comm, root, .. } => setup.place(comm, rank) == root,
        Coll::Allreduce { comm, .. } => setup.place(comm, rank) == 0,
    }
}

/// How many steps a collective call has.
fn count_steps(setup: &Setup, rank: Rank, coll: Coll) -> u32
    ensures { result ≡ length (call_steps setup.now rank coll) }
{
    if coll.is_callable(setup, rank) {
        steps(setup, rank, coll)
    } else {
        0
    }
}

/// What a step of a collective call does.
fn take_part<'s>(setup: &Setup, rank: Rank, call: Collective, k: u32) -> Action<'s>
    requires { k < length (call_steps setup.now rank call.coll) }
    ensures same { slice_get (parts_of call.operands (call_steps setup.now rank call.coll)) k ≡ Some (act_meant result) }
    ensures short { IsShort result }
{
    let begun = begins(setup, rank, call.coll);
    call.operands.part(begun, step(setup, rank, call.coll, k))
}

/// How many primitives a statement makes, if it is no collective call.
#[inline(always)]
fn count_single(stmt: &Stmt) -> u32
    ensures { (nue rank : ℕ) → result ≡ length (option_to_list (single_of nue rank stmt.now)) }
{
    match stmt {
        Stmt::Bytes { .. }
        | Stmt::Fill { .. }
        | Stmt::RankOf { .. }
        | Stmt::Own(_)
        | Stmt::Send { .. }
        | Stmt::Post { .. }
        | Stmt::Recv { .. }
        | Stmt::Barrier { .. }
        | Stmt::Split { .. } => 1,
        Stmt::Bcast { .. }
        | Stmt::Reduce { .. }
        | Stmt::Allreduce { .. }
        | Stmt::Repeat { .. }
        | Stmt::End { .. } => 0,
    }
}

/// How many primitives a statement makes for a rank.
#[inline(always)]
pub fn count(setup: &Setup, rank: Rank, stmt: &Stmt) -> u32
    requires within { rank < setup.now.nue }
    requires sized { IsSized stmt.now }
    ensures { result ≡ length (acts_of setup.now rank stmt.now) }
{
    match collective_of(stmt) {
        Some(call) => count_steps(setup, rank, call.coll),
        None => count_single(stmt),
    }
}

/// A primitive that a statement makes for a rank.
#[inline(always)]
pub fn action_of<'s>(setup: &Setup, rank: Rank, stmt: &'s Stmt, k: u32) -> Action<'s>
    requires within { rank < setup.now.nue }
    requires sized { IsSized stmt.now }
    requires there { k < length (acts_of setup.now rank stmt.now) }
    ensures same { slice_get (acts_of setup.now rank stmt.now) k ≡ Some (act_meant result) }
    ensures short { IsShort result }
{
    match collective_of(stmt) {
        Some(call) => take_part(setup, rank, call, k),
        None => match single_of(setup.nue(), rank, stmt) {
            Some(action) => action,
            None => unreachable!(),
        },
    }
}
