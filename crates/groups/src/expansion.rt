//! The steps of a collective call.

ghost use Rattle.std.specs.Prelude.{◌≡◌, ◌≢◌, ◌+◌, ◌*◌, ◌<◌, ◌≤◌, ℕ, List, length, slice_get};
ghost use Rattle.scc_base.specs.Setups.{members_of, size_of};
ghost use Rattle.scc_base.specs.Communicators.{rule_of};
ghost use Rattle.scc_base.specs.declared.communicators.CommRule.TheVariants.{Absent};
ghost use Rattle.scc_base.specs.declared.kinds.Kind.TheVariants.{Plain};
ghost use Rattle.groups.specs.declared.collectives.Coll.TheVariants.{Bcast, Reduce, Allreduce};
ghost use Rattle.groups.specs.Collectives.{IsCallable, comm_of, fold_each, head_of_kind, len_of, other_steps, others_of, root_place, root_steps, steps_of};
ghost use Rattle.scc_base.specs.Heads.{most_message};

use crate::collectives::{Coll, Step};
use scc_base::{Head, Kind, Rank, Setup};

// The head of a message of a collective call.
fn coll_head(kind: Kind, comm: u8, len: u32) -> Head
    requires collective { kind ≢ Plain }
    requires comm_below { comm < 16 }
    requires len_within { len ≤ most_message }
    ensures gives { result ≡ head_of_kind kind comm len }
{
    Head::new(kind, comm, len).unwrap()
}

// The member of a rank's group at a place.
fn member_at(setup: &Setup, comm: u8, r: Rank, i: u8) -> Rank
    requires comm_below { comm < 16 }
    requires rank_below { r < setup.now.nue }
    requires present { rule_of setup.now.comms comm ≢ Absent }
    requires found { i < size_of setup.now comm r }
    ensures gives { slice_get (members_of setup.now comm r) i ≡ Some result }
{
    setup.member(comm, r, i).unwrap()
}

// The k-th of a group's members without the one at a place.
fn other_at(setup: &Setup, comm: u8, r: Rank, place: u8, k: u32) -> Rank
    requires comm_below { comm < 16 }
    requires rank_below { r < setup.now.nue }
    requires present { rule_of setup.now.comms comm ≢ Absent }
    requires found { k + 1 < size_of setup.now comm r }
    requires narrow { k < 255 }
    ensures gives { slice_get (others_of setup.now comm r place) k ≡ Some result }
{
    let before = k < u32::from(place);
    let i = if before { k } else { k + 1 };
    member_at(setup, comm, r, i as u8)
}

// The k-th step of receiving from each of the others and folding.
fn fold_step(setup: &Setup, comm: u8, r: Rank, place: u8, head: Head, k: u32) -> Step
    requires comm_below { comm < 16 }
    requires rank_below { r < setup.now.nue }
    requires present { rule_of setup.now.comms comm ≢ Absent }
    requires found { k + 2 < 2 * size_of setup.now comm r }
    requires narrow { k < 510 }
    ensures gives { slice_get (fold_each head (others_of setup.now comm r place)) k ≡ Some result }
{
    let from = other_at(setup, comm, r, place, k / 2);
    if k % 2 == 0 {
        Step::Recv { from, head }
    } else {
        Step::Fold
    }
}

// The k-th step of the root of a broadcast.
fn bcast_step(setup: &Setup, r: Rank, comm: u8, root: u8, len: u32, k: u32) -> Step
    requires comm_below { comm < 16 }
    requires rank_below { r < setup.now.nue }
    requires present { rule_of setup.now.comms comm ≢ Absent }
    requires len_within { len ≤ most_message }
    requires root_below { root < size_of setup.now comm r }
    requires step_below { k < length (root_steps (Bcast comm root len) (others_of setup.now comm r root)) }
    ensures gives { slice_get (root_steps (Bcast comm root len) (others_of setup.now comm r root)) k ≡ Some result }
{
    let others = u32::from(setup.group_size(comm, r) - 1);
    let below = k < others;
    prove!(below);
    Step::Send {
        to: other_at(setup, comm, r, root, k),
        head: coll_head(Kind::Bcast, comm, len),
    }
}

// The k-th step of the root of a reduction.
fn reduce_step(setup: &Setup, r: Rank, comm: u8, root: u8, len: u32, k: u32) -> Step
    requires comm_below { comm < 16 }
    requires rank_below { r < setup.now.nue }
    requires present { rule_of setup.now.comms comm ≢ Absent }
    requires len_within { len ≤ most_message }
    requires root_below { root < size_of setup.now comm r }
    requires step_below { k < length (root_steps (Reduce comm root len) (others_of setup.now comm r root)) }
    ensures gives { slice_get (root_steps (Reduce comm root len) (others_of setup.now comm r root)) k ≡ Some result }
{
    let others = u32::from(setup.group_size(comm, r) - 1);
    if k == 0 {
        Step::Begin
    } else if k <= 2 * others {
        fold_step(
            setup,
            comm,
            r,
            root,
            coll_head(Kind::Reduce, comm, len),
            k - 1,
        )
    } else {
        Step::Finish
    }
}

// The k-th step of member 0 of a reduction to all.
fn allreduce_step(setup: &Setup, r: Rank, comm: u8, len: u32, k: u32) -> Step
    requires comm_below { comm < 16 }
    requires rank_below { r < setup.now.nue }
    requires present { rule_of setup.now.comms comm ≢ Absent }
    requires len_within { len ≤ most_message }
    requires root_below { 0 < size_of setup.now comm r }
    requires step_below { k < length (root_steps (Allreduce comm len) (others_of setup.now comm r 0)) }
    ensures gives { slice_get (root_steps (Allreduce comm len) (others_of setup.now comm r 0)) k ≡ Some result }
{
    let others = u32::from(setup.group_size(comm, r) - 1);
    if k == 0 {
        Step::Begin
    } else if k <= 2 * others {
        fold_step(setup, comm, r, 0, coll_head(Kind::AllUp, comm, len), k - 1)
    } else if k <= 3 * others {
        Step::Send {
            to: other_at(setup, comm, r, 0, k - 1 - 2 * others),
            head: coll_head(Kind::AllDown, comm, len),
        }
    } else {
        Step::Finish
    }
}

// The k-th step of the root.
fn root_step(setup: &Setup, r: Rank, c: Coll, k: u32) -> Step
    requires comm_below { comm_of c < 16 }
    requires rank_below { r < setup.now.nue }
    requires present { rule_of setup.now.comms (comm_of c) ≢ Absent }
    requires len_within { len_of c ≤ most_message }
    requires root_below { root_place c < size_of setup.now (comm_of c) r }
    requires step_below { k < length (root_steps c (others_of setup.now (comm_of c) r (root_place c))) }
    ensures gives { slice_get (root_steps c (others_of setup.now (comm_of c) r (root_place c))) k ≡ Some result }
{
    match c {
        Coll::Bcast { comm, root, len } => bcast_step(setup, r, comm, root, len, k),
        Coll::Reduce { comm, root, len } => reduce_step(setup, r, comm, root, len, k),
        Coll::Allreduce { comm, len } => allreduce_step(setup, r, comm, len, k),
    }
}

// The k-th step of a member that is not the root.
fn other_step(root: Rank, c: Coll, k: u32) -> Step
    requires comm_below { comm_of c < 16 }
    requires len_within { len_of c ≤ most_message }
    requires step_below { k < length (other_steps c root) }
    ensures gives { slice_get (other_steps c root) k ≡ Some result }
{
    match c {
        Coll::Bcast { comm, len, .. } => {
            if k == 0 {
                Step::Recv {
                    from: root,
                    head: coll_head(Kind::Bcast, comm, len),
                }
            } else {
                Step::Accept
            }
        }
        Coll::Reduce { comm, len, .. } => Step::Send {
            to: root,
            head: coll_head(Kind::Reduce, comm, len),
        },
        Coll::Allreduce { comm, len } => {
            if k == 0 {
                Step::Send {
                    to: root,
                    head: coll_head(Kind::AllUp, comm, len),
                }
            } else if k == 1 {
                Step::Recv {
                    from: root,
                    head: coll_head(Kind::AllDown, comm, len),
                }
            } else {
                Step::Accept
            }
        }
    }
}

// The number of steps of the root, by the number of the others.
fn root_count(c: Coll, others: u32) -> u32
    requires narrow { others < 256 }
    ensures gives { (list : List ℕ) → length list ≡ others → result ≡ length (root_steps c list) }
{
    match c {
        Coll::Bcast { .. } => others,
        Coll::Reduce { .. } => 2 * others + 2,
        Coll::Allreduce { .. } => 3 * others + 2,
    }
}

// The number of steps of a member that is not the root.
fn other_count(c: Coll) -> u32
    ensures gives { (root : ℕ) → result ≡ length (other_steps c root) }
{
    match c {
        Coll::Bcast { .. } => 2,
        Coll::Reduce { .. } => 1,
        Coll::Allreduce { .. } => 3,
    }
}

/// The number of steps of a rank's collective call.
pub fn steps(setup: &Setup, r: Rank, c: Coll) -> u32
    requires callable { IsCallable setup.now r c }
    ensures gives { result ≡ length (steps_of setup.now r c) }
{
    let place = setup.place(c.comm(), r);
    if place == c.root() {
        let others = setup.group_size(c.comm(), r) - 1;
        root_count(c, u32::from(others))
    } else {
        other_count(c)
    }
}

/// The k-th step of a rank's collective call, counted from 0.
pub fn step(setup: &Setup, r: Rank, c: Coll, k: u32) -> Step
    requires callable { IsCallable setup.now r c }
    requires step_below { k < length (steps_of setup.now r c) }
    ensures gives { slice_get (steps_of setup.now r c) k ≡ Some result }
{
    let place = setup.place(c.comm(), r);
    if place == c.root() {
        root_step(setup, r, c, k)
    } else {
        other_step(member_at(setup, c.comm(), r, c.root()), c, k)
    }
}
