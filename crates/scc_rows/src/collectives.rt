//! Collective calls as steps, and folds: values from the tables and the worked runs.

use crate::fixtures::has_text;
use groups::{Coll, Op, Shape, Step, Ty, fold_into, step, steps};
use scc_base::{CommRule, Head, Kind, Layout, Rank, Setup, own_cores};
use std::test::Fail;

// Five ranks, on the cores of the same numbers. Communicator 1 has the even and the odd ranks, communicator 2 splits the groups of 1 into
// twos, and communicator 15 has each rank alone.
fn five_ranks() -> Option<Setup> {
    let mut comms = [CommRule::Absent; 16];
    comms[0] = CommRule::World;
    comms[1] = CommRule::Mod { parent: 0, k: 2 };
    comms[2] = CommRule::Div { parent: 1, k: 2 };
    comms[15] = CommRule::Div { parent: 0, k: 1 };
    Setup::new(5, Layout::lines(), own_cores(), comms)
}

// Whether a rank's call has `count` steps.
fn has_count(setup: &Setup, rank: u8, coll: Coll, count: u32) -> bool {
    match Rank::new(rank) {
        Some(me) if coll.is_callable(setup, me) => steps(setup, me, coll) == count,
        _ => false,
    }
}

const COUNTS_AT_ROOTS_AND_OTHERS: &[(u8, u8, u8, u32, u32)] = &[
    (0, 3, 3, 4, 10),
    (0, 3, 4, 2, 1),
    (1, 1, 3, 1, 4),
    (1, 1, 1, 2, 1),
    (15, 0, 2, 0, 2),
];

const COUNTS_WHERE_ALL_GET_IT: &[(u8, u8, u32)] = &[
    (0, 0, 14),
    (0, 1, 3),
    (1, 1, 5),
    (1, 3, 3),
    (15, 4, 2),
];

#[test]
fn roots_and_others_have_so_many_steps(rt: HostRuntime) {
    let setup = five_ranks().expect(&rt, "a setup");
    let len = 8;
    for &(comm, root, rank, bcast, reduce) in COUNTS_AT_ROOTS_AND_OTHERS {
        let sent = has_count(&setup, rank, Coll::Bcast { comm, root, len }, bcast);
        assert!(rt; sent && has_count(&setup, rank, Coll::Reduce { comm, root, len }, reduce));
    }
    for &(comm, rank, count) in COUNTS_WHERE_ALL_GET_IT {
        assert!(rt; has_count(&setup, rank, Coll::Allreduce { comm, len }, count));
    }
}

// A step as a table states it: with the other rank's number, and the kind, the communicator and the length of the head.
enum Told {
    Begin,
    Send(u8, Kind, u8, u32),
    Recv(u8, Kind, u8, u32),
    Fold,
    Accept,
    Finish,
}

fn step_of(told: &Told) -> Option<Step> {
    let step = match told {
        Told::Begin => Step::Begin,
        Told::Send(to, kind, comm, len) => Step::Send {
            to: Rank::new(*to)?,
            head: Head::new(*kind, *comm, *len)?,
        },
        Told::Recv(from, kind, comm, len) => Step::Recv {
            from: Rank::new(*from)?,
            head: Head::new(*kind, *comm, *len)?,
        },
        Told::Fold => Step::Fold,
        Told::Accept => Step::Accept,
        Told::Finish => Step::Finish,
    };
    Some(step)
}

// Whether a rank's call has these steps and no more.
fn has_steps(setup: &Setup, rank: u8, coll: Coll, wanted: &[Told]) -> bool {
    let me = match Rank::new(rank) {
        Some(me) if coll.is_callable(setup, me) => me,
        _ => return false,
    };
    let mut k = 0;
    for want in wanted {
        if k >= steps(setup, me, coll) || step_of(want) != Some(step(setup, me, coll, k)) {
            return false;
        }
        k += 1;
    }
    k == steps(setup, me, coll)
}

fn have_steps(setup: &Setup, ranks: &[u8], coll: Coll, wanted: &[Told]) -> bool {
    for &rank in ranks {
        if !has_steps(setup, rank, coll, wanted) {
            return false;
        }
    }
    true
}

const BCAST_AT_ROOT: &[Told] = &[
    Told::Send(0, Kind::Bcast, 0, 8),
    Told::Send(1, Kind::Bcast, 0, 8),
    Told::Send(3, Kind::Bcast, 0, 8),
    Told::Send(4, Kind::Bcast, 0, 8),
];

const BCAST_AT_OTHERS: &[Told] = &[Told::Recv(2, Kind::Bcast, 0, 8), Told::Accept];

#[test]
fn a_bcast_goes_to_the_others_in_order(rt: HostRuntime) {
    let setup = five_ranks().expect(&rt, "a setup");
    let coll = Coll::Bcast {
        comm: 0,
        root: 2,
        len: 8,
    };
    assert!(rt; has_steps(&setup, 2, coll, BCAST_AT_ROOT));
    assert!(rt; have_steps(&setup, &[0, 1, 3, 4], coll, BCAST_AT_OTHERS));
}

const REDUCE_AT_ROOT: &[Told] = &[
    Told::Begin,
    Told::Recv(0, Kind::Reduce, 0, 65_536),
    Told::Fold,
    Told::Recv(2, Kind::Reduce, 0, 65_536),
    Told::Fold,
    Told::Recv(3, Kind::Reduce, 0, 65_536),
    Told::Fold,
    Told::Recv(4, Kind::Reduce, 0, 65_536),
    Told::Fold,
    Told::Finish,
];

const REDUCE_AT_OTHERS: &[Told] = &[Told::Send(1, Kind::Reduce, 0, 65_536)];

#[test]
fn a_reduce_folds_the_others_in_order(rt: HostRuntime) {
    let setup = five_ranks().expect(&rt, "a setup");
    let coll = Coll::Reduce {
        comm: 0,
        root: 1,
        len: 65_536,
    };
    assert!(rt; has_steps(&setup, 1, coll, REDUCE_AT_ROOT));
    assert!(rt; have_steps(&setup, &[0, 2, 3, 4], coll, REDUCE_AT_OTHERS));
}

const BCAST_AMONG_EVEN: &[Told] = &[
    Told::Send(0, Kind::Bcast, 1, 0),
    Told::Send(4, Kind::Bcast, 1, 0),
];

const BCAST_AMONG_ODD: &[Told] = &[Told::Send(1, Kind::Bcast, 1, 0)];

#[test]
fn a_root_is_counted_inside_its_group(rt: HostRuntime) {
    let setup = five_ranks().expect(&rt, "a setup");
    let (comm, len) = (1, 0);
    let coll = Coll::Bcast { comm, root: 1, len };
    assert!(rt; has_steps(&setup, 2, coll, BCAST_AMONG_EVEN));
    assert!(rt; has_steps(&setup, 3, coll, BCAST_AMONG_ODD));
    let third = Coll::Bcast { comm, root: 2, len };
    assert!(rt; third.is_callable(&setup, Rank::of(2)));
    assert!(rt; !third.is_callable(&setup, Rank::of(3)));
}

const ALL_AT_FIRST: &[Told] = &[
    Told::Begin,
    Told::Recv(2, Kind::AllUp, 2, 4),
    Told::Fold,
    Told::Send(2, Kind::AllDown, 2, 4),
    Told::Finish,
];

const ALL_AT_SECOND: &[Told] = &[
    Told::Send(0, Kind::AllUp, 2, 4),
    Told::Recv(0, Kind::AllDown, 2, 4),
    Told::Accept,
];

const ALL_ALONE: &[Told] = &[Told::Begin, Told::Finish];

#[test]
fn nested_groups_reduce_to_all_of_their_own(rt: HostRuntime) {
    let setup = five_ranks().expect(&rt, "a setup");
    let coll = Coll::Allreduce { comm: 2, len: 4 };
    assert!(rt; has_steps(&setup, 0, coll, ALL_AT_FIRST));
    assert!(rt; has_steps(&setup, 2, coll, ALL_AT_SECOND));
    assert!(rt; has_steps(&setup, 4, coll, ALL_ALONE));
}

const REDUCES: &[(u8, u8, u32, u8, bool)] = &[
    (0, 4, 65_536, 0, true),
    (0, 5, 4, 0, false),
    (0, 0, 65_537, 0, false),
    (3, 0, 4, 0, false),
    (16, 0, 4, 0, false),
    (0, 0, 4, 5, false),
];

#[test]
fn calls_need_what_they_name(rt: HostRuntime) {
    let setup = five_ranks().expect(&rt, "a setup");
    for &(comm, root, len, rank, callable) in REDUCES {
        let me = Rank::new(rank).expect(&rt, "a rank");
        let reduce = Coll::Reduce { comm, root, len };
        assert!(rt; reduce.is_callable(&setup, me) == callable);
    }
}

// The bytes of two int values, and of one long value.
const TOP_AND_ONE: [u8; 8] = [255, 255, 255, 127, 1, 0, 0, 0];

const ONE_AND_MINUS_ONE: [u8; 8] = [1, 0, 0, 0, 255, 255, 255, 255];

const FOLDS: &[(Op, Ty, [u8; 8], [u8; 8], [u8; 8])] = &[
    (
        Op::Sum,
        Ty::Int,
        TOP_AND_ONE,
        ONE_AND_MINUS_ONE,
        [0, 0, 0, 128, 0, 0, 0, 0],
    ),
    (
        Op::Sum,
        Ty::Long,
        TOP_AND_ONE,
        ONE_AND_MINUS_ONE,
        [0, 0, 0, 128, 0, 0, 0, 0],
    ),
    (
        Op::Min,
        Ty::Int,
        TOP_AND_ONE,
        ONE_AND_MINUS_ONE,
        [1, 0, 0, 0, 255, 255, 255, 255],
    ),
    (
        Op::Max,
        Ty::Int,
        TOP_AND_ONE,
        ONE_AND_MINUS_ONE,
        TOP_AND_ONE,
    ),
    (
        Op::Min,
        Ty::Long,
        ONE_AND_MINUS_ONE,
        TOP_AND_ONE,
        ONE_AND_MINUS_ONE,
    ),
    (
        Op::Max,
        Ty::Long,
        ONE_AND_MINUS_ONE,
        TOP_AND_ONE,
        TOP_AND_ONE,
    ),
    // 65,536 times 65,536, and 3 times -2
    (
        Op::Prod,
        Ty::Int,
        [0, 0, 1, 0, 3, 0, 0, 0],
        [0, 0, 1, 0, 254, 255, 255, 255],
        [0, 0, 0, 0, 250, 255, 255, 255],
    ),
    // 2 to the 62 and 1, times 4
    (
        Op::Prod,
        Ty::Long,
        [1, 0, 0, 0, 0, 0, 0, 64],
        [4, 0, 0, 0, 0, 0, 0, 0],
        [4, 0, 0, 0, 0, 0, 0, 0],
    ),
    // 4,294,967,295 and 1
    (
        Op::Sum,
        Ty::Long,
        [255, 255, 255, 255, 0, 0, 0, 0],
        [1, 0, 0, 0, 0, 0, 0, 0],
        [0, 0, 0, 0, 1, 0, 0, 0],
    ),
    (
        Op::Sum,
        Ty::Int,
        [255, 255, 255, 255, 0, 0, 0, 0],
        [1, 0, 0, 0, 0, 0, 0, 0],
        [0, 0, 0, 0, 0, 0, 0, 0],
    ),
];

// Whether the second bytes, folded into the first, give the third.
fn folds_to(op: Op, ty: Ty, mut acc: [u8; 8], more: &[u8; 8], wanted: &[u8; 8]) -> bool {
    fold_into(op, ty, &mut acc, more).is_ok() && acc == *wanted
}

#[test]
fn values_fold_one_by_one(rt: HostRuntime) {
    for (op, ty, acc, more, wanted) in FOLDS {
        assert!(rt; folds_to(*op, *ty, *acc, more, wanted));
    }
}

const LENGTHS: &[(Ty, usize, usize, bool)] = &[
    (Ty::Int, 0, 0, true),
    (Ty::Int, 4, 4, true),
    (Ty::Long, 16, 16, true),
    (Ty::Int, 4, 8, false),
    (Ty::Int, 8, 4, false),
    (Ty::Int, 6, 6, false),
    (Ty::Long, 12, 12, false),
    (Ty::Long, 8, 0, false),
];

// Whether bytes of these lengths are folded if they fit, and are otherwise rejected with both lengths and not changed.
fn answers(ty: Ty, acc_len: usize, more_len: usize, fits: bool) -> bool {
    if acc_len > 16 || more_len > 16 {
        return false;
    }
    let mut acc = [1; 16];
    match fold_into(Op::Sum, ty, &mut acc[..acc_len], &[9; 16][..more_len]) {
        Ok(()) => fits,
        Err(shape) => !fits && shape.acc == acc_len && shape.more == more_len && acc == [1; 16],
    }
}

#[test]
fn lengths_that_do_not_fit_are_refused(rt: HostRuntime) {
    for &(ty, acc_len, more_len, fits) in LENGTHS {
        assert!(rt; answers(ty, acc_len, more_len, fits));
    }
}

#[test]
fn a_shape_has_a_text(rt: HostRuntime) -> Result<(), Fail> {
    let shape = Shape { acc: 4, more: 8 };
    has_text(rt.alloc(), &shape, "lengths 4 and 8 do not fit")
}
