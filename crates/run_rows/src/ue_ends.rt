//! The results of scripts over a chip with one seat.

use crate::scripts::End::{Finished, Mismatch, Waits};
use crate::scripts::{FOUR_BYTES, LAYOUTS};
use crate::ues::{Row, comes_to};
use line_cache::{Always, Never};
use scc_base::Layout;
use std::alloc::Global;
use std::process::Abort;
use std::test::Fail;

// Whether a script has the wanted results in both orders of the ranks, with an evictor that drops nothing and one that drops all.
fn comes_to_it(alloc: Global, row: &Row<'_>, layout: Layout) -> Result<bool, Fail> {
    let mut right = true;
    for backwards in &[false, true] {
        right = comes_to::<Never>(alloc, row, layout, *backwards)? && right;
        right = comes_to::<Always>(alloc, row, layout, *backwards)? && right;
    }
    Ok(right)
}

// The same of each script, in both layouts.
fn always_come_to<R: Abort>(rt: &R, alloc: Global, rows: &[Row<'_>]) -> Result<(), Fail> {
    for row in rows {
        for layout in LAYOUTS {
            assert!(rt; comes_to_it(alloc, row, *layout)?);
        }
    }
    Ok(())
}

// The bound of a rank, counted by hand. Each statement and each step of a collective call takes one turn, as often as it runs. Each message
// of one line takes 10 more, and a barrier two for each member and one more.

const RING_OF_POSTS: &[u8] = b"all\nrank r int\npost +1 r\nrecv -1 y 4\nprint y\n";

const HALO: &[u8] =
    b"all\nrank mine int\neven\nrepeat 3\nsend +1 mine\nrecv -1 left 4\nend\nodd\nrepeat 3\nrecv -1 left 4\nsend +1 mine\nend\nall\nprint left\n";

const MESSAGES: &[Row<'static>] = &[
    (
        FOUR_BYTES,
        &[
            (Finished, &[], 12, (1, 4)),
            (Finished, &[&[1, 2, 3, 4]], 12, (0, 0)),
        ],
    ),
    (
        RING_OF_POSTS,
        &[
            (Finished, &[&[2, 0, 0, 0]], 24, (1, 4)),
            (Finished, &[&[0, 0, 0, 0]], 24, (1, 4)),
            (Finished, &[&[1, 0, 0, 0]], 24, (1, 4)),
        ],
    ),
    (
        HALO,
        &[
            (Finished, &[&[3, 0, 0, 0]], 72, (3, 12)),
            (Finished, &[&[0, 0, 0, 0]], 72, (3, 12)),
            (Finished, &[&[1, 0, 0, 0]], 72, (3, 12)),
            (Finished, &[&[2, 0, 0, 0]], 72, (3, 12)),
        ],
    ),
];

#[test]
fn messages_come_over_the_chip(rt: HostRuntime) -> Result<(), Fail> {
    always_come_to(&rt, rt.alloc(), MESSAGES)
}

// A broadcast from place 0, a reduction to it, and a reduction to all.
const COLLECTIVES: &[u8] =
    b"all\nrank mine int\nints sum 0\nints most 0\nue 0\nbytes word 0708\nall\nbcast 0 0 word 2\nreduce 0 0 sum int sum mine\nallreduce 0 max int most mine\nprint word\nprint sum\nprint most\n";

// The groups of communicator 2 are 0 and 2, 4 alone, and 1 and 3.
const SPLIT_AGAIN: &[u8] =
    b"rcce 2\nall\nsplit 1 mod 2\nsplit 2 of 1 div 2\nbarrier 2\nrank mine int\nints sum 0\nallreduce 2 sum int sum mine\nprint sum\n";

const GROUPS: &[Row<'static>] = &[
    (
        COLLECTIVES,
        &[(
            Finished,
            &[&[7, 8], &[0, 0, 0, 0], &[0, 0, 0, 0]],
            14,
            (0, 0),
        )],
    ),
    (
        COLLECTIVES,
        &[
            (
                Finished,
                &[&[7, 8], &[1, 0, 0, 0], &[1, 0, 0, 0]],
                60,
                (2, 6),
            ),
            (
                Finished,
                &[&[7, 8], &[0, 0, 0, 0], &[1, 0, 0, 0]],
                55,
                (2, 8),
            ),
        ],
    ),
    (
        COLLECTIVES,
        &[
            (
                Finished,
                &[&[7, 8], &[3, 0, 0, 0], &[2, 0, 0, 0]],
                106,
                (4, 12),
            ),
            (
                Finished,
                &[&[7, 8], &[0, 0, 0, 0], &[2, 0, 0, 0]],
                55,
                (2, 8),
            ),
            (
                Finished,
                &[&[7, 8], &[0, 0, 0, 0], &[2, 0, 0, 0]],
                55,
                (2, 8),
            ),
        ],
    ),
    (
        SPLIT_AGAIN,
        &[
            (Finished, &[&[2, 0, 0, 0]], 55, (1, 4)),
            (Finished, &[&[4, 0, 0, 0]], 53, (1, 4)),
            (Finished, &[&[2, 0, 0, 0]], 53, (1, 4)),
            (Finished, &[&[4, 0, 0, 0]], 51, (1, 4)),
            (Finished, &[&[4, 0, 0, 0]], 30, (0, 0)),
        ],
    ),
];

#[test]
fn groups_fold_their_values(rt: HostRuntime) -> Result<(), Fail> {
    always_come_to(&rt, rt.alloc(), GROUPS)
}

const ANOTHER_HEAD: &[u8] = b"ue 0\nbytes x 01020304\nsend 1 x\nue 1\nrecv 0 y 3\nprint y\n";

const ONLY_PRINTS: &[u8] = b"all\nbytes x ff\nrepeat 2\nprint x\nend\n";

const OWN_POST: &[u8] = b"ue 0\nbytes x 01\npost 1 x\nprint x\nue 1\nbytes y 02\n";

const RESTS: &[Row<'static>] = &[
    (
        ANOTHER_HEAD,
        &[(Waits(3), &[], 12, (0, 0)), (Mismatch(5), &[], 12, (0, 0))],
    ),
    (
        ONLY_PRINTS,
        &[
            (Finished, &[&[255], &[255]], 6, (0, 0)),
            (Finished, &[&[255], &[255]], 6, (0, 0)),
        ],
    ),
    (
        OWN_POST,
        &[(Waits(3), &[&[1]], 13, (1, 1)), (Finished, &[], 1, (0, 0))],
    ),
];

#[test]
fn ranks_stop_wait_and_only_print(rt: HostRuntime) -> Result<(), Fail> {
    always_come_to(&rt, rt.alloc(), RESTS)
}

const TWO_POSTS: &[u8] =
    b"ue 0\nbytes x 01020304\nsend 1 x\npost 1 x\npost 1 x\nue 1\nrecv 0 y 4\n";

// The first post is in flight, and counted, and the second waits for its slot.
const COUNTED: &[Row<'static>] = &[(
    TWO_POSTS,
    &[(Waits(5), &[], 34, (2, 8)), (Finished, &[], 11, (0, 0))],
)];

#[test]
fn a_message_in_flight_is_counted_once(rt: HostRuntime) -> Result<(), Fail> {
    always_come_to(&rt, rt.alloc(), COUNTED)
}
