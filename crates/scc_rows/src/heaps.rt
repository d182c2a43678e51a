//! The heap's lines: the calls succeed, and the texts of the faults.

use crate::fixtures::has_text;
use mpb_alloc::{Heap, MallocFault};
use scc_base::Buf;
use std::test::Fail;

// Whether `bytes` bytes are given as these lines.
fn gives(heap: &mut Heap, bytes: usize, first: u8, lines: u8) -> bool {
    match heap.malloc(bytes) {
        Ok(buffer) => buffer.first() == first && buffer.lines() == lines,
        Err(_) => false,
    }
}

fn is_full(heap: &mut Heap, bytes: usize, asked: usize, longest: usize) -> bool {
    heap.malloc(bytes) == Err(MallocFault::Full { asked, longest })
}

fn give_back(heap: &mut Heap, buffer: Buf) -> bool {
    let is_out = heap.is_out(buffer);
    if is_out {
        heap.free(buffer);
    }
    is_out
}

#[test]
fn a_whole_heap_goes_out_and_comes_back(rt: HostRuntime) {
    let mut heap = Heap::new();
    assert!(rt; heap.fits(992) && !heap.fits(993) && !heap.fits(0));
    let whole = heap.malloc(992).expect(&rt, "31 lines");
    assert!(rt; whole.first() == 225 && whole.lines() == 31 && is_full(&mut heap, 1, 1, 0));
    assert!(rt; give_back(&mut heap, whole) && gives(&mut heap, 33, 225, 2));
    assert!(rt; heap.malloc(0) == Err(MallocFault::Empty));
}

#[test]
fn the_lowest_run_that_fits_is_taken_and_neighbours_join(rt: HostRuntime) {
    let mut heap = Heap::new();
    let first = heap.malloc(64).expect(&rt, "2 lines");
    let second = heap.malloc(96).expect(&rt, "3 lines");
    let third = heap.malloc(32).expect(&rt, "a line");
    let given = give_back(&mut heap, first) && give_back(&mut heap, third);
    assert!(rt; given && !give_back(&mut heap, third));
    assert!(rt; gives(&mut heap, 96, 230, 3) && is_full(&mut heap, 768, 24, 23));
    assert!(rt; give_back(&mut heap, second) && gives(&mut heap, 160, 225, 5));
}

const TEXTS: &[(MallocFault, &str)] = &[
    (MallocFault::Empty, "nothing asked"),
    (
        MallocFault::Full {
            asked: 4,
            longest: 3,
        },
        "asked 4 lines, longest run 3",
    ),
];

#[test]
fn the_texts_of_the_faults(rt: HostRuntime) -> Result<(), Fail> {
    for (fault, text) in TEXTS {
        has_text(rt.alloc(), fault, text)?;
    }
    Ok(())
}
