//! A tap, which keeps the calls of a log: there is memory for one of each rank.

use call_tap::Tap;
use scc_base::{CommRule, CoreId, Layout, Rank, Setup};
use std::alloc::Global;

/// Whether a tap on a rank has memory, and no call yet.
fn has_memory(alloc: Global, setup: Setup, rank: Rank) -> bool {
    if rank.number() >= setup.nue() {
        return false;
    }
    match Tap::new(alloc, setup, rank) {
        Ok(tap) => tap.kept.calls.is_empty(),
        Err(_) => false,
    }
}

/// A setup of all ranks.
fn full_setup() -> Option<Setup> {
    let mut cores = [CoreId::of(0); 48];
    for number in 0..48 {
        cores[number] = CoreId::of(number as u8);
    }
    let mut comms = [CommRule::Absent; 16];
    comms[0] = CommRule::World;
    Setup::new(48, Layout::lines(), cores, comms)
}

/// Whether a tap on each of 48 ranks has.
fn have_memory(alloc: Global) -> bool {
    let Some(setup) = full_setup() else {
        return false;
    };
    for number in 0..48 {
        if !has_memory(alloc, setup.copy(), Rank::of(number)) {
            return false;
        }
    }
    true
}

#[test]
fn a_tap_has_memory(rt: HostRuntime) {
    assert!(rt; have_memory(rt.alloc()));
}
