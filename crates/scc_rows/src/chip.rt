//! A chip with its ports.

ghost use Rattle.scc_rows.specs.Rests.{IsPortAtRest, IsWithout};

use crate::fixtures::{Meeting, acquire, free, give_back, shows, store, take};
use scc_base::{CoreId, Place, Rank};
use scc_ports::CountingPort;
use scc_proto::Port;
use std::test::Fail;

// The bits that are 1 in any word of the chip.
fn bits_of_all_words<P: Port>(port: &mut P) -> u64 {
    let mut found = 0;
    for core in 0..48 {
        for line in 0..=255 {
            for word in 0..4 {
                found |= port.load(Place::new(CoreId::of(core), line, word));
            }
        }
    }
    found
}

/// A rank loads every word.
struct AllLoads;

impl Meeting for AllLoads {
    fn holds<P: Port, Q: Port>(first: &mut CountingPort<P>, _second: &mut CountingPort<Q>) -> bool {
        bits_of_all_words(first) == 0 && first.loads() == 49_152
    }
}

#[test]
fn every_word_is_zero_after_open(rt: HostRuntime) -> Result<(), Fail> {
    shows::<AllLoads>(rt.alloc())
}

// Whether a word is 0 for a rank until another stores it, and the word beside it changes nothing.
fn sees_the_store<P: Port, Q: Port>(port: &mut P, other: &mut Q) -> bool
    requires rests { IsPortAtRest (P.sight port.old) }
    requires other_rests { IsPortAtRest (Q.sight other.old) }
{
    let place = Place::new(CoreId::of(1), 255, 3);
    let early = port.load(place);
    store(other, Rank::of(1), 255, 3, u64::MAX);
    let seen = port.load(place);
    store(other, Rank::of(1), 255, 2, 5);
    let late = port.load(place);
    let own = other.load(place);
    early == 0 && seen == u64::MAX && late == u64::MAX && own == u64::MAX
}

/// A rank stores words, and the other loads one of them.
struct StoreAndLoad;

impl Meeting for StoreAndLoad {
    fn holds<P: Port, Q: Port>(first: &mut CountingPort<P>, second: &mut CountingPort<Q>) -> bool {
        sees_the_store(first, second)
    }
}

#[test]
fn a_store_is_seen_by_another_ranks_load(rt: HostRuntime) -> Result<(), Fail> {
    shows::<StoreAndLoad>(rt.alloc())
}

// Whether a register is taken by only the first of two ranks, and by the other after it is freed.
fn takes_once<P: Port, Q: Port>(port: &mut P, other: &mut Q, core: CoreId) -> bool
    requires without { IsWithout (P.sight port.old) core }
    requires other_without { IsWithout (Q.sight other.old) core }
{
    let first = take(port, core);
    let second = take(other, core);
    if !first || second {
        return false;
    }
    free(port, core);
    let again = take(other, core);
    let late = take(port, core);
    again && !late
}

/// Two ranks take one register.
struct TwoTakes;

impl Meeting for TwoTakes {
    fn holds<P: Port, Q: Port>(first: &mut CountingPort<P>, second: &mut CountingPort<Q>) -> bool {
        takes_once(first, second, CoreId::of(47))
    }
}

#[test]
fn a_register_is_taken_once_until_it_is_freed(rt: HostRuntime) -> Result<(), Fail> {
    shows::<TwoTakes>(rt.alloc())
}

// Whether a rank that holds no register can take this one; it frees it at once.
fn passes<P: Port>(port: &mut P, core: CoreId) -> bool
    requires without { IsWithout (P.sight port.old) core }
    ensures without { IsWithout (P.sight port.new) core }
{
    match acquire(port, core) {
        Some(held) => {
            give_back(port, held);
            true
        }
        None => false,
    }
}

// Whether a register that a rank locked is the other's only after its release.
fn passes_after_release<P: Port, Q: Port>(port: &mut P, other: &mut Q, core: CoreId) -> bool
    requires without { IsWithout (P.sight port.old) core }
    requires other_without { IsWithout (Q.sight other.old) core }
{
    let Some(held) = acquire(port, core) else {
        return false;
    };
    let early = passes(other, core);
    let again = passes(other, core);
    give_back(port, held);
    let late = passes(other, core);
    let first = passes(port, core);
    !early && !again && late && first
}

/// Two ranks lock one register.
struct TwoLocks;

impl Meeting for TwoLocks {
    fn holds<P: Port, Q: Port>(first: &mut CountingPort<P>, second: &mut CountingPort<Q>) -> bool {
        passes_after_release(first, second, CoreId::of(3))
    }
}

#[test]
fn a_lock_is_another_ranks_only_after_its_release(rt: HostRuntime) -> Result<(), Fail> {
    shows::<TwoLocks>(rt.alloc())
}
