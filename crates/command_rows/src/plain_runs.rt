//! The plain run of small scripts by itself: how each rank ends, and what it has printed. That memory is there.

use crate::cases::FOUR_BYTES;
use scc_base::{Call, Head, Rank};
use script_machine::UeEnd;
use script_plain::{End, plain_run};
use script_reader::read_script;
use script_rules::Scripts;
use std::alloc::Global;

/// How a rank ends, and the items that it has printed.
type Wanted<'a> = (UeEnd, &'a [&'a [u8]]);

/// Whether a rank has printed these items.
fn has_printed(end: &End, rank: Rank, wanted: &[&[u8]]) -> bool {
    if rank.number() as usize >= end.nue() || end.items(rank) != wanted.len() {
        return false;
    }
    for i in 0..wanted.len() {
        if end.item(rank, i).bytes() != wanted[i] {
            return false;
        }
    }
    true
}

/// Whether a rank has the wanted end and items.
fn is_at(end: &End, number: usize, wanted: &Wanted<'_>) -> bool {
    if number >= 48 || number >= end.nue() {
        return false;
    }
    let rank = Rank::of(number as u8);
    let (ue, items) = wanted;
    end.ue(rank) == *ue && has_printed(end, rank, items)
}

/// Whether all ranks have.
fn are_at(end: &End, wanted: &[Wanted<'_>]) -> bool {
    for at in 0..wanted.len() {
        if !is_at(end, at, &wanted[at]) {
            return false;
        }
    }
    end.nue() == wanted.len()
}

fn script_comes_to(alloc: Global, scripts: &Scripts, wanted: &[Wanted<'_>]) -> bool {
    match plain_run(alloc, scripts) {
        Ok(end) => are_at(&end, wanted),
        Err(_) => false,
    }
}

/// Whether the plain run of a script for two ranks has the wanted results.
fn comes_to(alloc: Global, text: &[u8], wanted: &[Wanted<'_>]) -> bool {
    match read_script(alloc, text, 2) {
        Ok(scripts) => script_comes_to(alloc, &scripts, wanted),
        Err(_) => false,
    }
}

/// Whether the plain run of a script for two ranks ends them so, with nothing printed.
fn ends_silently(alloc: Global, text: &[u8], wanted: &[UeEnd]) -> bool {
    let Ok(scripts) = read_script(alloc, text, 2) else {
        return false;
    };
    let Ok(end) = plain_run(alloc, &scripts) else {
        return false;
    };
    for at in 0..wanted.len() {
        if at >= 48 || at >= end.nue() {
            return false;
        }
        let rank = Rank::of(at as u8);
        if end.ue(rank) != wanted[at] || end.items(rank) != 0 {
            return false;
        }
    }
    end.nue() == wanted.len()
}

#[test]
fn four_bytes_arrive_in_the_plain_run(rt: HostRuntime) {
    let wanted: [Wanted<'_>; 2] = [(UeEnd::Finished, &[]), (UeEnd::Finished, &[&[1, 2, 3, 4]])];
    assert!(rt; comes_to(rt.alloc(), FOUR_BYTES, &wanted));
}

const OF_ANOTHER_LENGTH: &[u8] =
    b"ue 0\nbytes x 0001020304050607\nsend 1 x\nue 1\nrecv 0 y 4\nprint y\n";

/// Whether the message is rejected, with both lengths.
fn is_refused(alloc: Global) -> bool {
    let (from, to) = (Rank::of(0), Rank::of(1));
    let Some(sent) = Head::plain(8) else {
        return false;
    };
    let Some(asked) = Head::plain(4) else {
        return false;
    };
    let call = Call::Send { to, head: sent };
    let refused = UeEnd::Mismatch {
        line: 5,
        from,
        sent,
        asked,
    };
    let wanted = [UeEnd::Waits { line: 3, call }, refused];
    ends_silently(alloc, OF_ANOTHER_LENGTH, &wanted)
}

#[test]
fn another_length_is_a_mismatch_in_the_plain_run(rt: HostRuntime) {
    assert!(rt; is_refused(rt.alloc()));
}
