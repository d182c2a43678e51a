//! The bytes of the pieces of a collective call. They show who sent them, for whom, and their place.

ghost use Rattle.std.specs.Prelude.{◌≡◌, ◌≤◌, IfOk, length};
ghost use Rattle.coll_more.specs.Tables.{src_len_of};

use coll_more::{More, src_len};
use scc_base::Rank;
use std::alloc::{AllocError, Global};

/// The four collective calls.
pub(crate) const KINDS: &[More] = &[More::Gather, More::Scatter, More::Allgather, More::Alltoall];

/// The byte of a piece at a place: by the rank that hands it in, and the rank for which it is.
fn mark(from: usize, to: usize, place: usize) -> u8 {
    ((from % 251 * 83 + to % 251 * 29 + place % 251) % 251) as u8
}

/// Byte i of what a rank hands in: pieces of this length, for the ranks from 0 on.
fn given(rank: usize, len: usize, i: usize) -> u8 {
    if len == 0 {
        0
    } else {
        mark(rank, i / len, i % len)
    }
}

/// Byte i of what a rank must get: pieces of the ranks from 0 on, for this one.
fn wanted(to: usize, len: usize, i: usize) -> u8 {
    if len == 0 {
        0
    } else {
        mark(i / len, to, i % len)
    }
}

/// The receiver that is written into a rank's pieces. Pieces that go to many name rank 0.
fn target(more: More, rank: u8) -> u8 {
    match more {
        More::Gather | More::Allgather => 0,
        More::Scatter | More::Alltoall => rank,
    }
}

/// How many pieces a rank hands in.
fn handed_in(more: More, rank: u8, nue: u8) -> u8 {
    match more {
        More::Gather | More::Allgather => 1,
        More::Scatter => if rank == 0 { nue } else { 0 },
        More::Alltoall => nue,
    }
}

/// How many pieces a rank must get.
fn handed_out(more: More, rank: u8, nue: u8) -> u8 {
    match more {
        More::Gather => if rank == 0 { nue } else { 0 },
        More::Scatter => 1,
        More::Allgather | More::Alltoall => nue,
    }
}

/// Fills what a rank hands in.
fn fill(bytes: &mut [u8], rank: usize, len: usize) {
    for i in 0..bytes.len() {
        bytes[i] = given(rank, len, i);
    }
}

/// What a rank hands in.
pub(crate) fn src_of(
    alloc: Global,
    more: More,
    rank: Rank,
    nue: u8,
    len: u32,
) -> Result<Vec<u8>, AllocError>
    requires few { nue ≤ 48 }
    requires short { len ≤ 1024 }
    ensures long { IfOk result (λ src. length src.items ≡ src_len_of more rank nue len) }
{
    let mut src = vec![in alloc; 0u8; src_len(more, rank, nue, len)]?;
    fill(src.as_mut_slice(), rank.number() as usize, len as usize);
    Ok(src)
}

/// Whether what a rank hands in has all its pieces.
pub(crate) fn is_whole(src: &[u8], more: More, rank: u8, nue: u8, len: u32) -> bool {
    src.len() == handed_in(more, rank, nue) as usize * len as usize
}

/// Whether these are the bytes that a rank must get.
pub(crate) fn is_right(bytes: &[u8], more: More, rank: u8, nue: u8, len: u32) -> bool {
    let to = target(more, rank) as usize;
    for i in 0..bytes.len() {
        if bytes[i] != wanted(to, len as usize, i) {
            return false;
        }
    }
    bytes.len() == handed_out(more, rank, nue) as usize * len as usize
}
