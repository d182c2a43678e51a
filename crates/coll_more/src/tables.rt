//! The table of the messages that a collective call is made of.

ghost use Rattle.std.specs.Prelude.{◌≡◌, ◌≤◌, ◌<◌, ◌*◌, ◌%◌, ◌==◌, ℕ, if◌then◌else◌, [], ◌∷◌, length, slice_get};
ghost use Rattle.coll_more.specs.Tables.{alltoall_calls, piece_calls, dst_len_of, gather_calls, has_own, scatter_calls, spread_calls, src_len_of};

use crate::kinds::{More, PieceCall, Way};
use scc_base::Rank;

/// How many bytes a rank hands in.
pub fn src_len(more: More, rank: Rank, nue: u8, len: u32) -> usize
    requires few { nue ≤ 48 }
    requires short { len ≤ 1024 }
    ensures gives { result ≡ src_len_of more rank nue len }
{
    let all = nue as usize * len as usize;
    match more {
        More::Gather | More::Allgather => len as usize,
        More::Scatter => { if rank.number() == 0 { all } else { 0 } }
        More::Alltoall => all,
    }
}

/// How many bytes a rank gets.
pub fn dst_len(more: More, rank: Rank, nue: u8, len: u32) -> usize
    requires few { nue ≤ 48 }
    requires short { len ≤ 1024 }
    ensures gives { result ≡ dst_len_of more rank nue len }
{
    let all = nue as usize * len as usize;
    match more {
        More::Gather => { if rank.number() == 0 { all } else { 0 } }
        More::Scatter => len as usize,
        More::Allgather | More::Alltoall => all,
    }
}

/// Whether a rank copies a piece of its own.
pub(crate) fn copies_own(more: More, rank: Rank) -> bool
    ensures gives { result ≡ has_own more rank }
{
    more == More::Alltoall || rank.number() == 0
}

// The message of piece `number`, which goes to the rank of that number or comes from it.
fn piece(way: Way, number: u8, len: u32) -> PieceCall
    requires below { number < 48 }
    requires short { len ≤ 1024 }
    ensures gives { result ≡ record { peer = number; way = way; first = number * len; len = len } }
{
    PieceCall {
        peer: Rank::of(number),
        way,
        first: number as usize * len as usize,
        len,
    }
}

// The message of the first `len` bytes, which go to rank `number` or come from it.
fn front(way: Way, number: u8, len: u32) -> PieceCall
    requires below { number < 48 }
    ensures gives { result ≡ record { peer = number; way = way; first = 0; len = len } }
{
    PieceCall {
        peer: Rank::of(number),
        way,
        first: 0,
        len,
    }
}

// The one message of a rank that is not the root.
fn alone(call: PieceCall, at: u8) -> Option<PieceCall>
    ensures gives { result ≡ slice_get (call ∷ []) at }
{
    if at == 0 { Some(call) } else { None }
}

// A message of a gather.
fn gather_at(rank: Rank, nue: u8, len: u32, at: u8) -> Option<PieceCall>
    requires below { rank < nue }
    requires few { nue ≤ 48 }
    requires short { len ≤ 1024 }
    ensures gives { result ≡ slice_get (gather_calls rank nue len) at }
{
    if rank.number() > 0 {
        return alone(front(Way::Gives, 0, len), at);
    }
    if at < nue - 1 {
        return Some(piece(Way::Takes, at + 1, len));
    }
    None
}

// A message of a scatter.
fn scatter_at(rank: Rank, nue: u8, len: u32, at: u8) -> Option<PieceCall>
    requires below { rank < nue }
    requires few { nue ≤ 48 }
    requires short { len ≤ 1024 }
    ensures gives { result ≡ slice_get (scatter_calls rank nue len) at }
{
    if rank.number() > 0 {
        return alone(front(Way::Takes, 0, len), at);
    }
    if at < nue - 1 {
        return Some(piece(Way::Gives, at + 1, len));
    }
    None
}

// A message behind the gather of an allgather.
fn spread_at(rank: Rank, nue: u8, len: u32, at: u8) -> Option<PieceCall>
    requires below { rank < nue }
    requires few { nue ≤ 48 }
    requires short { len ≤ 1024 }
    ensures gives { result ≡ slice_get (spread_calls rank nue len) at }
{
    let all = nue as u32 * len;
    if rank.number() > 0 {
        return alone(front(Way::Takes, 0, all), at);
    }
    if at < nue - 1 {
        return Some(front(Way::Shares, at + 1, all));
    }
    None
}

// Which way a message of a pair goes: the first of the two, or the second.
fn way_of(at: u8, first: Way, second: Way) -> Way
    ensures gives { result ≡ (if at % 2 == 0 then first else second) }
{
    if at % 2 == 0 { first } else { second }
}

// A message of an alltoall.
fn alltoall_at(rank: Rank, nue: u8, len: u32, at: u8) -> Option<PieceCall>
    requires below { rank < nue }
    requires few { nue ≤ 48 }
    requires short { len ≤ 1024 }
    ensures gives { result ≡ slice_get (alltoall_calls rank nue len) at }
{
    let pair = at / 2;
    if pair < rank.number() {
        return Some(piece(way_of(at, Way::Takes, Way::Gives), pair, len));
    }
    if pair + 1 < nue {
        return Some(piece(way_of(at, Way::Gives, Way::Takes), pair + 1, len));
    }
    None
}

// How many messages of an allgather are those of its gather.
fn gathered(rank: Rank, nue: u8) -> u8
    requires below { rank < nue }
    ensures gives { (len : ℕ) → result ≡ length (gather_calls rank nue len) }
{
    if rank.number() > 0 { 1 } else { nue - 1 }
}

/// The message of a collective call at this place of a rank's table, and None past its end.
pub fn call_at(more: More, rank: Rank, nue: u8, len: u32, at: u8) -> Option<PieceCall>
    requires below { rank < nue }
    requires few { nue ≤ 48 }
    requires short { len ≤ 1024 }
    ensures gives { result ≡ slice_get (piece_calls more rank nue len) at }
{
    match more {
        More::Gather => gather_at(rank, nue, len, at),
        More::Scatter => scatter_at(rank, nue, len, at),
        More::Alltoall => alltoall_at(rank, nue, len, at),
        More::Allgather => {
            let front = gathered(rank, nue);
            if at < front {
                gather_at(rank, nue, len, at)
            } else {
                spread_at(rank, nue, len, at - front)
            }
        }
    }
}
