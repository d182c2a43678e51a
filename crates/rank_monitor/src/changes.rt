//! What a store to a word of bit flags changes.

ghost use Rattle.std.specs.Prelude.{◌≡◌, ◌<◌, ◌≤◌, ◌^◌, ℕ};
ghost use Rattle.scc_proto.specs.Moves.{Move};
ghost use Rattle.scc_proto.specs.Records.{change_at, lowered_below, lowers_bit, raises_bit};
ghost use Rattle.rank_monitor.specs.Steps.{change_by};

use crate::bools::both;
use crate::looks::is_bit;
use scc_base::{Rank, Setup};

/// What a store to a word of bit flags changes.
#[derive(Clone, Copy)]
pub(crate) enum Change {
    /// The bit of this rank is cleared, at the writing rank's own core.
    Lowered { of: Rank },
    /// The writing rank's bit is set, at the core of this rank.
    Raised { at: Rank },
    /// A change that no rank may make.
    Misplaced,
}

fn power(bit: Rank) -> u64
    ensures gives { result ≡ 2 ^ bit }
{
    1 << bit.number()
}

/// Whether the word differs from the old one in this bit alone, which was clear and is set.
fn raises_bit(bit: Rank, old: u64, new: u64) -> bool
    ensures tells { result ≡ raises_bit bit old new }
{
    !is_bit(old, bit) && new >= old && new - old == power(bit)
}

/// Whether the word differs from the old one in this bit alone, which was set and is clear.
fn lowers_bit(bit: Rank, old: u64, new: u64) -> bool
    ensures tells { result ≡ lowers_bit bit old new }
{
    is_bit(old, bit) && old >= new && old - new == power(bit)
}

/// The one other rank below nue whose bit was lowered.
fn lowered(me: Rank, old: u64, new: u64, nue: u8) -> Option<Rank>
    requires ranks { nue ≤ 48 }
    ensures gives { result ≡ lowered_below me old new nue }
{
    let mut left = nue;
    while left > 0 {
        left -= 1;
        let rank = Rank::of(left);
        let found = both(rank != me, lowers_bit(rank, old, new));
        if found {
            return Some(rank);
        }
    }
    None
}

/// The change of a noted word of an owner's core: without a noted word there is none.
pub(crate) fn change_of(
    setup: &Setup,
    me: Rank,
    owner: Rank,
    noted: Option<u64>,
    new: u64,
) -> Change
    ensures gives { (lower raise : ℕ → Move) → change_by lower raise result ≡ change_at lower raise setup.now me owner new noted }
{
    let Some(old) = noted else {
        return Change::Misplaced;
    };
    if owner == me {
        return match lowered(me, old, new, setup.nue()) {
            Some(of) => Change::Lowered { of },
            None => Change::Misplaced,
        };
    }
    if raises_bit(me, old, new) {
        return Change::Raised { at: owner };
    }
    Change::Misplaced
}
