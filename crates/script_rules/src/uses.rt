//! The checks of the registers that a statement reads, sets, posts and prints.

ghost use Rattle.std.specs.Prelude.{◌≡◌, ◌<◌};
ghost use Rattle.script_rules.specs.Checks.{counts_at, differs, is_misshapen, is_past_most, is_ragged, is_root, is_too_long, is_unfit, is_unset, length_given, misfits, posts_too_much, prints, prints_too_much, resizes, set_by};
ghost use Rattle.script_rules.specs.Tally.{length_in, reads};

use crate::effect::{At, Effect, Fit, Size, Use, Uses};
use crate::run::Run;
use crate::tally::{MOST_PRINTED, Setting, Tally};
use groups::Ty;
use scc_base::{Head, PostHead};

/// The most bytes of a message and of a register.
const MOST_BYTES: u64 = Head::MOST as u64;

/// The most bytes of a post: one chunk in the layout of line flags.
const MOST_POSTED: u64 = PostHead::MOST as u64;

/// Whether the rank is known to be the root of its collective call.
fn is_root(run: &Run, effect: &Effect, rank: u8) -> bool
    requires { rank < run.now.nue }
    ensures { result ≡ is_root run.now effect.now rank }
{
    match effect.root {
        Some(root) => run.is_at(effect.group.needed(), rank, root),
        None => false,
    }
}

/// Whether a part of the statement applies to the rank.
fn counts_at(run: &Run, effect: &Effect, rank: u8, at: At) -> bool
    requires { rank < run.now.nue }
    ensures { result ≡ counts_at run.now effect.now rank at }
{
    match at {
        At::All => true,
        At::Root => is_root(run, effect, rank),
        At::Others => !is_root(run, effect, rank),
    }
}

/// The length that a statement gives a register.
fn length_given(tally: &Tally, size: Size) -> u64
    ensures { result ≡ length_given (length_in tally.now) size }
{
    match size {
        Size::Bytes(len) => len,
        Size::Same(reg) => tally.length(reg).unwrap_or(0),
    }
}

/// The register that a statement sets at a rank, with its length.
#[inline(always)]
pub(crate) fn set_by(run: &Run, tally: &Tally, effect: &Effect, rank: u8) -> Option<Setting>
    requires { rank < run.now.nue }
    ensures { result ≡ set_by run.now (length_in tally.now) effect.now rank }
{
    match effect.sets {
        Some(target) if counts_at(run, effect, rank, target.at) => Some(Setting {
            reg: target.reg,
            len: length_given(tally, target.size),
        }),
        Some(_) | None => None,
    }
}

impl Use {
    ghost use Rattle.std.specs.Prelude.{◌≡◌, ◌<◌, ◌&&◌, is_none};
    ghost use Rattle.script_rules.specs.Checks.{counts_at, is_unfit};
    ghost use Rattle.script_rules.specs.Tally.{length_in};

    /// Whether the rank has not set the register.
    #[inline(always)]
    fn is_unset(self, run: &Run, tally: &Tally, effect: &Effect, rank: u8) -> bool
        requires { rank < run.now.nue }
        ensures { result ≡ (counts_at run.now effect.now rank self.at && is_none (length_in tally.now self.reg)) }
    {
        counts_at(run, effect, rank, self.at) && tally.length(self.reg).is_none()
    }

    /// Whether the register has another length at the rank than the statement requires.
    #[inline(always)]
    fn misfits(self, run: &Run, tally: &Tally, effect: &Effect, rank: u8) -> bool
        requires { rank < run.now.nue }
        ensures { result ≡ (counts_at run.now effect.now rank self.at && is_unfit (length_in tally.now) self.reg self.fit) }
    {
        counts_at(run, effect, rank, self.at) && is_unfit(tally, self.reg, self.fit)
    }
}

/// Whether a statement reads a register that the rank has not set.
pub(crate) fn is_unset(run: &Run, tally: &Tally, effect: &Effect, rank: u8) -> bool
    requires { rank < run.now.nue }
    ensures { result ≡ is_unset run.now (length_in tally.now) effect.now rank }
{
    match effect.uses {
        Uses::Nothing => false,
        Uses::One(only) => only.is_unset(run, tally, effect, rank),
        Uses::Two(first, second) => {
            first.is_unset(run, tally, effect, rank) || second.is_unset(run, tally, effect, rank)
        }
    }
}

/// Whether there is a length and it is not this one.
fn differs(had: Option<u64>, len: u64) -> bool
    ensures { result ≡ differs had len }
{
    match had {
        Some(had) => had != len,
        None => false,
    }
}

/// Whether there is a length and it is not a multiple of the type's width.
fn is_ragged(ty: Ty, had: Option<u64>) -> bool
    ensures { result ≡ is_ragged ty had }
{
    match had {
        Some(had) => had % ty.width() as u64 != 0,
        None => false,
    }
}

/// Whether a statement would change a register's length.
fn resizes(tally: &Tally, set: Option<Setting>) -> bool
    ensures { result ≡ resizes (length_in tally.now) set }
{
    match set {
        Some(set) => differs(tally.length(set.reg), set.len),
        None => false,
    }
}

/// Whether a register has another length than the required one.
fn is_unfit(tally: &Tally, reg: u8, fit: Fit) -> bool
    ensures { result ≡ is_unfit (length_in tally.now) reg fit }
{
    match fit {
        Fit::Any => false,
        Fit::Whole(ty) => is_ragged(ty, tally.length(reg)),
        Fit::Long(len) => differs(tally.length(reg), len as u64),
        Fit::Like(other) => differs(tally.length(reg), tally.length(other).unwrap_or(0)),
    }
}

/// Whether a statement requires another length than one of its registers has.
fn misfits(run: &Run, tally: &Tally, effect: &Effect, rank: u8) -> bool
    requires { rank < run.now.nue }
    ensures { result ≡ misfits run.now (length_in tally.now) effect.now rank }
{
    match effect.uses {
        Uses::Nothing => false,
        Uses::One(only) => only.misfits(run, tally, effect, rank),
        Uses::Two(first, second) => {
            first.misfits(run, tally, effect, rank) || second.misfits(run, tally, effect, rank)
        }
    }
}

/// Whether a statement would change a register's length, or requires another one.
pub(crate) fn is_misshapen(run: &Run, tally: &Tally, effect: &Effect, rank: u8) -> bool
    requires { rank < run.now.nue }
    ensures { result ≡ is_misshapen run.now (length_in tally.now) effect.now rank }
{
    resizes(tally, set_by(run, tally, effect, rank)) || misfits(run, tally, effect, rank)
}

/// How many register bytes one pass of a statement prints.
pub(crate) fn prints(tally: &Tally, effect: &Effect) -> u64
    ensures { result ≡ prints (length_in tally.now) effect.now }
{
    match effect.prints {
        Some(reg) => tally.length(reg).unwrap_or(0),
        None => 0,
    }
}

/// Whether the statement states a length above the greatest of a message.
fn is_past_most(size: Size) -> bool
    ensures { result ≡ is_past_most size }
{
    match size {
        Size::Bytes(len) => len > MOST_BYTES,
        Size::Same(_) => false,
    }
}

/// Whether the statement sets a register to a length above the greatest of a message.
pub fn is_too_long(effect: &Effect) -> bool
    ensures { result ≡ is_too_long effect.now }
{
    match effect.sets {
        Some(target) => is_past_most(target.size),
        None => false,
    }
}

/// Whether a statement posts more than one chunk.
pub(crate) fn posts_too_much(tally: &Tally, effect: &Effect) -> bool
    ensures { result ≡ posts_too_much (length_in tally.now) effect.now }
{
    match effect.posts {
        Some(reg) => tally.length(reg).unwrap_or(0) > MOST_POSTED,
        None => false,
    }
}

/// Whether the rank prints too much with the statement.
pub(crate) fn prints_too_much(tally: &Tally, turns: u32, effect: &Effect) -> bool
    ensures { result ≡ prints_too_much (length_in tally.now) tally.now.printed turns effect.now }
{
    let printed = (turns as u64).saturating_mul(prints(tally, effect));
    tally.printed.saturating_add(printed) > MOST_PRINTED
}

/// Whether a statement reads a register.
pub fn reads(uses: Uses) -> bool
    ensures { result ≡ reads uses }
{
    match uses {
        Uses::Nothing => false,
        Uses::One(_) | Uses::Two(_, _) => true,
    }
}
