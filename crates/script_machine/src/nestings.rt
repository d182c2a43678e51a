//! What the items of a script do to the repeats of a rank, and the repeats without inner repeats.

ghost use Rattle.std.specs.Prelude.{◌≡◌, ◌<◌, ◌≤◌, length, true};
ghost use Rattle.std.specs.VecDeque.{deque_capacity};
ghost use Rattle.scc_base.specs.Setups.{SetupView};
ghost use Rattle.script_rules.specs.declared.effect.Nesting.TheVariants as variant;
ghost use Rattle.script_machine.specs.Depths.{depth_after};
ghost use Rattle.script_machine.specs.Passes.{IsFlat, IsFlatFront, last_pass};
ghost use Rattle.script_machine.specs.Program.{nesting_at};
ghost use Rattle.script_machine.specs.Walk.{is_closing};

use crate::course::Open;
use scc_base::Rank;
use script_rules::{Item, Nesting, Scripts, effect_of};
use std::collections::VecDeque;

/// What an item does to the repeats of a rank. The section is checked only if the item opens or closes a repeat.
pub(crate) fn nesting_at(rank: Rank, item: &Item) -> Nesting
    ensures { result ≡ nesting_at rank item.now }
{
    let nesting = effect_of(&item.stmt).nesting;
    match nesting {
        Nesting::Stays => Nesting::Stays,
        Nesting::Opens(_) | Nesting::Closes(_) => {
            if item.who.has(rank.number()) {
                nesting
            } else {
                Nesting::Stays
            }
        }
    }
}

/// Whether an item ends a pass of a rank's repeat.
pub(crate) fn ends_pass(rank: Rank, item: &Item) -> bool
    ensures { result ≡ is_closing (nesting_at rank item.now) }
{
    match nesting_at(rank, item) {
        Nesting::Closes(_) => true,
        Nesting::Opens(_) | Nesting::Stays => false,
    }
}

/// Whether an item leaves the repeats of a rank as they are.
fn stays(rank: Rank, item: &Item) -> bool
    ensures { result ≡ true → nesting_at rank item.now ≡ variant.Stays }
{
    match nesting_at(rank, item) {
        Nesting::Stays => true,
        Nesting::Opens(_) | Nesting::Closes(_) => false,
    }
}

/// How many repeats are open after an item.
pub(crate) fn depth_afterwards(nesting: Nesting, depth: usize) -> usize
    requires { depth < usize.MAX }
    ensures { result ≡ depth_after nesting depth }
{
    match nesting {
        Nesting::Opens(_) => depth + 1,
        Nesting::Closes(_) => depth.saturating_sub(1),
        Nesting::Stays => depth,
    }
}

/// Whether no item between two places opens or closes a repeat of the rank.
fn is_flat(scripts: &Scripts, rank: Rank, start: usize, end: usize) -> bool
    requires { end ≤ length scripts.now.items }
    ensures { result ≡ true → (s : SetupView) → IsFlat s rank scripts.now.items start end }
{
    if start > end {
        return false;
    }
    for at in start..end {
        if !stays(rank, scripts.item(at)) {
            return false;
        }
    }
    true
}

/// How many passes follow the one that ends at this place if no other repeat is in them, otherwise 0.
pub(crate) fn flat_passes(scripts: &Scripts, rank: Rank, at: usize, repeats: &VecDeque<Open>) -> u32
    requires { at ≤ length scripts.now.items }
    ensures { 0 < result → IsFlatFront rank scripts.now.items at repeats.now.items result }
{
    let Some(open) = repeats.front() else {
        return 0;
    };
    if !is_flat(scripts, rank, open.start, at) {
        return 0;
    }
    open.left
}

/// Makes this pass of the innermost open repeat its last.
pub(crate) fn end_passes(repeats: &mut VecDeque<Open>)
    requires { length repeats.old.items ≤ deque_capacity repeats.old }
    ensures left { repeats.new.items ≡ last_pass repeats.old.items }
    ensures room { deque_capacity repeats.new ≡ deque_capacity repeats.old }
{
    match repeats.pop_front() {
        None => {}
        Some(open) => repeats.push_front_reserved(Open {
            start: open.start,
            left: 0,
        }),
    }
}
