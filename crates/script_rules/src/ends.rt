//! The places of the ends of repeats.

ghost use Rattle.std.specs.Prelude.{◌≡◌, ◌<◌, ◌^◌, length};
ghost use Rattle.script_rules.specs.Ends.{with_end_at, told_at, with_ends};

use crate::effect::{Nesting, effect_of};
use crate::script::{Item, Stmt};

/// Gives the repeat at `start` the place of its end.
fn end_at(items: &mut [Item], start: usize, place: u32)
    ensures gives { items.new ≡ with_end_at items.old start place }
{
    if start >= items.len() {
        return;
    }
    match effect_of(&items[start].stmt).nesting {
        Nesting::Opens(times) => items[start].stmt = Stmt::Repeat { times, end: place },
        Nesting::Closes(_) | Nesting::Stays => {}
    }
}

/// Gives a repeat the place of its end, if the item at `place` is that end.
fn tell_at(items: &mut [Item], place: usize)
    requires known { place < length items.old }
    requires few { length items.old < 2 ^ 32 }
    ensures gives { items.new ≡ told_at items.old place }
{
    match effect_of(&items[place].stmt).nesting {
        Nesting::Closes(start) => end_at(items, start as usize, place as u32),
        Nesting::Opens(_) | Nesting::Stays => {}
    }
}

/// Gives each repeat the place of its end.
pub fn tell_ends(items: &mut [Item])
    requires few { length items.old < 2 ^ 32 }
    ensures gives { items.new ≡ with_ends (length items.old) items.old }
{
    for place in 0..items.len() {
        tell_at(items, place);
    }
}
