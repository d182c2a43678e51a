//! The repeats that are open.

ghost use Rattle.std.specs.Prelude.{◌≡◌, false};
ghost use Rattle.script_rules.specs.Checks.{innermost, is_stray, is_too_deep, repeats_after, turns_in, turns_too_often};

use crate::effect::Nesting;
use crate::tally::MOST_OPERATIONS;
use arrayvec::ArrayVec;

/// How many repeats may be open.
pub const MOST_OPEN: usize = 8;

/// An open repeat.
#[derive(Clone, Copy, Default)]
pub struct Open {
    /// The place of its `repeat`, from 0.
    pub start: u32,
    /// How often a statement in it runs: the product of the times of all open repeats.
    pub turns: u32,
}

/// How often a statement inside these repeats runs. The outermost repeat comes first.
pub fn turns_in(repeats: &[Open]) -> u32
    ensures { result ≡ turns_in repeats.now }
{
    match repeats.last() {
        Some(repeat) => repeat.turns,
        None => 1,
    }
}

/// The place of the innermost of these repeats, or 0 if none is open.
pub fn innermost(repeats: &[Open]) -> u32
    ensures { result ≡ innermost repeats.now }
{
    match repeats.last() {
        Some(repeat) => repeat.start,
        None => 0,
    }
}

/// Whether a statement is an `end` with no open repeat.
pub fn is_stray(repeats: &[Open], nesting: Nesting) -> bool
    ensures { result ≡ is_stray repeats.now nesting }
{
    match nesting {
        Nesting::Closes(_) => repeats.is_empty(),
        Nesting::Opens(_) | Nesting::Stays => false,
    }
}

/// Whether a statement would open a repeat nested too deep.
pub fn is_too_deep(repeats: &[Open], nesting: Nesting) -> bool
    ensures { result ≡ is_too_deep repeats.now nesting }
{
    match nesting {
        Nesting::Opens(_) => repeats.len() >= MOST_OPEN,
        Nesting::Closes(_) | Nesting::Stays => false,
    }
}

/// Whether statements in this repeat would run too often.
pub fn turns_too_often(turns: u32, nesting: Nesting) -> bool
    ensures { result ≡ turns_too_often turns nesting }
{
    match nesting {
        Nesting::Opens(times) => (turns as u64).saturating_mul(times as u64) > MOST_OPERATIONS,
        Nesting::Closes(_) | Nesting::Stays => false,
    }
}

/// Opens or closes a repeat, if the statement at this place does that.
pub fn note_repeat(repeats: &mut ArrayVec<Open, MOST_OPEN>, nesting: Nesting, place: u32)
    requires flat { is_too_deep repeats.old.items nesting ≡ false }
    requires turning { turns_too_often (turns_in repeats.old.items) nesting ≡ false }
    ensures { repeats.new.items ≡ repeats_after nesting place repeats.old.items }
{
    match nesting {
        Nesting::Opens(times) => {
            let turns = (turns_in(repeats.as_slice()) as u64).saturating_mul(times as u64);
            repeats.push(Open {
                start: place,
                turns: turns as u32,
            });
        }
        Nesting::Closes(_) => {
            repeats.pop();
        }
        Nesting::Stays => {}
    }
}
