//! A course through the items of a rank: their primitives, and the ends of passes.

ghost use Rattle.std.specs.Prelude.{◌≡◌, ◌<◌, ◌≤◌, ◌+◌, drop, length, slice_get, IfOk};
ghost use Rattle.std.specs.VecDeque.{deque_capacity};
ghost use Rattle.script_rules.specs.Script.{IsSized};
ghost use Rattle.script_machine.specs.Depths.{HasRoom, IsDeep, IsIdleFrom, IsIdleTo};
ghost use Rattle.script_machine.specs.Program.{marks_of, nesting_at, prims_of};
ghost use Rattle.script_rules.specs.declared.effect.Nesting.{Nesting};
ghost use Rattle.script_machine.specs.Walk.{AreOpenAt, HasMoreMarks, IsStand, is_closing, repeats_after_pass, closed_to, left_at, repeats_after_begin, repeats_after_marks, passed_to};

use crate::nestings::{depth_afterwards, end_passes, ends_pass, flat_passes, nesting_at};
use crate::prims::Primitive;
use crate::statements::{action_of, count};
use scc_base::{Rank, Setup};
use script_rules::{Item, Nesting, Scripts};
use std::alloc::{AllocError, Global};
use std::collections::VecDeque;
use std::marker::Model;

/// A repeat that is open: the place of the first item of its body, and how many passes come after this one.
#[derive(Clone, Copy)]
pub struct Open {
    pub start: usize,
    pub left: u32,
}

/// A course through the items of a rank. It keeps its place, how many marks the item there has and whether one is the end of a
/// pass, the step of a collective call there, and the open repeats, the innermost one first. It can hold as many open repeats
/// as the script opens. The items of the rank are at places from `first` up to `end`, which is excluded.
#[derive(Drop)]
pub struct Course<'s> {
    scripts: &'s Scripts,
    setup: Setup,
    rank: Rank,
    first: usize,
    end: usize,
    place: usize,
    count: u32,
    closes: bool,
    step: u32,
    repeats: VecDeque<Open>,
}

impl<'s> Model for Course<'s> {
    ghost use Rattle.std.specs.Prelude.{drop, slice_get};
    ghost use Rattle.script_machine.specs.Walk.{CourseView, left_at};

    ghost Value = { CourseView };

    ghost view = { λ w. record {
      script = w.scripts.now;
      setup = w.setup;
      rank = w.rank;
      left = drop w.step (left_at w.setup w.rank w.scripts.now.items w.place w.repeats.items);
    } };

    ghost use Rattle.std.specs.VecDeque.{deque_capacity};
    ghost use Rattle.script_machine.specs.Depths.{HasRoom, IsDeep, IsIdleFrom, IsIdleTo};
    ghost use Rattle.script_machine.specs.Walk.{IsAt, IsStand};

    ghost invariant = { λ w.
        IsAt w.setup w.rank w.scripts.now.items w.place w.step w.repeats.items
        × ((IsDeep w.rank w.scripts.now.items w.place w.repeats.items × HasRoom w.rank w.scripts.now.items (deque_capacity w.repeats))
        × ((IsIdleTo w.rank w.scripts.now.items w.first × IsIdleFrom w.rank w.scripts.now.items w.end)
        × IsStand w.setup w.rank (slice_get w.scripts.now.items w.place) w.count w.closes)) };
}

/// A place at which a course can go on: how many marks the item there has, and whether one is the end of a pass.
#[derive(Clone, Copy)]
struct Stand {
    place: usize,
    count: u32,
    closes: bool,
}

impl<'s> Course<'s> {
    ghost use Rattle.std.specs.Prelude.{◌≡◌, ◌<◌, [], drop, slice_get, true, IfOk, IfSome};
    ghost use Rattle.std.specs.Option.{option_map};
    ghost use Rattle.script_rules.specs.Script.{rules_of};
    ghost use Rattle.script_machine.specs.Passes.{HasPasses, LeavesOut};
    ghost use Rattle.script_machine.specs.Program.{marks_in};
    ghost use Rattle.script_machine.specs.Walk.{IsShort, is_end, prim_meant, prim_of};

    /// A course from the first mark of a rank on.
    pub fn new(
        alloc: Global,
        scripts: &'s Scripts,
        setup: Setup,
        rank: Rank,
    ) -> Result<Course<'s>, AllocError>
        requires within { rank < setup.nue }
        requires ranks { setup.nue ≡ scripts.now.nue }
        requires communicators { setup.comms ≡ rules_of scripts.now.items }
        ensures { IfOk result (λ w. w ≡ record { script = scripts.now; setup = setup; rank = rank; left = marks_in scripts.now rank }) }
    {
        let first = first_of(scripts, rank);
        let reach = reach_of(scripts, rank);
        let mut repeats = VecDeque::with_capacity(alloc, reach.depth)?;
        let stand = settled(scripts, &setup, rank, first, reach.end, &mut repeats);
        Ok(Course {
            scripts,
            setup,
            rank,
            first,
            end: reach.end,
            place: stand.place,
            count: stand.count,
            closes: stand.closes,
            step: 0,
            repeats,
        })
    }

    /// The rank whose items these are.
    pub fn rank(&self) -> Rank
        ensures { result ≡ self.now.rank }
    {
        self.rank
    }

    /// Whether the next mark is the end of a pass.
    #[inline(always)]
    pub fn is_at_end(&self) -> bool
        ensures { result ≡ is_end (slice_get self.now.left 0) }
    {
        self.closes
    }

    /// The next primitive: none if the next mark is the end of a pass.
    #[inline(always)]
    pub fn front(&self) -> Option<Primitive<'s>>
        ensures same { option_map prim_meant result ≡ prim_of (slice_get self.now.left 0) }
        ensures short { IfSome result (λ p. IsShort p.action) }
    {
        if self.place >= self.scripts.len() {
            return None;
        }
        let item = self.scripts.item(self.place);
        if self.closes {
            return None;
        }
        Some(Primitive {
            line: item.line,
            action: action_of(&self.setup, self.rank, &item.stmt, self.step),
        })
    }

    /// Goes back to the first mark.
    pub fn restart(&mut self)
        requires ranks { self.old.setup.nue ≡ self.old.script.nue }
        requires communicators { self.old.setup.comms ≡ rules_of self.old.script.items }
        ensures { self.new ≡ record self.old { left = marks_in self.old.script self.old.rank } }
    {
        self.repeats.clear();
        self.step = 0;
        let stand = settled(
            self.scripts,
            &self.setup,
            self.rank,
            self.first,
            self.end,
            &mut self.repeats,
        );
        self.place = stand.place;
        self.count = stand.count;
        self.closes = stand.closes;
    }

    /// Goes to the end.
    pub fn finish(&mut self)
        ensures { self.new ≡ record self.old { left = [] } }
    {
        self.place = self.scripts.len();
        self.count = 0;
        self.closes = false;
        self.step = 0;
        self.repeats.clear();
    }

    /// Passes the next mark.
    #[inline(always)]
    pub fn advance(&mut self)
        ensures { self.new ≡ record self.old { left = drop 1 self.old.left } }
    {
        let scripts = self.scripts;
        let at = self.place;
        if at >= scripts.len() {
            return;
        }
        if self.step + 1 < self.count {
            self.step += 1;
            return;
        }
        let next = pass_marks(self.closes, at, scripts.len(), &mut self.repeats);
        let stand = settled(
            scripts,
            &self.setup,
            self.rank,
            next,
            self.end,
            &mut self.repeats,
        );
        self.place = stand.place;
        self.count = stand.count;
        self.closes = stand.closes;
        self.step = 0;
    }

    /// How many passes follow the one that ends next if no other repeat is in them, otherwise 0.
    pub(crate) fn passes(&self) -> u32
        requires { is_end (slice_get self.now.left 0) ≡ true }
        ensures { HasPasses self.now.left result }
    {
        flat_passes(self.scripts, self.rank, self.place, &self.repeats)
    }

    /// Skips these passes.
    pub(crate) fn leave(&mut self)
        requires { is_end (slice_get self.old.left 0) ≡ true }
        ensures leaves { LeavesOut self.old.left self.new.left }
        ensures same { self.new ≡ record self.old { left = self.new.left } }
    {
        if flat_passes(self.scripts, self.rank, self.place, &self.repeats) == 0 {
            return;
        }
        end_passes(&mut self.repeats);
    }
}

/// How many primitives an item makes for a rank.
#[inline(always)]
fn count_prims(setup: &Setup, rank: Rank, item: &Item) -> u32
    requires within { rank < setup.now.nue }
    requires sized { IsSized item.now.stmt }
    ensures { result ≡ length (prims_of setup.now rank item.now) }
{
    if item.who.has(rank.number()) {
        count(setup, rank, &item.stmt)
    } else {
        0
    }
}

/// How many marks an item has for a rank, given whether one is the end of a pass.
#[inline(always)]
fn count_at(setup: &Setup, rank: Rank, item: &Item, closes: bool) -> u32
    requires within { rank < setup.now.nue }
    requires sized { IsSized item.now.stmt }
    requires closes { closes ≡ is_closing (nesting_at rank item.now) }
    ensures { result ≡ length (marks_of setup.now rank item.now) }
{
    if closes {
        return 1;
    }
    count_prims(setup, rank, item)
}

/// The place of the first item of a rank, or the end.
fn first_of(scripts: &Scripts, rank: Rank) -> usize
    ensures { IsIdleTo rank scripts.now.items result }
{
    for at in 0..scripts.len() {
        if scripts.item(at).who.has(rank.number()) {
            return at;
        }
    }
    scripts.len()
}

/// How far the items of a rank reach: the place after the last one, and the most repeats that are open at a place.
#[derive(Clone, Copy)]
struct Reach {
    end: usize,
    depth: usize,
}

/// How far the items of a rank reach.
fn reach_of(scripts: &Scripts, rank: Rank) -> Reach
    ensures room { HasRoom rank scripts.now.items result.depth }
    ensures idle { IsIdleFrom rank scripts.now.items result.end }
{
    let mut depth = 0;
    let mut most = 0;
    let mut end = 0;
    for at in 0..scripts.len() {
        let item = scripts.item(at);
        if item.who.has(rank.number()) {
            end = at + 1;
        }
        depth = depth_afterwards(nesting_at(rank, item), depth);
        if most < depth {
            most = depth;
        }
    }
    Reach { end, depth: most }
}

/// Enters the repeat that an item opens, if it opens one.
fn enter(rank: Rank, item: &Item, at: usize, repeats: &mut VecDeque<Open>)
    requires below { at < usize.MAX }
    requires room { length (repeats_after_begin (nesting_at rank item.now) at repeats.old.items) ≤ deque_capacity repeats.old }
    ensures same { repeats.new.items ≡ repeats_after_begin (nesting_at rank item.now) at repeats.old.items }
    ensures room { deque_capacity repeats.new ≡ deque_capacity repeats.old }
{
    match nesting_at(rank, item) {
        Nesting::Opens(times) => repeats.push_front_reserved(Open {
            start: at + 1,
            left: times.saturating_sub(1),
        }),
        Nesting::Closes(_) | Nesting::Stays => {}
    }
}

/// The first place from here on at which an item has a mark for the rank, or the end. From the place `end` on, no item is the
/// rank's.
#[inline(always)]
fn settled(
    scripts: &Scripts,
    setup: &Setup,
    rank: Rank,
    place: usize,
    end: usize,
    repeats: &mut VecDeque<Open>,
) -> Stand
    requires within { rank < setup.now.nue }
    requires idle { IsIdleFrom rank scripts.now.items end }
    requires opens { AreOpenAt setup.now rank scripts.now.items place repeats.old.items }
    requires deep { IsDeep rank scripts.now.items place repeats.old.items }
    requires room { HasRoom rank scripts.now.items (deque_capacity repeats.old) }
    ensures same { left_at setup.now rank scripts.now.items result.place repeats.new.items
        ≡ left_at setup.now rank scripts.now.items place repeats.old.items }
    ensures opens { AreOpenAt setup.now rank scripts.now.items result.place repeats.new.items }
    ensures stands { HasMoreMarks setup.now rank scripts.now.items result.place 0 }
    ensures stand { IsStand setup.now rank (slice_get scripts.now.items result.place) result.count result.closes }
    ensures deep { IsDeep rank scripts.now.items result.place repeats.new.items }
    ensures room { deque_capacity repeats.new ≡ deque_capacity repeats.old }
{
    for at in place..end {
        let item = scripts.item(at);
        let closes = ends_pass(rank, item);
        let count = count_at(setup, rank, item, closes);
        if count > 0 {
            return Stand {
                place: at,
                count,
                closes,
            };
        }
        enter(rank, item, at, repeats);
    }
    Stand {
        place: scripts.len(),
        count: 0,
        closes: false,
    }
}

/// The place after the end of a pass of the innermost open repeat: the start of its next pass, or the place after its end.
fn close(at: usize, end: usize, repeats: &mut VecDeque<Open>) -> usize
    requires below { at < usize.MAX }
    requires room { length repeats.old.items ≤ deque_capacity repeats.old }
    ensures to { result ≡ closed_to at end repeats.old.items }
    ensures left { repeats.new.items ≡ repeats_after_pass repeats.old.items }
    ensures room { deque_capacity repeats.new ≡ deque_capacity repeats.old }
{
    match repeats.pop_front() {
        None => end,
        Some(open) => {
            if open.left == 0 {
                return at + 1;
            }
            repeats.push_front_reserved(Open {
                start: open.start,
                left: open.left - 1,
            });
            open.start
        }
    }
}

/// The place after the marks of an item, of which one may be the end of a pass.
#[inline(always)]
fn pass_marks(closes: bool, at: usize, end: usize, repeats: &mut VecDeque<Open>) -> usize
    requires below { at < usize.MAX }
    requires room { length repeats.old.items ≤ deque_capacity repeats.old }
    ensures to { (n : Nesting) → closes ≡ is_closing n → result ≡ passed_to n at end repeats.old.items }
    ensures left { (n : Nesting) → closes ≡ is_closing n → repeats.new.items ≡ repeats_after_marks n repeats.old.items }
    ensures room { deque_capacity repeats.new ≡ deque_capacity repeats.old }
{
    if closes {
        close(at, end, repeats)
    } else {
        at + 1
    }
}
