//! A walk through the primitives of a rank.

ghost use Rattle.std.specs.Prelude.{◌≡◌};
ghost use Rattle.script_machine.specs.Program.{prims_in};
ghost use Rattle.script_machine.specs.Walk.{IsFront};

use crate::course::Course;
use crate::prims::Primitive;
use scc_base::{Rank, Setup};
use script_rules::Scripts;
use std::alloc::{AllocError, Global};
use std::marker::Model;

/// A walk through the primitives of a rank: a course that is never at the end of a pass, and the next primitive on it.
#[derive(Drop)]
pub struct Walk<'s> {
    course: Course<'s>,
    next: Option<Primitive<'s>>,
}

impl<'s> Model for Walk<'s> {
    ghost use Rattle.script_machine.specs.Program.{prims_in};
    ghost use Rattle.script_machine.specs.Walk.{IsFront, WalkView};

    ghost Value = { WalkView };

    ghost view = { λ w. record {
      script = w.course.script;
      setup = w.course.setup;
      rank = w.course.rank;
      left = prims_in w.course.left;
    } };

    ghost invariant = { λ w. IsFront w.course.left w.next };
}

impl<'s> Walk<'s> {
    ghost use Rattle.std.specs.Prelude.{◌≡◌, ◌<◌, [], drop, slice_get, IfOk, IfSome};
    ghost use Rattle.std.specs.Option.{option_map};
    ghost use Rattle.script_rules.specs.Script.{rules_of};
    ghost use Rattle.script_machine.specs.Passes.{walk_of};
    ghost use Rattle.script_machine.specs.Program.{program_of};
    ghost use Rattle.script_machine.specs.Walk.{IsShort, prim_meant};

    /// A walk from the first primitive of a rank on.
    pub fn new(
        alloc: Global,
        scripts: &'s Scripts,
        setup: Setup,
        rank: Rank,
    ) -> Result<Walk<'s>, AllocError>
        requires within { rank < setup.nue }
        requires ranks { setup.nue ≡ scripts.now.nue }
        requires communicators { setup.comms ≡ rules_of scripts.now.items }
        ensures { IfOk result (λ w. w ≡ record { script = scripts.now; setup = setup; rank = rank; left = program_of scripts.now rank }) }
    {
        let mut course = Course::new(alloc, scripts, setup, rank)?;
        let next = pass_ends(&mut course);
        Ok(Walk { course, next })
    }

    /// The walk over the primitives of a course.
    pub(crate) fn of(mut course: Course<'s>) -> Walk<'s>
        ensures { result ≡ walk_of course.entry }
    {
        let next = pass_ends(&mut course);
        Walk { course, next }
    }

    /// The course of the walk.
    pub(crate) fn into_course(self) -> Course<'s>
        ensures { walk_of result ≡ self.entry }
    {
        self.course
    }

    /// The rank whose primitives these are.
    pub fn rank(&self) -> Rank
        ensures { result ≡ self.now.rank }
    {
        self.course.rank()
    }

    /// The next primitive.
    pub fn front(&self) -> Option<Primitive<'s>>
        ensures same { option_map prim_meant result ≡ slice_get self.now.left 0 }
        ensures short { IfSome result (λ p. IsShort p.action) }
    {
        match &self.next {
            Some(next) => Some(next.copy()),
            None => None,
        }
    }

    /// The next primitive, borrowed.
    pub(crate) fn front_lent(&self) -> Option<&Primitive<'s>>
        ensures same { option_map (λ p. prim_meant p.now) result ≡ slice_get self.now.left 0 }
        ensures short { IfSome result (λ p. IsShort p.now.action) }
    {
        match &self.next {
            Some(next) => Some(next),
            None => None,
        }
    }

    /// Goes back to the first primitive.
    pub fn restart(&mut self)
        requires ranks { self.old.setup.nue ≡ self.old.script.nue }
        requires communicators { self.old.setup.comms ≡ rules_of self.old.script.items }
        ensures { self.new ≡ record self.old { left = program_of self.old.script self.old.rank } }
    {
        self.course.restart();
        let first = pass_ends(&mut self.course);
        self.next = first;
    }

    /// Goes to the end.
    pub fn finish(&mut self)
        ensures { self.new ≡ record self.old { left = [] } }
    {
        self.course.finish();
        self.next = None;
    }

    /// Passes the next primitive.
    pub fn advance(&mut self)
        ensures { self.new ≡ record self.old { left = drop 1 self.old.left } }
    {
        self.course.advance();
        let next = pass_ends(&mut self.course);
        self.next = next;
    }
}

/// Passes the next ends of passes, and returns the primitive after them.
#[inline(always)]
fn pass_ends<'s>(course: &mut Course<'s>) -> Option<Primitive<'s>>
    ensures same { prims_in course.new.left ≡ prims_in course.old.left }
    ensures script { course.new.script ≡ course.old.script }
    ensures setup { course.new.setup ≡ course.old.setup }
    ensures rank { course.new.rank ≡ course.old.rank }
    ensures front { IsFront course.new.left result }
{
    while course.is_at_end() {
        course.advance();
    }
    course.front()
}
