//! Computes what memory the program of a rank needs, by a course through it over lengths only. If a pass changes no length and
//! has no inner repeat, the passes after it need no more capacity and are skipped.

ghost use Rattle.std.specs.Prelude.{◌≡◌, ◌<◌, length, slice_get, true, IfOk, OnOk, None, []};
ghost use Rattle.script_rules.specs.Script.{rules_of};
ghost use Rattle.script_machine.specs.Passes.{HoldsBefore, IsBatch, KeepsRegisters};
ghost use Rattle.script_machine.specs.Program.{prims_in, program_of};
ghost use Rattle.script_machine.specs.Rooms.{AreWithin, IsWider, nothing_held, rooms_of};
ghost use Rattle.script_machine.specs.Walk.{is_end, prim_of};

use crate::course::Course;
use crate::reckoning::{Lengths, Needs, Reckoning};
use crate::rooms::Length;
use crate::walk::Walk;
use std::alloc::{AllocError, Global};

/// What a walk needs, and the walk at its first primitive again.
#[derive(Drop)]
pub struct Reckoned<'s> {
    pub needs: Needs,
    pub walk: Walk<'s>,
}

/// The greatest lengths on a walk, begun with this many registers of which none is set.
pub fn reckon<'s>(alloc: Global, count: usize, walk: Walk<'s>) -> Result<Reckoned<'s>, AllocError>
    requires ranks { walk.setup.nue ≡ walk.script.nue }
    requires communicators { walk.setup.comms ≡ rules_of walk.script.items }
    ensures holds { IfOk result (λ r. AreWithin (rooms_of r.needs) (nothing_held count) walk.entry.left) }
    ensures again { IfOk result (λ r. r.walk ≡ record walk.entry { left = program_of walk.entry.script walk.entry.rank }) }
{
    let mut course = walk.into_course();
    let needs = reckon_course(alloc, count, &mut course)?;
    course.restart();
    let walk = Walk::of(course);
    Ok(Reckoned { needs, walk })
}

/// The greatest lengths on what is left of a course, begun with this many registers of which none is set.
fn reckon_course(alloc: Global, count: usize, course: &mut Course) -> Result<Needs, AllocError>
    ensures holds { IfOk result (λ needs. AreWithin (rooms_of needs) (nothing_held count) (prims_in course.old.left)) }
    ensures same { OnOk result (course.new ≡ record course.old { left = course.new.left }) }
{
    let mut reckoning = Reckoning::new(alloc, count)?;
    reckon_all(course, &mut reckoning)?;
    reckoning.within_law();
    Ok(reckoning.needs())
}

/// Computes the needs of all that is left.
fn reckon_all(course: &mut Course, reckoning: &mut Reckoning) -> Result<(), AllocError>
    ensures holds { OnOk result (HoldsBefore reckoning.new.most reckoning.old.lengths (prims_in course.old.left)
        reckoning.new.lengths []) }
    ensures same { OnOk result (course.new ≡ record course.old { left = course.new.left }) }
{
    reckon_prims(course, reckoning)?;
    while course.is_at_end() {
        reckon_pass(course, reckoning)?;
    }
    Ok(())
}

/// Computes the needs up to the next end of a pass. If that pass changed no length, further passes of the same primitives are
/// skipped.
fn reckon_pass(course: &mut Course, reckoning: &mut Reckoning) -> Result<(), AllocError>
    requires { is_end (slice_get course.old.left 0) ≡ true }
    ensures holds { OnOk result (HoldsBefore reckoning.new.most reckoning.old.lengths (prims_in course.old.left)
        reckoning.new.lengths (prims_in course.new.left)) }
    ensures wider { OnOk result (IsWider reckoning.old.most reckoning.new.most) }
    ensures less { OnOk result (length course.new.left < length course.old.left) }
    ensures stands { OnOk result (prim_of (slice_get course.new.left 0) ≡ None) }
    ensures same { OnOk result (course.new ≡ record course.old { left = course.new.left }) }
{
    let passes = course.passes();
    let folded = reckoning.lengths().accumulator();
    let taken = reckoning.lengths().received();
    course.advance();
    let kept = reckon_prims(course, reckoning)?;
    if !is_quiet(passes, kept, reckoning.lengths(), folded, taken) {
        return Ok(());
    }
    course.leave();
    Ok(())
}

/// Whether the passes that are left can be skipped: there are some, and the last one printed nothing and kept the lengths of
/// registers and work buffers.
fn is_quiet(passes: u32, kept: bool, lengths: &Lengths, folded: Length, taken: Length) -> bool
    ensures passes { result ≡ true → 1 < passes }
    ensures kept { result ≡ true → kept ≡ true }
    ensures folded { result ≡ true → lengths.now.accumulator ≡ folded }
    ensures taken { result ≡ true → lengths.now.received ≡ taken }
{
    if passes < 2 || !kept {
        return false;
    }
    lengths.accumulator().get() == folded.get() && lengths.received().get() == taken.get()
}

/// Computes the needs up to the next end of a pass, or to the end. Returns whether the lengths of the registers stayed and
/// nothing was printed.
fn reckon_prims(course: &mut Course, reckoning: &mut Reckoning) -> Result<bool, AllocError>
    ensures batch { OnOk result (IsBatch reckoning.new.most reckoning.old.lengths reckoning.new.lengths
        course.old.left course.new.left) }
    ensures wider { OnOk result (IsWider reckoning.old.most reckoning.new.most) }
    ensures kept { IfOk result (λ kept. kept ≡ true → KeepsRegisters reckoning.old.lengths reckoning.new.lengths) }
    ensures stands { OnOk result (prim_of (slice_get course.new.left 0) ≡ None) }
    ensures same { OnOk result (course.new ≡ record course.old { left = course.new.left }) }
{
    let mut kept = true;
    while let Some(prim) = course.front() {
        reckoning.within_law();
        kept &= reckoning.lengths().keeps(&prim.action);
        reckoning.go(&prim.action)?;
        course.advance();
    }
    Ok(kept)
}
