//! The actions of the core that runs.

ghost use Rattle.std.specs.Prelude.{◌≡◌, IfOk, OnOk, Some};
ghost use Rattle.lab_plain.specs.Meaning.{act_stop, after_action, unmet_line, unmet_word};
ghost use Rattle.lab_run.specs.Turns.{MayGoOn, CoreTurned, scene_of};

use crate::evictor::Named;
use crate::moves::{flush, get, own, put, write_line, write_word};
use crate::prints::print;
use crate::reads::{read_line, read_word};
use crate::singles::{load, store};
use chip_memory::TurnChip;
use lab_plain::{Said, Stopped};
use lab_reader::{Action, HeapLine, HeapWord};
use put_get::Core;
use std::alloc::AllocError;

/// Why a lab stops at a read that returned this value, if it does.
fn check_word(line: u32, at: HeapWord, came: u64, expect: Option<u64>) -> Option<Stopped>
    ensures { result ≡ unmet_word line at came expect }
{
    match expect {
        Some(expected) => {
            if came == expected {
                None
            } else {
                Some(Stopped::Value {
                    line,
                    at: at.place(),
                    came,
                    expected,
                })
            }
        }
        None => None,
    }
}

/// Why a lab stops at the first word of a line that differs from the expected one, if there is one.
fn check_words(line: u32, at: HeapLine, came: &[u64; 4], expected: &[u64; 4]) -> Option<Stopped>
    ensures { result ≡ unmet_line line at came.now (Some expected.now) }
{
    if came[0] != expected[0] {
        check_word(line, at.word(0), came[0], Some(expected[0]))
    } else if came[1] != expected[1] {
        check_word(line, at.word(1), came[1], Some(expected[1]))
    } else if came[2] != expected[2] {
        check_word(line, at.word(2), came[2], Some(expected[2]))
    } else {
        check_word(line, at.word(3), came[3], Some(expected[3]))
    }
}

/// Why a lab stops at a read of a line, if it does.
fn check_line(
    line: u32,
    at: HeapLine,
    came: &[u64; 4],
    expect: &Option<[u64; 4]>,
) -> Option<Stopped>
    ensures { result ≡ unmet_line line at came.now expect.now }
{
    match expect {
        Some(expected) => check_words(line, at, came, expected),
        None => None,
    }
}

/// The core that runs does an action. Returns why the lab stops there, if it does. (`registers` has the reads of registers.)
pub(crate) fn act(
    core: &mut Core<Named>,
    chip: &mut TurnChip,
    said: &mut Vec<Said>,
    line: u32,
    action: &Action,
) -> Result<Option<Stopped>, AllocError>
    requires ready { MayGoOn core.old chip.old }
    ensures turned { OnOk result (CoreTurned (after_action chip.old.rank action.now)
        core.old chip.old said.old.items core.new chip.new said.new.items) }
    ensures stop { IfOk result (λ stop. stop ≡ act_stop line chip.old.rank action.now (scene_of core.old chip.old said.old.items)) }
{
    match action {
        Action::WriteWord { at, value } => {
            write_word(core, chip, said, *at, *value)?;
            Ok(None)
        }
        Action::WriteLine { at, words } => {
            write_line(core, chip, said, *at, words)?;
            Ok(None)
        }
        Action::ReadWord { at, evict, expect } => {
            let came = read_word(core, chip, said, *at, evict)?;
            Ok(check_word(line, *at, came, *expect))
        }
        Action::ReadLine { at, evict, expect } => {
            let came = read_line(core, chip, said, *at, evict)?;
            Ok(check_line(line, *at, &came, expect))
        }
        Action::Flush => {
            flush(core, chip, said)?;
            Ok(None)
        }
        Action::Invalidate => {
            core.cl1invmb();
            Ok(None)
        }
        Action::Put { at, words } => {
            put(core, chip, said, *at, words)?;
            Ok(None)
        }
        Action::Get { at, expect } => {
            let came = get(core, chip, said, *at)?;
            Ok(check_line(line, *at, &came, expect))
        }
        Action::Load { at, expect } => {
            let came = load(core, chip, said, *at)?;
            Ok(check_word(line, *at, came, *expect))
        }
        Action::Store { at, value } => {
            store(core, chip, said, *at, *value)?;
            Ok(None)
        }
        Action::Print => {
            print(said, own(chip), core)?;
            Ok(None)
        }
        Action::Take { .. } | Action::Free { .. } => Ok(None),
    }
}
