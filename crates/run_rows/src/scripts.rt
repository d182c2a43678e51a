//! What the tests of scripts share: a setup and a chip for a script, and the results of a rank's unit of execution.

ghost use Rattle.std.specs.Prelude.{◌≡◌, IfOk, IfSome};
ghost use Rattle.scc_mesh.specs.Scenes.{IsNew, about_in};
ghost use Rattle.script_rules.specs.Script.{rules_of};

use line_cache::Evict;
use rcce_ue::Ue;
use scc_base::{CoreId, Layout, Setup};
use scc_mesh::Chip;
use script_machine::UeEnd;
use script_rules::Scripts;
use std::alloc::{AllocError, Global};

/// Rank 0 sends four bytes to rank 1, which prints them.
pub(crate) const FOUR_BYTES: &[u8] =
    b"ue 0\nbytes x 01020304\nsend 1 x\nue 1\nrecv 0 y 4\nprint y\n";

/// Both layouts.
pub(crate) const LAYOUTS: &[Layout] = &[Layout::LineFlags, Layout::BitFlags];

/// The setup of a script, on cores 0 and up, or from the highest core down.
pub(crate) fn setup_of(scripts: &Scripts, layout: Layout, downwards: bool) -> Option<Setup>
    ensures layout { IfSome result (λ s. s.layout ≡ layout) }
    ensures ranks { IfSome result (λ s. s.nue ≡ scripts.now.nue) }
    ensures communicators { IfSome result (λ s. s.comms ≡ rules_of scripts.now.items) }
{
    let mut cores = [CoreId::of(0); 48];
    for number in 0..48 {
        let core = if downwards { 47 - number } else { number };
        cores[number] = CoreId::of(core as u8);
    }
    Setup::new(scripts.nue(), layout, cores, scripts.comm_rules())
}

/// A new chip with this setup.
pub(crate) fn chip_with(alloc: Global, setup: &Setup) -> Result<Chip, AllocError>
    ensures new { IfOk result (λ chip. IsNew setup.now chip) }
    ensures here { IfOk result (λ chip. IsNew (about_in chip) chip) }
{
    let mut chip = Chip::blank();
    chip.open(alloc, setup.copy())?;
    Ok(chip)
}

/// How a rank ends, and at which line.
#[derive(Clone, Copy)]
pub(crate) enum End {
    Finished,
    Waits(u32),
    Mismatch(u32),
}

/// Whether a UE has this end.
pub(crate) fn is_at<V: Evict>(ue: &Ue<'_, V>, end: &End) -> bool {
    if !ue.is_pausing() {
        return false;
    }
    match ue.end() {
        UeEnd::Finished => matches!(end, End::Finished),
        UeEnd::Waits { line, .. } => matches!(end, End::Waits(at) if *at == line),
        UeEnd::Mismatch { line, .. } => matches!(end, End::Mismatch(at) if *at == line),
    }
}

/// Whether a UE has printed these items.
pub(crate) fn has_printed<V: Evict>(ue: &Ue<'_, V>, wanted: &[&[u8]]) -> bool {
    if ue.items() != wanted.len() {
        return false;
    }
    for i in 0..wanted.len() {
        if ue.item(i).bytes() != wanted[i] {
            return false;
        }
    }
    true
}
