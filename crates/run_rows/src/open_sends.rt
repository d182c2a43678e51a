//! What a run leaves in the chip's words if the receiver does not take a message.

ghost use Rattle.std.specs.Prelude.{◌≡◌, ◌<◌};
ghost use Rattle.scc_mesh.specs.Scenes.{IsNew};
ghost use Rattle.script_rules.specs.Script.{rules_of};

use crate::runs::{BOTH_MODES, crew_of};
use crate::scripts::{FOUR_BYTES, LAYOUTS, chip_with, setup_of};
use chip_run::{Mode, Open};
use line_cache::Never;
use rcce_run::run;
use scc_base::{Layout, Place, Rank, Setup, Signal};
use scc_mesh::Chip;
use scc_proto::Port;
use script_reader::read_script;
use script_rules::Scripts;
use std::alloc::{AllocError, Global};
use std::thread::Threads;

/// The words of an unfinished message of rank 0 to rank 1. They are the word of the flag `sent` at the core of rank 1, that of `ready` at
/// the core of rank 0, the header, and the first word of the bytes.
fn words_of<P: Port>(port: &mut P) -> [u64; 7]
    requires two { 1 < (P.sight port.old).seat.setup.nue }
{
    let setup = port.setup();
    let layout = setup.layout();
    let (sender, receiver) = (setup.core_of(Rank::of(0)), setup.core_of(Rank::of(1)));
    [
        port.load(layout.signal(Signal::Sent, Rank::of(0)).place(receiver)),
        port.load(layout.signal(Signal::Ready, Rank::of(1)).place(sender)),
        port.load(Place::new(sender, 0, 0)),
        port.load(Place::new(sender, 0, 1)),
        port.load(Place::new(sender, 0, 2)),
        port.load(Place::new(sender, 0, 3)),
        port.load(Place::new(sender, layout.first_chunk_line(), 0)),
    ]
}

/// The values of these words of a new chip after a run of a script for two ranks.
fn words_after<R: Threads + Sync>(
    rt: &R,
    alloc: Global,
    chip: &mut Chip,
    scripts: &Scripts,
    setup: &Setup,
    mode: Mode,
) -> Result<[u64; 7], AllocError>
    requires new { IsNew setup.now chip.old }
    requires two { setup.now.nue ≡ 2 }
    requires ranks { setup.now.nue ≡ scripts.now.nue }
    requires communicators { setup.now.comms ≡ rules_of scripts.now.items }
{
    let mut crew = crew_of(alloc, scripts, setup, &Never)?;
    run(rt, chip, crew.as_mut_slice(), mode, &Open);
    chip.known();
    Ok(words_of(&mut chip.port(Rank::of(0))))
}

/// Whether it leaves these words in this layout and mode.
fn leaves_in<R: Threads + Sync>(
    rt: &R,
    alloc: Global,
    scripts: &Scripts,
    layout: Layout,
    mode: Mode,
    words: [u64; 7],
) -> bool
    requires two { scripts.now.nue ≡ 2 }
{
    let Some(setup) = setup_of(scripts, layout, true) else {
        return false;
    };
    match chip_with(alloc, &setup) {
        Ok(mut chip) => matches!(
            words_after(rt, alloc, &mut chip, scripts, &setup, mode),
            Ok(left) if left == words
        ),
        Err(_) => false,
    }
}

/// Whether a script for two ranks leaves these words in both layouts and modes.
fn leaves<R: Threads + Sync>(rt: &R, alloc: Global, text: &[u8], words: [u64; 7]) -> bool {
    let Ok(scripts) = read_script(alloc, text, 2) else {
        return false;
    };
    for layout in LAYOUTS {
        for mode in BOTH_MODES {
            if !leaves_in(rt, alloc, &scripts, *layout, *mode, words) {
                return false;
            }
        }
    }
    true
}

/// The header of a plain message of four bytes, and its bytes as a word.
const TAKEN: [u64; 7] = [0, 0, 0, 0, 4, 0, 0x0403_0201];

/// The same with the flag `sent` raised.
const OPEN: [u64; 7] = [1, 0, 0, 0, 4, 0, 0x0403_0201];

#[test]
fn a_send_that_was_received_is_not_open_on_the_chip(rt: HostRuntime) {
    assert!(rt; leaves(&rt, rt.alloc(), FOUR_BYTES, TAKEN));
}

const NEVER_RECEIVED: &[u8] = b"ue 0\nbytes x 01020304\nsend 1 x\nue 1\nbytes y 05\n";

#[test]
fn a_send_that_is_never_received_is_open_on_the_chip(rt: HostRuntime) {
    assert!(rt; leaves(&rt, rt.alloc(), NEVER_RECEIVED, OPEN));
}

const OF_ANOTHER_LENGTH: &[u8] = b"ue 0\nbytes x 01020304\nsend 1 x\nue 1\nrecv 0 y 3\n";

#[test]
fn a_send_that_is_refused_is_open_on_the_chip(rt: HostRuntime) {
    assert!(rt; leaves(&rt, rt.alloc(), OF_ANOTHER_LENGTH, OPEN));
}
