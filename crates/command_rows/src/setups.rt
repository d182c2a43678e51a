//! What the launcher's words set on the chip of a run: its flags, and the core of each rank.

use crate::cases::{FOUR_BYTES, words_of};
use chip_run::Open;
use rcce_io::{MemFiles, MemSink};
use run_program::rccerun;
use scc_base::Rank;
use scc_mesh::Chip;
use std::alloc::{AllocError, Global};
use std::process::Abort;
use std::thread::Threads;

/// Words, whether they ask for bit flags, and the cores of two ranks.
type Row = (&'static [&'static str], bool, u8, u8);

const ROWS: &[Row] = &[
    (&["-nue", "2", "s"], false, 0, 1),
    (&["-nue", "2", "-bits", "s"], true, 0, 1),
    (&["-nue", "2", "-f", "h", "s"], false, 5, 47),
    (&["-bits", "-f", "h", "-nue", "2", "s"], true, 5, 47),
    (&["-nue", "2", "-gen", "3"], false, 0, 1),
];

/// The chip of a run with these words.
fn chip_of<R: Threads + Sync>(rt: &R, alloc: Global, texts: &[&str]) -> Result<Chip, AllocError> {
    let words = words_of(alloc, texts)?;
    let mut files = MemFiles::new(alloc);
    files.add("h", b"5\nrck47\n")?;
    files.add("s", FOUR_BYTES)?;
    let mut out = MemSink::new(alloc, 64, 64)?;
    let mut err = MemSink::new(alloc, 64, 64)?;
    let mut chip = Chip::blank();
    rccerun(
        rt,
        alloc,
        words.as_slice(),
        &mut files,
        &mut out,
        &mut err,
        &mut chip,
        &Open,
    );
    Ok(chip)
}

/// Whether a chip is open for two ranks with these flags, each on its core.
fn is_set_up(chip: &Chip, bits: bool, first: u8, second: u8) -> bool {
    if !chip.is_open() {
        return false;
    }
    let setup = chip.setup();
    setup.nue() == 2
        && setup.layout().is_bits() == bits
        && setup.core_of(Rank::of(0)).number() == first
        && setup.core_of(Rank::of(1)).number() == second
}

fn expect<R: Threads + Sync + Abort>(rt: &R, alloc: Global) -> Result<(), AllocError> {
    for (words, bits, first, second) in ROWS {
        let chip = chip_of(rt, alloc, words)?;
        assert!(rt; is_set_up(&chip, *bits, *first, *second));
    }
    Ok(())
}

#[test]
fn the_chip_is_set_up_as_the_words_ask(rt: HostRuntime) -> Result<(), AllocError> {
    expect(&rt, rt.alloc())
}
