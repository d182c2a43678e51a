//! Scripts at their largest: names, bytes, and messages.

use script_plain::plain_matches;
use script_reader::{ReadFault, ReadStop, read_script};
use script_rules::FaultKind;
use std::alloc::{AllocError, Global};

/// Whether a file for one rank is accepted, if no fault is wanted, or else rejected with this one.
fn is_judged(alloc: Global, bytes: &[u8], wanted: &Option<ReadFault>) -> bool {
    match read_script(alloc, bytes, 1) {
        Ok(_) => wanted.is_none(),
        Err(ReadStop::Fault(fault)) => *wanted == Some(fault),
        Err(ReadStop::Memory) => false,
    }
}

/// A script that names `count` registers, and has these statements after them.
fn naming(alloc: Global, count: u8, more: &[u8]) -> Result<Vec<u8>, AllocError> {
    let mut bytes = Vec::from_slice(alloc, b"all\n")?;
    for i in 0..count {
        let mut line = *b"bytes n00 -\n";
        line[7] += i / 10;
        line[8] += i % 10;
        bytes.extend_from_slice(&line)?;
    }
    bytes.extend_from_slice(more)?;
    Ok(bytes)
}

/// How many registers a file names, the statements after them, and its first fault, if it has one.
type Names = (u8, &'static [u8], Option<ReadFault>);

const NAMES: &[Names] = &[
    (64, b"", None),
    (
        64,
        b"fill n64 65537 0\n",
        Some(ReadFault {
            line: 66,
            kind: FaultKind::TooLong,
        }),
    ),
    (
        65,
        b"",
        Some(ReadFault {
            line: 66,
            kind: FaultKind::TooManyNames,
        }),
    ),
];

/// Whether a file that names registers is judged so.
fn names_are_judged(alloc: Global, row: &Names) -> bool {
    let (count, more, wanted) = row;
    match naming(alloc, *count, more) {
        Ok(bytes) => is_judged(alloc, bytes.as_slice(), wanted),
        Err(_) => false,
    }
}

#[test]
fn a_file_names_64_registers(rt: HostRuntime) {
    for row in NAMES {
        assert!(rt; names_are_judged(rt.alloc(), row));
    }
}

/// How many bytes a file of empty lines has, and its first fault, if it has one.
const SIZES: &[(usize, Option<ReadFault>)] = &[
    (4_194_304, None),
    (
        4_194_305,
        Some(ReadFault {
            line: 0,
            kind: FaultKind::TooLong,
        }),
    ),
];

/// Whether a file of `count` empty lines is judged so.
fn lines_are_judged(alloc: Global, count: usize, wanted: &Option<ReadFault>) -> bool {
    match vec![in alloc; b'\n'; count] {
        Ok(bytes) => is_judged(alloc, bytes.as_slice(), wanted),
        Err(_) => false,
    }
}

#[test]
fn a_file_has_4194304_bytes(rt: HostRuntime) {
    for (count, wanted) in SIZES {
        assert!(rt; lines_are_judged(rt.alloc(), *count, wanted));
    }
}

/// A script in which each even rank sends 9,801 messages.
const BUSY: &[u8] =
    b"even\nbytes x 00\nrepeat 99\nrepeat 99\nsend +1 x\nend\nend\nodd\nrepeat 99\nrepeat 99\nrecv -1 y 1\nend\nend\n";

/// Whether this script for 48 ranks has `count` messages.
fn has_messages(alloc: Global, text: &[u8], count: usize) -> bool {
    let Ok(scripts) = read_script(alloc, text, 48) else {
        return false;
    };
    match plain_matches(alloc, &scripts) {
        Ok(matches) => matches.len() == count,
        Err(_) => false,
    }
}

#[test]
fn memory_suffices_for_many_messages(rt: HostRuntime) {
    assert!(rt; has_messages(rt.alloc(), BUSY, 24 * 99 * 99));
}
