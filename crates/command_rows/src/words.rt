//! What no run of the launcher shows about its words and the host file: the seeds, the layout, and which cores the hosts are.

use crate::cases::words_of;
use rcce_words::{HostFault, HostKind, Job, Work, parse_words, read_hosts};
use std::alloc::Global;

/// Words, and what they ask for.
type Asked = (&'static [&'static str], Job);

const JOBS: &[Asked] = &[
    (
        &["-nue", "2", "s.rcce"],
        Job {
            nue: 2,
            hosts: None,
            evict: None,
            serial: None,
            bits: false,
            work: Work::Script(2),
        },
    ),
    (
        &[
            "-bits",
            "-nue",
            "2",
            "-f",
            "-gen",
            "-evict",
            "4294967295",
            "-serial",
            "00",
            "s",
        ],
        Job {
            nue: 2,
            hosts: Some(4),
            evict: Some(4_294_967_295),
            serial: Some(0),
            bits: true,
            work: Work::Script(9),
        },
    ),
];

/// Whether words ask for this.
fn ask_for(alloc: Global, row: &'static Asked) -> bool {
    let (texts, job) = row;
    match words_of(alloc, texts) {
        Ok(words) => parse_words(words.as_slice()) == Ok(*job),
        Err(_) => false,
    }
}

fn all_ask(alloc: Global) -> bool {
    for row in JOBS {
        if !ask_for(alloc, row) {
            return false;
        }
    }
    true
}

#[test]
fn what_the_words_ask_for(rt: HostRuntime) {
    assert!(rt; all_ask(rt.alloc()));
}

/// Host files for two ranks, and their cores.
const HOSTS: &[(&[u8], u8, u8)] = &[
    (b"5\nrck07\n", 5, 7),
    (b"5\nrck07", 5, 7),
    (b"\t 5 \r\n\n # none \xff\n0000000047#\x00", 5, 47),
    (b"0\n1\n2\n3\n", 0, 1),
    (b"rck0\nrck0000000001\n", 0, 1),
    (b"\n\n7\n\n6\n\n", 7, 6),
];

/// Whether a host file places two ranks on these cores, and all later ones on the first core.
fn are_hosts(bytes: &[u8], first: u8, second: u8) -> bool {
    match read_hosts(bytes, 2) {
        Ok(hosts) => {
            let mut two = [hosts[0]; 48];
            two[1] = hosts[1];
            hosts[0].number() == first && hosts[1].number() == second && hosts == two
        }
        Err(_) => false,
    }
}

fn all_are_hosts() -> bool {
    for (bytes, first, second) in HOSTS {
        if !are_hosts(bytes, *first, *second) {
            return false;
        }
    }
    true
}

#[test]
fn host_files(rt: HostRuntime) {
    assert!(rt; all_are_hosts());
}

const TOO_FEW: HostFault = HostFault {
    line: 65_537,
    kind: HostKind::TooFew,
};

const TOO_LONG: HostFault = HostFault {
    line: 0,
    kind: HostKind::TooLong,
};

/// Whether a host file for one rank that is one byte over and over has this fault.
fn is_fault(alloc: Global, byte: u8, len: usize, wanted: &HostFault) -> bool {
    match vec![in alloc; byte; len] {
        Ok(bytes) => read_hosts(&bytes, 1).err() == Some(*wanted),
        Err(_) => false,
    }
}

fn are_faults(alloc: Global) -> bool {
    is_fault(alloc, b'\n', 65_536, &TOO_FEW)
        && is_fault(alloc, b'\xff', 65_537, &TOO_LONG)
        && TOO_LONG.kind.name() == "TooLong"
}

#[test]
fn the_longest_host_file(rt: HostRuntime) {
    assert!(rt; are_faults(rt.alloc()));
}
