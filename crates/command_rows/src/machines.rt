//! What runs of scripts cannot show: a machine by itself.

use scc_base::Rank;
use script_machine::Machine;
use script_plain::setup_of;
use script_reader::read_script;
use script_rules::Scripts;
use std::alloc::Global;

/// Takes at most 100 steps of a machine, until it pauses.
fn go_on(machine: &mut Machine<'_>) {
    for _ in 0..100 {
        if machine.is_going() {
            machine.go();
        }
    }
}

/// Whether a machine continues until it has printed these items.
fn goes_on_to(machine: &mut Machine<'_>, wanted: &[&[u8]]) -> bool {
    go_on(machine);
    if machine.items() != wanted.len() {
        return false;
    }
    for i in 0..wanted.len() {
        if machine.item(i).bytes() != wanted[i] {
            return false;
        }
    }
    true
}

/// Whether the machine of rank 0 runs a script by itself and prints these items.
fn prints(alloc: Global, scripts: &Scripts, wanted: &[&[u8]]) -> bool {
    match Machine::new(alloc, scripts, setup_of(scripts), Rank::of(0)) {
        Ok(mut machine) => goes_on_to(&mut machine, wanted),
        Err(_) => false,
    }
}

/// Whether it does so with this script for one rank.
fn text_prints(alloc: Global, text: &[u8], wanted: &[&[u8]]) -> bool {
    match read_script(alloc, text, 1) {
        Ok(scripts) => prints(alloc, &scripts, wanted),
        Err(_) => false,
    }
}

const SUMS: &[u8] = b"all\nints x 3\nrepeat 2\napply sum int x x\nprint int x\nend\n";

const PRINTED: &[&[u8]] = &[&[6, 0, 0, 0], &[12, 0, 0, 0]];

#[test]
fn a_machine_goes_through_a_script_by_itself(rt: HostRuntime) {
    assert!(rt; text_prints(rt.alloc(), SUMS, PRINTED));
}
