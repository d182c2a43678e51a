//! A register can be taken, and it can be taken again after its release.

ghost use Rattle.scc_proto.specs.Ports.{record_in};
ghost use Rattle.tas_lock.specs.Holds.{IsNotHolding};

use crate::listed_ports::listed_port;
use scc_base::CoreId;
use scc_proto::Port;
use tas_lock::{release, try_acquire};

/// Whether the register could be taken. It is freed again.
fn could_take<P: Port>(port: &mut P, core: CoreId) -> bool
    requires { IsNotHolding (record_in (P.sight port.old)) core }
    ensures { IsNotHolding (record_in (P.sight port.new)) core }
{
    match try_acquire(port, core) {
        Some(held) => {
            release(port, held);
            true
        }
        None => false,
    }
}

#[test]
fn a_taken_register_is_taken_after_its_release(rt: HostRuntime) {
    let mut port = listed_port(&rt, rt.alloc());
    let core = CoreId::of(5);
    port.taken[5] = true;
    assert!(rt; !could_take(&mut port, core) && port.events.len() == 1);
    port.taken[5] = false;
    assert!(rt; could_take(&mut port, core) && port.events.len() == 3 && !port.taken[5]);
}
