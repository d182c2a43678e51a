//! Many accesses through a port.

ghost use Rattle.std.specs.Prelude.{◌≡◌};
ghost use Rattle.scc_base.specs.Setups.{IsSetup, host_of};
ghost use Rattle.scc_proto.specs.IdlePorts.{IsIdle};
ghost use Rattle.steps_program.specs.declared.accesses.Kind.TheVariants.{Loads, Stores};
ghost use Rattle.steps_program.specs.Steps.{Stepped};

use scc_base::{CoreId, Place};
use scc_proto::Port;

const LINE: u8 = 240;

/// The kind of the accesses.
#[derive(Clone, Copy)]
pub enum Kind {
    Loads,
    Stores,
}

fn own_core<P: Port>(port: &P) -> CoreId
    ensures gives { result ≡ host_of (P.sight port.now).seat.setup.hosts (P.sight port.now).seat.rank }
    ensures valid { IsSetup (P.sight port.now).seat.setup }
{
    let setup = port.setup();
    let _nue = setup.nue();
    setup.core_of(port.rank())
}

// Loads the words of one heap line in rotation.
fn load_many<P: Port>(port: &mut P, count: u32)
    ensures stepped { Stepped (P.sight port.old) Loads count (P.sight port.new) }
{
    let core = own_core(port);
    'steps: for i in 0..count {
        port.load(Place::new(core, LINE, (i % 4) as u8));
    }
}

// Stores to the words of one heap line in rotation.
fn store_many<P: Port>(port: &mut P, count: u32)
    requires idle { IsIdle (P.sight port.old) }
    ensures stepped { Stepped (P.sight port.old) Stores count (P.sight port.new) }
{
    let core = own_core(port);
    let _rank = port.rank();
    'steps: for i in 0..count {
        port.store(Place::new(core, LINE, (i % 4) as u8), i as u64);
    }
}

/// Makes this many stores, or loads.
pub fn make_many<P: Port>(port: &mut P, kind: Kind, count: u32)
    requires idle { IsIdle (P.sight port.old) }
    ensures stepped { Stepped (P.sight port.old) kind count (P.sight port.new) }
{
    match kind {
        Kind::Loads => load_many(port, count),
        Kind::Stores => store_many(port, count),
    }
}
