//! The rank whose calls are made.

ghost use Rattle.std.specs.Prelude.{◌<◌, ◌≤◌};

use scc_proto::Port;

/// Does nothing. It tells a proof that the port's rank is one of at most 48.
pub(crate) fn known<P: Port>(port: &P)
    ensures few { (P.sight port.now).seat.setup.nue ≤ 48 }
    ensures low { (P.sight port.now).seat.rank < (P.sight port.now).seat.setup.nue }
{
    let _ = port.setup().nue();
    let _ = port.rank();
}
