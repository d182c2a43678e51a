//! The port that is lent to a station's calls.

ghost use Rattle.std.specs.Prelude.{◌<◌};
ghost use Rattle.scc_base.specs.Setups.{IsSetup};

use scc_proto::Port;

/// Does nothing. It tells a proof that the port's setup is one that a run may have, and that its rank is one of the run's.
pub(crate) fn known<P: Port>(port: &P)
    ensures valid { IsSetup (P.sight port.now).seat.setup }
    ensures below { (P.sight port.now).seat.rank < (P.sight port.now).seat.setup.nue }
{
    let _ = port.setup().nue();
    let _ = port.rank();
}
