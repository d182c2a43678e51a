//! Where the words of a message lie.

ghost use Rattle.std.specs.Prelude.{◌≡◌, ◌<◌};
ghost use Rattle.scc_base.specs.Setups.{IsSetup, host_of};
ghost use Rattle.scc_proto.specs.Ports.{IsSoundPort};

use scc_base::{CoreId, Layout, Rank};
use scc_proto::Port;

/// Does nothing. It tells a proof that the setup is one that a run may have, and that the port's record is
/// sound.
#[inline(always)]
pub(crate) fn known<P: Port>(port: &P)
    ensures valid { IsSetup (P.sight port.now).seat.setup }
    ensures sound { IsSoundPort (P.sight port.now) }
{
    let _ = port.setup().nue();
    let _ = port.rank();
}

/// The core of the port's own rank.
#[inline(always)]
pub(crate) fn own_core<P: Port>(port: &P) -> CoreId
    ensures gives { result ≡ host_of (P.sight port.now).seat.setup.hosts (P.sight port.now).seat.rank }
{
    port.setup().core_of(port.rank())
}

/// The core of a rank.
#[inline(always)]
pub(crate) fn core_of<P: Port>(port: &P, rank: Rank) -> CoreId
    requires below { rank < (P.sight port.now).seat.setup.nue }
    ensures gives { result ≡ host_of (P.sight port.now).seat.setup.hosts rank }
{
    port.setup().core_of(rank)
}

/// The layout of the port's setup.
#[inline(always)]
pub(crate) fn layout_of<P: Port>(port: &P) -> Layout
    ensures gives { result ≡ (P.sight port.now).seat.setup.layout }
{
    port.setup().layout()
}
