//! The flags of a barrier: where they lie.

ghost use Rattle.std.specs.Prelude.{◌≡◌, ◌≢◌, ◌<◌};
ghost use Rattle.scc_base.specs.Setups.{IsMemberAt, IsSetup, size_of};
ghost use Rattle.scc_base.specs.Communicators.{rule_of};
ghost use Rattle.scc_base.specs.declared.communicators.CommRule.TheVariants.{Absent};
ghost use Rattle.barrier.specs.Flags.{gather_word, release_word, member_at};

use scc_base::{Place, Rank};
use scc_proto::Port;

/// Does nothing. It tells a proof that the port's setup is one that a run may have.
pub(crate) fn known<P: Port>(port: &P)
    ensures valid { IsSetup (P.sight port.now).seat.setup }
{
    let _ = port.setup().nue();
}

/// The gather flag at a rank.
pub(crate) fn gather_flag<P: Port>(port: &P, comm: u8, r: Rank) -> Place
    requires comm_below { comm < 16 }
    requires below { r < (P.sight port.now).seat.setup.nue }
    ensures gives { result ≡ gather_word (P.sight port.now).seat comm r }
{
    let setup = port.setup();
    setup.layout().gather(comm).place(setup.core_of(r))
}

/// The release flag at a rank.
pub(crate) fn release_flag<P: Port>(port: &P, comm: u8, r: Rank) -> Place
    requires comm_below { comm < 16 }
    requires below { r < (P.sight port.now).seat.setup.nue }
    ensures gives { result ≡ release_word (P.sight port.now).seat comm r }
{
    let setup = port.setup();
    setup.layout().release(comm).place(setup.core_of(r))
}

/// The member at a place of the own group.
pub(crate) fn member<P: Port>(port: &P, comm: u8, place: u8) -> Rank
    requires comm_below { comm < 16 }
    requires present { rule_of (P.sight port.now).seat.setup.comms comm ≢ Absent }
    requires place_below { place < size_of (P.sight port.now).seat.setup comm (P.sight port.now).seat.rank }
    ensures gives { result ≡ member_at (P.sight port.now).seat.setup comm (P.sight port.now).seat.rank place }
    ensures placed { IsMemberAt (P.sight port.now).seat.setup comm (P.sight port.now).seat.rank place result }
{
    match port.setup().member(comm, port.rank(), place) {
        Some(member) => member,
        None => unreachable!(),
    }
}
