//! Laws of UEs: each is a function that does nothing and ensures it.

ghost use Rattle.std.specs.Prelude.{◌≡◌, ℕ};
ghost use base.Stored.{Gv};
ghost use Rattle.scc_proto.specs.Ports.{Sight};
ghost use Rattle.sync_flags.specs.Turns.{at_port};
ghost use Rattle.barrier.specs.Stages.{IsBetweenBarriers};
ghost use Rattle.rcce_ue.specs.Standing.{IsFree, OwnState, Tied, keeping};
ghost use Rattle.rcce_ue.specs.Ues.{UeView};
ghost use Rattle.rcce_ue.specs.declared.calls.Open.TheVariants.{Nothing};

/// A UE that fits a port fits every port of its rank: the same setup, rank and events.
pub fn other_port_law()
    ensures law { (s : Sight) (mark rest : Gv) (hold : ℕ) (ue : UeView) → Tied ue s → Tied ue (at_port s mark rest hold) }
{}

/// A UE that fits a port and has no call open leaves its rank free. At a free rank any message can begin (`messages`
/// of `IsFree`), and any barrier.
pub fn free_law()
    ensures ue { (s : Sight) (ue : UeView) → Tied ue s → ue.op ≡ Nothing → IsFree s (keeping ue.core ue.slot ue.parity) }
    ensures barrier { (s : Sight) (own : OwnState) → IsFree s own → IsBetweenBarriers s own.core own.parity }
{}
