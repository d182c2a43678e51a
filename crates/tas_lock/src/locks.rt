//! Taking and freeing a register.

ghost use Rattle.std.specs.Prelude.{◌≡◌, [], ◌∷◌, IfSome, is_some};
ghost use Rattle.scc_base.specs.Events.{take_of, free_of};
ghost use Rattle.scc_proto.specs.Ports.{Did, record_in};
ghost use Rattle.tas_lock.specs.Holds.{IsHolding, IsNotHolding, after_try, record_after_release};

use scc_base::CoreId;
use scc_proto::Port;
use std::marker::Model;

/// A register that was taken. Only `release` ends it, so no path of a program can forget to free the
/// register.
///
/// It is seen as the number of the register's core.
pub struct Held {
    core: CoreId,
}

impl Model for Held {
    ghost use Rattle.std.specs.Prelude.{ℕ};

    ghost Value = { ℕ };

    ghost view = { λ h. h.core };
}

impl Held {
    ghost use Rattle.std.specs.Prelude.{◌≡◌};

    /// The core whose register it is.
    pub fn core(&self) -> CoreId
        ensures gives { result ≡ self.now }
    {
        self.core
    }
}

/// Tries once to take a core's register. None tells that another rank has it.
pub fn try_acquire<P: Port>(port: &mut P, c: CoreId) -> Option<Held>
    requires not_held { IsNotHolding (record_in (P.sight port.old)) c }
    ensures takes { Did (P.sight port.old) (take_of c (is_some result) ∷ []) (P.sight port.new) }
    ensures names { IfSome result (λ held. held ≡ c) }
    ensures holds { record_in (P.sight port.new) ≡ after_try c (is_some result) (record_in (P.sight port.old)) }
    ensures step { P.stepped (P.sight port.old).seat (P.sight port.old).events (take_of c (is_some result)) }
{
    if port.take(c) {
        Some(Held { core: c })
    } else {
        None
    }
}

/// Frees a register that was taken.
pub fn release<P: Port>(port: &mut P, held: Held)
    requires held { IsHolding (record_in (P.sight port.old)) held }
    ensures frees { Did (P.sight port.old) (free_of held ∷ []) (P.sight port.new) }
    ensures holds { record_in (P.sight port.new) ≡ record_after_release held (record_in (P.sight port.old)) }
    ensures step { P.stepped (P.sight port.old).seat (P.sight port.old).events (free_of held) }
    ensures freed { IsNotHolding (record_in (P.sight port.new)) held }
{
    let Held { core } = held;
    port.free(core);
}
