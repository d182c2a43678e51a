//! Looks at flags and changes of them, in both layouts.

ghost use Rattle.std.specs.Prelude.{◌≡◌, ◌<◌, false, None, IfSome, is_none};
ghost use Rattle.put_get.specs.Cores.{MadeSteps};
ghost use Rattle.send_recv.specs.Batches.{changes_at_once};
ghost use Rattle.send_recv.specs.Sights.{IsSeatPeer, LooksFor, Lowers, Raises, MayLower, MayRaise, signal_spot, own_register, register_spot};

use crate::places::{core_of, layout_of, own_core};
use line_cache::Evict;
use put_get::Core;
use scc_base::{Layout, Rank, Signal, Spot};
use scc_proto::Port;
use sync_flags::{change_flag, look_flag};

/// Whether a change of a flag makes no try: with line flags it is a store, and with bit flags it takes a register first.
#[inline(always)]
pub(crate) fn changes_at_once(layout: Layout) -> bool
    ensures { result ≡ changes_at_once layout }
{
    match layout {
        Layout::LineFlags => true,
        Layout::BitFlags => false,
    }
}

/// Looks at the own flag of a signal that this rank raises, in one turn: None where it is set, and else the spot at
/// which the turn waits.
#[inline(always)]
pub(crate) fn look_for<V: Evict, P: Port>(
    core: &mut Core<V>,
    port: &mut P,
    signal: Signal,
    by: Rank,
) -> Option<Spot>
    requires empty { core.old.out ≡ None }
    ensures looks { LooksFor signal (P.sight port.old) core.old by (is_none result) (P.sight port.new) core.new }
    ensures waits { IfSome result (λ spot. spot ≡ signal_spot signal (P.sight port.old) by) }
    ensures steps { MadeSteps P.stepped (P.sight port.old) (P.sight port.new) }
{
    let own = own_core(port);
    let flag = layout_of(port).signal(signal, by);
    if look_flag(core, port, flag.place(own), flag.bit_number()) {
        None
    } else {
        Some(Spot::Flag {
            place: flag.place(own),
            bit: flag.bit_number().unwrap_or(0),
        })
    }
}

/// Lowers the own flag of a signal that this rank raised, in one turn: None where it did, and else the spot at which the
/// turn waits, which is the register of the own core.
#[inline(always)]
pub(crate) fn lower<V: Evict, P: Port>(
    core: &mut Core<V>,
    port: &mut P,
    signal: Signal,
    by: Rank,
) -> Option<Spot>
    requires may { MayLower signal (P.sight port.old) core.old by }
    ensures changes { Lowers signal (P.sight port.old) core.old by (is_none result) (P.sight port.new) core.new }
    ensures waits { IfSome result (λ spot. spot ≡ own_register (P.sight port.old)) }
    ensures steps { is_none result ≡ false → MadeSteps P.stepped (P.sight port.old) (P.sight port.new) }
{
    let own = own_core(port);
    let flag = layout_of(port).signal(signal, by);
    if change_flag(core, port, flag.place(own), flag.bit_number(), false) {
        None
    } else {
        Some(Spot::Register { core: own })
    }
}

/// Raises the flag of a signal at this rank, in one turn: None where it did, and else the spot at which the turn waits,
/// which is the register of that rank's core.
#[inline(always)]
pub(crate) fn raise<V: Evict, P: Port>(
    core: &mut Core<V>,
    port: &mut P,
    signal: Signal,
    at: Rank,
) -> Option<Spot>
    requires peers { IsSeatPeer (P.sight port.old) at }
    requires may { MayRaise signal (P.sight port.old) core.old at }
    ensures changes { Raises signal (P.sight port.old) core.old at (is_none result) (P.sight port.new) core.new }
    ensures waits { IfSome result (λ spot. spot ≡ register_spot (P.sight port.old) at) }
    ensures steps { is_none result ≡ false → MadeSteps P.stepped (P.sight port.old) (P.sight port.new) }
{
    let other = core_of(port, at);
    let flag = layout_of(port).signal(signal, port.rank());
    if change_flag(core, port, flag.place(other), flag.bit_number(), true) {
        None
    } else {
        Some(Spot::Register { core: other })
    }
}
