//! Looks at flags.

ghost use Rattle.std.specs.Prelude.{◌≡◌, ◌<◌, ◌≤◌, ◌↔◌, List, None, IsErr, IfSome};
ghost use Rattle.scc_base.specs.declared.events.Event.{Event};
ghost use Rattle.scc_proto.specs.Ports.{Did};
ghost use Rattle.put_get.specs.Cores.{MadeSteps};
ghost use Rattle.sync_flags.specs.Flags.{flag_of};
ghost use Rattle.sync_flags.specs.Tries.{AtFlag, TryFailed};
ghost use Rattle.sync_flags.specs.Looks.{LooksAt, ReadsFlag, WaitsFor};

use crate::flags::{is_set_in, spot_of_flag};
use line_cache::Evict;
use put_get::Core;
use scc_base::{FlagAt, Place, Rank, Stalled};
use scc_proto::Port;

/// Looks at a word. The cached lines are dropped first, so the answer is a load's of this call.
#[inline(always)]
pub fn look_word<V: Evict, P: Port>(core: &mut Core<V>, port: &mut P, place: Place) -> u64
    requires empty { core.old.out ≡ None }
    ensures looks { LooksAt (P.sight port.old) core.old place result (P.sight port.new) core.new }
    ensures empty { core.new.out ≡ None }
    ensures steps { MadeSteps P.stepped (P.sight port.old) (P.sight port.new) }
{
    core.fresh_word(port, place)
}

/// Whether the flag is set that is this word, or this bit of it, by one look. The cached lines are dropped first.
#[inline(always)]
pub fn look_flag<V: Evict, P: Port>(
    core: &mut Core<V>,
    port: &mut P,
    place: Place,
    bit: Option<u8>,
) -> bool
    requires below { IfSome bit (λ b. b < 64) }
    requires empty { core.old.out ≡ None }
    ensures reads { ReadsFlag (P.sight port.old) core.old place bit result (P.sight port.new) core.new }
    ensures empty { core.new.out ≡ None }
    ensures steps { MadeSteps P.stepped (P.sight port.old) (P.sight port.new) }
{
    is_set_in(bit, look_word(core, port, place))
}

/// Whether a flag at a rank is set, by one look.
pub fn flag_read<V: Evict, P: Port>(core: &mut Core<V>, port: &mut P, at: Rank, f: FlagAt) -> bool
    requires below { at < (P.sight port.old).seat.setup.nue }
    requires empty { core.old.out ≡ None }
    ensures reads { ReadsFlag (P.sight port.old) core.old (flag_of (P.sight port.old).seat.setup at f) f.bit result
        (P.sight port.new) core.new }
    ensures empty { core.new.out ≡ None }
    ensures steps { MadeSteps P.stepped (P.sight port.old) (P.sight port.new) }
{
    let place = f.place(port.setup().core_of(at));
    look_flag(core, port, place, f.bit_number())
}

/// Looks at a flag of the own rank until it is as wanted, at most `polls` times.
pub fn wait_until<V: Evict, P: Port>(
    core: &mut Core<V>,
    port: &mut P,
    f: FlagAt,
    want: bool,
    polls: u32,
) -> Result<(), Stalled>
    requires empty { core.old.out ≡ None }
    requires some { 1 ≤ polls }
    ensures waits { WaitsFor (P.sight port.old) core.old (flag_of (P.sight port.old).seat.setup (P.sight port.old).seat.rank f) f.bit
        want polls (P.sight port.new) core.new result }
    ensures stalls { (events : List Event) → Did (P.sight port.old) events (P.sight port.new) → (IsErr result
        ↔ TryFailed (AtFlag (flag_of (P.sight port.old).seat.setup (P.sight port.old).seat.rank f) f.bit want) polls events) }
    ensures empty { core.new.out ≡ None }
    ensures steps { MadeSteps P.stepped (P.sight port.old) (P.sight port.new) }
{
    let me = port.rank();
    let place = f.place(port.setup().core_of(me));
    for _ in 0..polls {
        if flag_read(core, port, me, f) == want {
            return Ok(());
        }
    }
    Err(Stalled {
        spot: spot_of_flag(place, f.bit_number()),
        polls,
    })
}
