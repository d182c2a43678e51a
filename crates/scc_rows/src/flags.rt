//! Heap flags between the two ranks of a chip.

ghost use Rattle.std.specs.Prelude.{◌≡◌, ◌<◌, ◌≤◌, None};
ghost use Rattle.scc_rows.specs.Rests.{IsPortAtRest};
ghost use Rattle.scc_rows.specs.Writers.{MayTake};

use crate::fixtures::{Meeting, free, shows, shows_in, take};
use line_cache::{Evict, Never};
use put_get::Core;
use scc_base::{Buf, CoreId, FlagAt, Layout, Place, Rank, Spot, Stalled};
use scc_ports::CountingPort;
use scc_proto::Port;
use std::test::Fail;
use sync_flags::{Flag, flag_read, flag_write, wait_until};

/// Writes a flag at a rank, by a rank with no unfinished message or barrier.
fn write<P: Port, V: Evict>(
    core: &mut Core<V>,
    port: &mut P,
    at: Rank,
    flag: FlagAt,
    set: bool,
    polls: u32,
) -> Result<(), Stalled>
    requires rests { IsPortAtRest (P.sight port.old) }
    requires free { MayTake (P.sight port.old) at flag }
    requires empty { core.old.out ≡ None }
    requires below { at < 2 }
    requires heap { 225 ≤ flag.line }
    requires some { 1 ≤ polls }
    ensures rests { IsPortAtRest (P.sight port.new) }
    ensures free { MayTake (P.sight port.new) at flag }
    ensures empty { core.new.out ≡ None }
{
    flag_write(core, port, at, flag, set, polls)
}

/// Whether a flag at a rank is set.
fn read<P: Port, V: Evict>(core: &mut Core<V>, port: &mut P, at: Rank, flag: FlagAt) -> bool
    requires rests { IsPortAtRest (P.sight port.old) }
    requires empty { core.old.out ≡ None }
    requires below { at < 2 }
    ensures empty { core.new.out ≡ None }
{
    flag_read(core, port, at, flag)
}

/// Whether a call stalled there after `polls` failed polls.
pub(crate) fn stalls(answer: Result<(), Stalled>, spot: Spot, polls: u32) -> bool {
    answer == Err(Stalled { spot, polls })
}

// Whether rank 1 first polls its flag, this bit of word 0 in line 230, without success, and then sees that rank 0 sets it and clears it
// again.
fn is_seen<P: Port, Q: Port>(first: &mut P, second: &mut Q, flag: FlagAt, bit: u8) -> bool
    requires rests { IsPortAtRest (P.sight first.old) }
    requires free { MayTake (P.sight first.old) 1 flag }
    requires heap { 225 ≤ flag.line }
{
    let mut writer = Core::new(Never);
    let mut waiter = Core::new(Never);
    let at = Rank::of(1);
    let early = wait_until(&mut waiter, second, flag, true, 2);
    let written = write(&mut writer, first, at, flag, true, 1);
    let seen = wait_until(&mut waiter, second, flag, true, 1);
    let unwritten = write(&mut writer, first, at, flag, false, 1);
    let unseen = wait_until(&mut waiter, second, flag, false, 1);
    let late = read(&mut writer, first, at, flag);
    let place = Place::new(CoreId::of(1), 230, 0);
    stalls(early, Spot::Flag { place, bit }, 2)
        && written.is_ok()
        && seen.is_ok()
        && unwritten.is_ok()
        && unseen.is_ok()
        && !late
}

/// A flag that is a word goes from one rank to the other.
struct WordFlag;

impl Meeting for WordFlag {
    fn holds<P: Port, Q: Port>(first: &mut CountingPort<P>, second: &mut CountingPort<Q>) -> bool {
        let Some(buffer) = Buf::new(230, 1) else {
            return false;
        };
        is_seen(first, second, Flag::line(&buffer), 0)
    }
}

/// A flag that is a bit goes from one rank to the other.
struct BitFlag;

impl Meeting for BitFlag {
    fn holds<P: Port, Q: Port>(first: &mut CountingPort<P>, second: &mut CountingPort<Q>) -> bool {
        let Some(buffer) = Buf::new(230, 1) else {
            return false;
        };
        is_seen(first, second, Flag::bit(&buffer, 63), 63)
    }
}

#[test]
fn a_flag_goes_from_one_rank_to_the_other(rt: HostRuntime) -> Result<(), Fail> {
    shows_in::<WordFlag>(rt.alloc(), Layout::BitFlags)?;
    shows_in::<BitFlag>(rt.alloc(), Layout::BitFlags)
}

/// A rank writes a bit twice, while the other holds the register and after its release, and reads it.
struct HeldRegister;

impl Meeting for HeldRegister {
    fn holds<P: Port, Q: Port>(first: &mut CountingPort<P>, second: &mut CountingPort<Q>) -> bool {
        let Some(buffer) = Buf::new(255, 1) else {
            return false;
        };
        let flag = Flag::bit(&buffer, 5);
        let (root, register) = (Rank::of(0), CoreId::of(0));
        if !take(first, register) {
            return false;
        }
        let mut core = Core::new(Never);
        let stalled = write(&mut core, second, root, flag, true, 3);
        free(first, register);
        let written = write(&mut core, second, root, flag, true, 3);
        let set = read(&mut core, second, root, flag);
        // A look at the line each, and none where the register was held.
        let looked = second.loads() == 8;
        stalls(stalled, Spot::Register { core: register }, 3) && written.is_ok() && set && looked
    }
}

#[test]
fn a_bit_stalls_at_a_register_that_another_rank_holds(rt: HostRuntime) -> Result<(), Fail> {
    shows::<HeldRegister>(rt.alloc())
}
