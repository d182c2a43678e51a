//! A rank's own heap flags can be allocated, written and waited for, over a port that lists the events.

ghost use Rattle.std.specs.Prelude.{◌≡◌, ◌<◌, ◌≤◌, [], None};

use crate::flags::stalls;
use crate::listed_ports::{ListedPort, listed_port};
use line_cache::Never;
use mpb_alloc::{Heap, MallocFault};
use put_get::Core;
use scc_base::{Buf, CoreId, FlagAt, Place, Rank, Spot, Stalled};
use std::process::Abort;
use sync_flags::{Flag, flag_alloc, flag_free, flag_read, flag_write, wait_until};

fn write<R: Abort>(core: &mut Core<Never>, port: &mut ListedPort<'_, R>, f: FlagAt, set: bool)
    requires empty { core.old.out ≡ None }
    requires word { f.bit ≡ None }
    requires heap { 225 ≤ f.line }
    ensures { core.new.out ≡ None }
{
    let rt = port.rt;
    let _ = port.setup.nue();
    flag_write(core, port, Rank::of(0), f, set, 1).expect(rt, "a word is always written");
}

// Whether a flag that was written is seen, if the port made `written` events by the write, and `seen` by the poll.
fn is_seen<R: Abort>(
    core: &mut Core<Never>,
    port: &mut ListedPort<'_, R>,
    f: FlagAt,
    set: bool,
    written: usize,
    seen: usize,
) -> bool
    requires empty { core.old.out ≡ None }
    requires word { f.bit ≡ None }
    requires heap { 225 ≤ f.line }
    ensures { core.new.out ≡ None }
{
    write(core, port, f, set);
    let one_more = port.events.len() == written;
    let is_seen = wait_until(core, port, f, set, 1).is_ok();
    one_more && is_seen && port.events.len() == seen
}

fn write_bit<R: Abort>(
    core: &mut Core<Never>,
    port: &mut ListedPort<'_, R>,
    buffer: &Buf,
    bit: u8,
) -> Result<(), Stalled>
    requires empty { core.old.out ≡ None }
    requires fresh { port.old.events.items ≡ [] }
    requires below { bit < 64 }
    ensures { core.new.out ≡ None }
{
    let _ = port.setup.nue();
    flag_write(core, port, Rank::of(0), Flag::bit(buffer, bit), true, 2)
}

// One bit after the other, both of one word.
fn write_two_bits<R: Abort>(
    core: &mut Core<Never>,
    port: &mut ListedPort<'_, R>,
    buffer: &Buf,
    first: u8,
    second: u8,
) -> bool
    requires empty { core.old.out ≡ None }
    requires fresh { port.old.events.items ≡ [] }
    requires below { first < 64 }
    requires second_below { second < 64 }
{
    let _ = port.setup.nue();
    let me = Rank::of(0);
    let one = flag_write(core, port, me, Flag::bit(buffer, first), true, 2);
    let other = flag_write(core, port, me, Flag::bit(buffer, second), true, 2);
    one.is_ok() && other.is_ok()
}

#[test]
fn a_heap_flag_is_written_and_waited_for(rt: HostRuntime) {
    let mut port = listed_port(&rt, rt.alloc());
    let mut core = Core::new(Never);
    let mut heap = Heap::new();
    let buffer = flag_alloc(&mut heap).expect(&rt, "a line");
    let flag = Flag::line(&buffer);
    let set = is_seen(&mut core, &mut port, flag, true, 1, 5);
    let cleared = is_seen(&mut core, &mut port, flag, false, 6, 10);
    assert!(rt; set && cleared && heap.is_out(buffer));
    flag_free(&mut heap, buffer);
    assert!(rt; !heap.is_out(buffer));
}

#[test]
fn a_wait_stalls_after_its_polls(rt: HostRuntime) {
    let mut port = listed_port(&rt, rt.alloc());
    let mut core = Core::new(Never);
    let buffer = Buf::new(230, 1).expect(&rt, "a line");
    let stalled = wait_until(&mut core, &mut port, Flag::bit(&buffer, 7), true, 3);
    let place = Place::new(CoreId::of(0), 230, 0);
    assert!(rt; stalls(stalled, Spot::Flag { place, bit: 7 }, 3) && port.events.len() == 12);
}

// Whether a bit is written while two others of its word are set, leaves them as they are, and is then read.
fn is_changed_alone<R: Abort>(port: &mut ListedPort<'_, R>, buffer: &Buf) -> bool
    requires fresh { port.old.events.items ≡ [] }
{
    port.words[20] = 0b1000_0001;
    let mut core = Core::new(Never);
    let written = write_bit(&mut core, port, buffer, 5).is_ok();
    let alone = port.words[20] == 0b1010_0001 && port.events.len() == 7 && !port.taken[0];
    let _ = port.setup.nue();
    let set = flag_read(&mut core, port, Rank::of(0), Flag::bit(buffer, 5));
    written && alone && set && port.events.len() == 11
}

#[test]
fn a_bit_is_changed_alone(rt: HostRuntime) {
    let mut port = listed_port(&rt, rt.alloc());
    let buffer = Buf::new(230, 1).expect(&rt, "a line");
    assert!(rt; is_changed_alone(&mut port, &buffer));
}

#[test]
fn a_second_bit_is_changed_on_the_same_port(rt: HostRuntime) {
    let mut port = listed_port(&rt, rt.alloc());
    let mut core = Core::new(Never);
    let buffer = Buf::new(230, 1).expect(&rt, "a line");
    let written = write_two_bits(&mut core, &mut port, &buffer, 5, 7);
    assert!(rt;
        written && port.words[20] == 0b1010_0000 && port.events.len() == 14 && !port.taken[0]
    );
}

#[test]
fn a_bit_stalls_where_its_register_is_taken(rt: HostRuntime) {
    let mut port = listed_port(&rt, rt.alloc());
    port.taken[0] = true;
    let mut core = Core::new(Never);
    let buffer = Buf::new(230, 1).expect(&rt, "a line");
    let stalled = write_bit(&mut core, &mut port, &buffer, 5);
    let core = CoreId::of(0);
    assert!(rt; stalls(stalled, Spot::Register { core }, 2) && port.events.len() == 2);
}

#[test]
fn a_flag_is_refused_where_no_line_is_free(rt: HostRuntime) {
    let mut heap = Heap::new();
    for _ in 0..31 {
        assert!(rt; flag_alloc(&mut heap).is_ok());
    }
    let full = Err(MallocFault::Full {
        asked: 1,
        longest: 0,
    });
    assert!(rt; flag_alloc(&mut heap) == full);
}
