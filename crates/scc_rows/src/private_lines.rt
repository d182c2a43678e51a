//! What a core keeps for itself, and put and get, over the ports of a chip.

ghost use Rattle.std.specs.Prelude.{◌≡◌, None};
ghost use Rattle.scc_rows.specs.Rests.{IsPortAtRest};

use crate::fixtures::{Meeting, Watched, flush, get, put, read, shows, store, write};
use line_cache::{Always, Evict, Never};
use put_get::{Core, RangeFault};
use scc_base::{Buf, CoreId, Line, Place, Rank};
use scc_ports::CountingPort;
use scc_proto::Port;
use std::cell::Cell;
use std::test::Fail;

/// Lines before a get.
const NINES: &[[u64; 4]] = &[[9, 9, 9, 9], [9, 9, 9, 9], [9, 9, 9, 9]];

/// Lines that are put, and those that a get of one line more finds.
const SENT: &[[u64; 4]] = &[[1, 2, 3, 4], [5, 6, 7, u64::MAX]];

const FOUND: &[[u64; 4]] = &[[1, 2, 3, 4], [5, 6, 7, u64::MAX], [0, 0, 0, 0]];

const ZEROS: &[[u64; 4]] = &[[0, 0, 0, 0], [0, 0, 0, 0]];

const SEVEN: &[[u64; 4]] = &[[7, 0, 0, 0]];

const SEVENS: &[[u64; 4]] = &[[7, 7, 7, 7], [7, 7, 7, 7], [7, 7, 7, 7]];

const FIVE: &[[u64; 4]] = &[[5, 0, 0, 0], [0, 0, 0, 0], [9, 9, 9, 9]];

// Whether lines are these.
fn are(lines: &[[u64; 4]], wanted: &[[u64; 4]]) -> bool {
    lines == wanted
}

// Whether three lines of a buffer of two were rejected.
fn is_refused(answer: Result<(), RangeFault>) -> bool {
    answer == Err(RangeFault { asked: 3, len: 2 })
}

// Whether a word is read with this value, and the port has made `loads` loads then.
fn reads<P: Port, V: Evict>(
    core: &mut Core<V>,
    port: &mut CountingPort<P>,
    place: Place,
    value: u64,
    loads: u64,
) -> bool
    requires rests { IsPortAtRest (P.sight port.old.port) }
    requires empty { core.old.out ≡ None }
    ensures rests { IsPortAtRest (P.sight port.new.port) }
    ensures empty { core.new.out ≡ None }
{
    let found = read(core, port, place);
    found == value && port.loads() == loads
}

// Whether a get of two lines of rank 1 finds zeros.
fn gets_zeros<P: Port, V: Evict + Drop>(port: &mut P, evict: V) -> bool
    requires rests { IsPortAtRest (P.sight port.old) }
{
    let Some(at) = Buf::new(225, 2) else {
        return false;
    };
    let mut core = Core::new(evict);
    let mut lines = [[9; 4]; 2];
    let got = get(&mut core, port, Rank::of(1), at, &mut lines).is_ok();
    got && are(&lines, ZEROS)
}

// Whether it does so with `loads` loads, after which the evictor was asked `questions` times and evicted `drops` lines.
fn gets_counted<P: Port, V: Evict + Drop>(
    port: &mut CountingPort<P>,
    inner: V,
    loads: u64,
    questions: u64,
    drops: u64,
) -> bool
    requires rests { IsPortAtRest (P.sight port.old.port) }
{
    let asked = Cell::new(0);
    let dropped = Cell::new(0);
    let evict = Watched {
        inner,
        asked: &asked,
        dropped: &dropped,
    };
    let got = gets_zeros(port, evict);
    got && port.loads() == loads && asked.get() == questions && dropped.get() == drops
}

/// A rank gets three lines of a buffer of two.
struct LongGet;

impl Meeting for LongGet {
    fn holds<P: Port, Q: Port>(first: &mut CountingPort<P>, _second: &mut CountingPort<Q>) -> bool {
        let Some(at) = Buf::new(225, 2) else {
            return false;
        };
        let mut core = Core::new(Never);
        let mut lines = [[9; 4]; 3];
        let answer = get(&mut core, first, Rank::of(1), at, &mut lines);
        is_refused(answer) && are(&lines, NINES) && first.loads() == 0
    }
}

#[test]
fn a_get_of_more_lines_than_the_buffer_has_makes_no_event(rt: HostRuntime) -> Result<(), Fail> {
    shows::<LongGet>(rt.alloc())
}

// Whether lines of rank 0 that one rank puts are what the other then gets.
fn gets_what_was_put<P: Port, Q: Port>(port: &mut P, other: &mut Q) -> bool
    requires rests { IsPortAtRest (P.sight port.old) }
    requires other_rests { IsPortAtRest (Q.sight other.old) }
{
    let Some(at) = Buf::new(240, 3) else {
        return false;
    };
    let mut core = Core::new(Never);
    let sent = put(&mut core, other, Rank::of(0), at, SENT).is_ok();
    let mut core = Core::new(Never);
    let mut lines = [[9; 4]; 3];
    let got = get(&mut core, port, Rank::of(0), at, &mut lines).is_ok();
    sent && got && are(&lines, FOUND)
}

/// One rank puts lines, and the other gets them.
struct PutAndGet;

impl Meeting for PutAndGet {
    fn holds<P: Port, Q: Port>(first: &mut CountingPort<P>, second: &mut CountingPort<Q>) -> bool {
        gets_what_was_put(first, second) && first.loads() == 12 && second.loads() == 0
    }
}

#[test]
fn a_put_is_seen_by_another_ranks_get(rt: HostRuntime) -> Result<(), Fail> {
    shows::<PutAndGet>(rt.alloc())
}

/// A rank reads a word, before and after the other's put, and once more after `cl1invmb`.
struct HeldLine;

impl Meeting for HeldLine {
    fn holds<P: Port, Q: Port>(first: &mut CountingPort<P>, second: &mut CountingPort<Q>) -> bool {
        let Some(at) = Buf::new(225, 1) else {
            return false;
        };
        let place = Line::new(CoreId::of(0), 225).word(0);
        let mut reader = Core::new(Never);
        let mut writer = Core::new(Never);
        let early = reads(&mut reader, first, place, 0, 4);
        let sent = put(&mut writer, second, Rank::of(0), at, SEVEN).is_ok();
        let held = reads(&mut reader, first, place, 0, 4);
        reader.cl1invmb();
        let fresh = reads(&mut reader, first, place, 7, 8);
        early && sent && held && fresh
    }
}

#[test]
fn a_held_line_stays_old_until_cl1invmb(rt: HostRuntime) -> Result<(), Fail> {
    shows::<HeldLine>(rt.alloc())
}

/// A rank gets two lines, and no line leaves its cache.
struct GetWithoutEvictions;

impl Meeting for GetWithoutEvictions {
    fn holds<P: Port, Q: Port>(first: &mut CountingPort<P>, _second: &mut CountingPort<Q>) -> bool {
        gets_counted(first, Never, 8, 2, 0)
    }
}

#[test]
fn a_get_loads_each_line_once_where_none_is_dropped(rt: HostRuntime) -> Result<(), Fail> {
    shows::<GetWithoutEvictions>(rt.alloc())
}

/// A rank gets two lines, and each leaves its cache at once.
struct GetWithEvictions;

impl Meeting for GetWithEvictions {
    fn holds<P: Port, Q: Port>(first: &mut CountingPort<P>, _second: &mut CountingPort<Q>) -> bool {
        gets_counted(first, Always::new(), 32, 8, 8)
    }
}

#[test]
fn a_get_loads_each_line_for_each_word_where_all_are_dropped(rt: HostRuntime) -> Result<(), Fail> {
    shows::<GetWithEvictions>(rt.alloc())
}

/// A rank reads a word, one beside it, and one of another line.
struct ThreeReads;

impl Meeting for ThreeReads {
    fn holds<P: Port, Q: Port>(first: &mut CountingPort<P>, _second: &mut CountingPort<Q>) -> bool {
        let asked = Cell::new(0);
        let dropped = Cell::new(0);
        let mut core = Core::new(Watched {
            inner: Never,
            asked: &asked,
            dropped: &dropped,
        });
        let line = Line::new(CoreId::of(1), 230);
        let filled = reads(&mut core, first, line.word(0), 0, 4) && asked.get() == 1;
        let held = reads(&mut core, first, line.word(3), 0, 4) && asked.get() == 1;
        let other = Line::new(CoreId::of(1), 231).word(0);
        let again = reads(&mut core, first, other, 0, 8) && asked.get() == 2;
        filled && held && again
    }
}

#[test]
fn the_evictor_is_not_asked_where_the_line_is_held(rt: HostRuntime) -> Result<(), Fail> {
    shows::<ThreeReads>(rt.alloc())
}

// Whether another rank loads a written word once the next line is written, and that line's once it is flushed.
fn stores_when_next_is_written<P: Port, Q: Port>(port: &mut P, other: &mut Q) -> bool
    requires rests { IsPortAtRest (P.sight port.old) }
    requires other_rests { IsPortAtRest (Q.sight other.old) }
{
    let mut core = Core::new(Never);
    let first = Place::new(CoreId::of(0), 225, 1);
    let second = Place::new(CoreId::of(0), 226, 2);
    write(&mut core, port, Rank::of(0), 225, 1, 7);
    let early = other.load(first);
    write(&mut core, port, Rank::of(0), 226, 2, 8);
    let stored = other.load(first);
    let held = other.load(second);
    flush(&mut core, port);
    let flushed = other.load(second);
    early == 0 && stored == 7 && held == 0 && flushed == 8
}

/// A rank writes words of two lines and flushes, and the other loads them on the way.
struct TwoWrites;

impl Meeting for TwoWrites {
    fn holds<P: Port, Q: Port>(first: &mut CountingPort<P>, second: &mut CountingPort<Q>) -> bool {
        stores_when_next_is_written(first, second) && first.loads() == 0
    }
}

#[test]
fn a_written_word_is_stored_when_another_line_is_written(rt: HostRuntime) -> Result<(), Fail> {
    shows::<TwoWrites>(rt.alloc())
}

// The word that another rank stored between flushes of a core; only the second flush has something to store.
fn flushes_beside<P: Port, Q: Port>(port: &mut P, other: &mut Q) -> u64
    requires rests { IsPortAtRest (P.sight port.old) }
    requires other_rests { IsPortAtRest (Q.sight other.old) }
{
    let mut core = Core::new(Never);
    flush(&mut core, port);
    write(&mut core, port, Rank::of(0), 225, 0, 7);
    flush(&mut core, port);
    store(other, Rank::of(0), 225, 0, 9);
    flush(&mut core, port);
    other.load(Place::new(CoreId::of(0), 225, 0))
}

/// A rank flushes with and without something to store, and the other stores the same word before the last time.
struct ThreeFlushes;

impl Meeting for ThreeFlushes {
    fn holds<P: Port, Q: Port>(first: &mut CountingPort<P>, second: &mut CountingPort<Q>) -> bool {
        flushes_beside(first, second) == 9 && first.loads() == 0
    }
}

#[test]
fn a_flush_of_nothing_stores_nothing(rt: HostRuntime) -> Result<(), Fail> {
    shows::<ThreeFlushes>(rt.alloc())
}

// Whether a put and a get of three lines of a buffer of two are rejected, while another rank stores a word of it.
fn are_refused<P: Port, Q: Port, V: Evict>(
    core: &mut Core<V>,
    port: &mut P,
    other: &mut Q,
    at: Buf,
) -> bool
    requires rests { IsPortAtRest (P.sight port.old) }
    requires other_rests { IsPortAtRest (Q.sight other.old) }
    requires empty { core.old.out ≡ None }
    ensures rests { IsPortAtRest (P.sight port.new) }
    ensures empty { core.new.out ≡ None }
{
    let put_three = put(core, port, Rank::of(1), at, SEVENS);
    store(other, Rank::of(1), 250, 0, 5);
    let mut lines = [[9; 4]; 3];
    let get_three = get(core, port, Rank::of(1), at, &mut lines);
    is_refused(put_three) && is_refused(get_three) && are(&lines, NINES)
}

// Whether a get of two lines fills the first two of three with what another rank stored.
fn gets_the_store<P: Port, V: Evict>(core: &mut Core<V>, port: &mut P, at: Buf) -> bool
    requires rests { IsPortAtRest (P.sight port.old) }
    requires empty { core.old.out ≡ None }
{
    let mut lines = [[9; 4]; 3];
    let got = get(core, port, Rank::of(1), at, &mut lines[..2]).is_ok();
    got && are(&lines, FIVE)
}

/// A rank reads a word, puts and gets more lines than the buffer has while the other stores the word, and reads it again from its cache.
/// Then it gets the buffer.
struct Refusals;

impl Meeting for Refusals {
    fn holds<P: Port, Q: Port>(first: &mut CountingPort<P>, second: &mut CountingPort<Q>) -> bool {
        let Some(at) = Buf::new(250, 2) else {
            return false;
        };
        let mut core = Core::new(Never);
        let place = Place::new(CoreId::of(1), 250, 0);
        let early = reads(&mut core, first, place, 0, 4);
        let refused = are_refused(&mut core, first, second, at);
        let held = reads(&mut core, first, place, 0, 4);
        let filled = gets_the_store(&mut core, first, at);
        early && refused && held && filled && first.loads() == 12
    }
}

#[test]
fn a_refused_put_and_get_change_nothing(rt: HostRuntime) -> Result<(), Fail> {
    shows::<Refusals>(rt.alloc())
}
