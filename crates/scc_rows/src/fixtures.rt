//! A chip of two ranks, its ports, and an evictor that counts how often it was asked.

ghost use Rattle.std.specs.Prelude.{◌≡◌, ◌<◌, ◌≤◌, ℕ, true, false, None, IfOk, IfSome, IfNone};
ghost use Rattle.scc_base.specs.Setups.{host_of};
ghost use Rattle.scc_mesh.specs.Scenes.{sight_away};
ghost use Rattle.put_get.specs.HeapStores.{AwaitsHeap};
ghost use Rattle.scc_rows.specs.Rests.{IsNewPair, IsPortAtRest, IsFreshPort, IsWithout, HoldsRegister};

use line_cache::Evict;
use put_get::{Core, RangeFault};
use scc_base::{Buf, CoreId, Layout, Place, Rank, Setup, own_cores, world_alone};
use scc_mesh::{Chip, SeatPort};
use scc_ports::CountingPort;
use scc_proto::Port;
use std::alloc::Global;
use std::cell::Cell;
use std::fmt::Display;
use std::test::Fail;
use tas_lock::{Held, release, try_acquire};

/// Both layouts of the flags.
pub(crate) const LAYOUTS: &[Layout] = &[Layout::LineFlags, Layout::BitFlags];

/// A setup of `nue` ranks, each on the core of its number, with only the world.
pub(crate) fn world_of(nue: u8, layout: Layout) -> Option<Setup>
    ensures ranks { IfSome result (λ s. s.nue ≡ nue) }
{
    Setup::new(nue, layout, own_cores(), world_alone())
}

/// A new chip of two ranks, with line flags.
pub(crate) fn new_pair(alloc: Global) -> Result<Chip, Fail>
    ensures pair { IfOk result (λ chip. IsNewPair chip) }
{
    pair_in(alloc, Layout::lines())
}

/// A new chip of two ranks.
pub(crate) fn pair_in(alloc: Global, layout: Layout) -> Result<Chip, Fail>
    ensures pair { IfOk result (λ chip. IsNewPair chip) }
{
    let Some(setup) = world_of(2, layout) else {
        return Err("a setup".into());
    };
    let _nue = setup.nue();
    let mut chip = Chip::blank();
    chip.open(alloc, setup)?;
    Ok(chip)
}

/// The ports of both ranks, with their loads counted.
#[derive(Drop)]
struct Pair<'w> {
    first: CountingPort<SeatPort<'w>>,
    second: CountingPort<SeatPort<'w>>,
}

fn spread_pair(chip: &mut Chip) -> Pair<'_>
    requires pair { IsNewPair chip.old }
    ensures first_rests { IsPortAtRest (sight_away result.first.port.about result.first.port.ticket) }
    ensures second_rests { IsPortAtRest (sight_away result.second.port.about result.second.port.ticket) }
    ensures first_fresh { IsFreshPort (sight_away result.first.port.about result.first.port.ticket) 0 }
    ensures second_fresh { IsFreshPort (sight_away result.second.port.about result.second.port.ticket) 1 }
    ensures first_without { (core : ℕ) → IsWithout (sight_away result.first.port.about result.first.port.ticket) core }
    ensures second_without { (core : ℕ) → IsWithout (sight_away result.second.port.about result.second.port.ticket) core }
{
    let first = chip.spread(Rank::of(0));
    let second = chip.spread(Rank::of(1));
    let words = chip.words();
    Pair {
        first: CountingPort::new(words.port(first)),
        second: CountingPort::new(words.port(second)),
    }
}

/// What the two ranks of a new chip do; no message and no barrier is unfinished before it.
pub(crate) trait Meeting {
    ghost use Rattle.std.specs.Prelude.{ℕ};
    ghost use Rattle.scc_rows.specs.Rests.{IsPortAtRest, IsFreshPort, IsWithout};

    /// Whether the ranks behave as the test's name states.
    fn holds<P: Port, Q: Port>(first: &mut CountingPort<P>, second: &mut CountingPort<Q>) -> bool
        requires first_rests { IsPortAtRest (P.sight first.old.port) }
        requires second_rests { IsPortAtRest (Q.sight second.old.port) }
        requires first_fresh { IsFreshPort (P.sight first.old.port) 0 }
        requires second_fresh { IsFreshPort (Q.sight second.old.port) 1 }
        requires first_without { (core : ℕ) → IsWithout (P.sight first.old.port) core }
        requires second_without { (core : ℕ) → IsWithout (Q.sight second.old.port) core };
}

fn holds_on<M: Meeting>(chip: &mut Chip) -> bool
    requires pair { IsNewPair chip.old }
{
    let Pair {
        mut first,
        mut second,
    } = spread_pair(chip);
    M::holds(&mut first, &mut second)
}

/// Whether a meeting at a new chip of two ranks holds.
fn holds_in<M: Meeting>(alloc: Global, layout: Layout) -> Result<bool, Fail> {
    let mut chip = pair_in(alloc, layout)?;
    Ok(holds_on::<M>(&mut chip))
}

/// Nothing if a test holds, and else its failure.
pub(crate) fn as_named(goes: bool) -> Result<(), Fail> {
    if goes {
        Ok(())
    } else {
        Err("it does not go as it is named".into())
    }
}

/// Shows that a meeting at such a chip, with line flags, holds.
pub(crate) fn shows<M: Meeting>(alloc: Global) -> Result<(), Fail> {
    shows_in::<M>(alloc, Layout::LineFlags)
}

/// Shows what a meeting of this kind shows, in this layout of the flags.
pub(crate) fn shows_in<M: Meeting>(alloc: Global, layout: Layout) -> Result<(), Fail> {
    as_named(holds_in::<M>(alloc, layout)?)
}

/// Shows what a meeting of this kind shows, in both layouts of the flags.
pub(crate) fn shows_in_both<M: Meeting>(alloc: Global) -> Result<(), Fail> {
    for layout in LAYOUTS {
        shows_in::<M>(alloc, *layout)?;
    }
    Ok(())
}

/// Shows that a value has this text.
pub(crate) fn has_text<T: Display>(alloc: Global, value: &T, text: &str) -> Result<(), Fail> {
    let shown = value.to_string(alloc)?;
    as_named(shown.as_str() == text)
}

/// Puts lines, by a rank with no unfinished message or barrier.
pub(crate) fn put<P: Port, V: Evict>(
    core: &mut Core<V>,
    port: &mut P,
    to: Rank,
    at: Buf,
    src: &[[u64; 4]],
) -> Result<(), RangeFault>
    requires rests { IsPortAtRest (P.sight port.old) }
    requires empty { core.old.out ≡ None }
    requires below { to < 2 }
    ensures rests { IsPortAtRest (P.sight port.new) }
    ensures empty { core.new.out ≡ None }
{
    let _first = at.first();
    core.put(port, to, at, src)
}

/// Gets lines, by a rank with no unfinished message or barrier.
pub(crate) fn get<P: Port, V: Evict>(
    core: &mut Core<V>,
    port: &mut P,
    from: Rank,
    at: Buf,
    dst: &mut [[u64; 4]],
) -> Result<(), RangeFault>
    requires rests { IsPortAtRest (P.sight port.old) }
    requires empty { core.old.out ≡ None }
    requires below { from < 2 }
    ensures rests { IsPortAtRest (P.sight port.new) }
    ensures empty { core.new.out ≡ None }
{
    core.get(port, from, at, dst)
}

/// Reads a word, by a rank with no unfinished message or barrier.
pub(crate) fn read<P: Port, V: Evict>(core: &mut Core<V>, port: &mut P, place: Place) -> u64
    requires rests { IsPortAtRest (P.sight port.old) }
    requires empty { core.old.out ≡ None }
    ensures rests { IsPortAtRest (P.sight port.new) }
    ensures empty { core.new.out ≡ None }
{
    core.word_read(port, place)
}

/// A heap word at a rank's core.
pub(crate) fn heap_word<P: Port>(port: &P, at: Rank, line: u8, word: u8) -> Place
    requires rests { IsPortAtRest (P.sight port.now) }
    requires rank_below { at < 2 }
    requires word_below { word < 4 }
    ensures core { result.core ≡ host_of (P.sight port.now).seat.setup.hosts at }
    ensures line { result.line ≡ line }
    ensures word { result.word ≡ word }
{
    Place::new(port.setup().core_of(at), line, word)
}

/// Stores a heap word, by a rank with no unfinished message or barrier.
pub(crate) fn store<P: Port>(port: &mut P, at: Rank, line: u8, word: u8, value: u64)
    requires rests { IsPortAtRest (P.sight port.old) }
    requires rank_below { at < 2 }
    requires heap { 225 ≤ line }
    requires word_below { word < 4 }
    ensures rests { IsPortAtRest (P.sight port.new) }
{
    let place = heap_word(port, at, line, word);
    port.store(place, value);
}

/// Writes a heap word through a core.
pub(crate) fn write<P: Port, V: Evict>(
    core: &mut Core<V>,
    port: &mut P,
    at: Rank,
    line: u8,
    word: u8,
    value: u64,
)
    requires rests { IsPortAtRest (P.sight port.old) }
    requires awaits { AwaitsHeap (P.sight port.old).seat.setup core.old.out }
    requires rank_below { at < 2 }
    requires heap { 225 ≤ line }
    requires word_below { word < 4 }
    ensures rests { IsPortAtRest (P.sight port.new) }
    ensures awaits { AwaitsHeap (P.sight port.new).seat.setup core.new.out }
{
    let place = heap_word(port, at, line, word);
    core.word_write(port, place, value);
}

/// Stores what a core's write-combining buffer holds.
pub(crate) fn flush<P: Port, V: Evict>(core: &mut Core<V>, port: &mut P)
    requires rests { IsPortAtRest (P.sight port.old) }
    requires awaits { AwaitsHeap (P.sight port.old).seat.setup core.old.out }
    ensures rests { IsPortAtRest (P.sight port.new) }
    ensures empty { core.new.out ≡ None }
{
    core.flush(port);
}

/// Asks for a core's register, which the rank does not hold.
pub(crate) fn take<P: Port>(port: &mut P, core: CoreId) -> bool
    requires without { IsWithout (P.sight port.old) core }
    ensures took { result ≡ true → HoldsRegister (P.sight port.new) core }
    ensures missed { result ≡ false → IsWithout (P.sight port.new) core }
{
    port.take(core)
}

/// Frees a core's register, which the rank holds.
pub(crate) fn free<P: Port>(port: &mut P, core: CoreId)
    requires held { HoldsRegister (P.sight port.old) core }
    ensures freed { IsWithout (P.sight port.new) core }
{
    port.free(core);
}

/// Tries once to lock a core's register, which the rank does not hold.
pub(crate) fn acquire<P: Port>(port: &mut P, core: CoreId) -> Option<Held>
    requires without { IsWithout (P.sight port.old) core }
    ensures took { IfSome result (λ held. (held ≡ core) × HoldsRegister (P.sight port.new) core) }
    ensures missed { IfNone result (IsWithout (P.sight port.new) core) }
{
    try_acquire(port, core)
}

/// Unlocks a register.
pub(crate) fn give_back<P: Port>(port: &mut P, held: Held)
    requires held { HoldsRegister (P.sight port.old) held }
    ensures freed { IsWithout (P.sight port.new) held }
{
    release(port, held);
}

/// Another evictor, whose counts of questions and of evicted lines can be read from outside.
#[derive(Drop)]
pub(crate) struct Watched<'a, E> {
    pub inner: E,
    pub asked: &'a Cell<u64>,
    pub dropped: &'a Cell<u64>,
}

impl<'a, E: Evict> Evict for Watched<'a, E> {
    ghost count = { λ w. E.count w.inner };

    ghost asked = { λ w. E.asked w.inner };

    ghost answers = { λ w. E.answers w.inner };

    fn drop_one(&mut self, held: usize) -> Option<usize> {
        self.asked.set(self.asked.get().saturating_add(1));
        let answer = self.inner.drop_one(held);
        if answer.is_some() {
            self.dropped.set(self.dropped.get().saturating_add(1));
        }
        answer
    }
}
