//! Writes of flags.

ghost use Rattle.std.specs.Prelude.{◌≡◌, ◌<◌, ◌≤◌, ◌↔◌, ℕ, List, None, Some, IsErr, IfSome, is_some, false};
ghost use Rattle.scc_base.specs.Events.{store_of};
ghost use Rattle.scc_base.specs.declared.events.Event.{Event};
ghost use Rattle.scc_proto.specs.Ports.{Did, MayMake, record_in};
ghost use Rattle.put_get.specs.Cores.{MadeSteps};
ghost use Rattle.tas_lock.specs.Holds.{IsHolding, IsNotHolding, after_try};
ghost use Rattle.sync_flags.specs.Flags.{flag_of, flag_value, with_bit};
ghost use Rattle.sync_flags.specs.Tries.{AtRegister, TryFailed};
ghost use Rattle.sync_flags.specs.Writes.{MayStoreHere, MayWrite, MayChangeFlag, StoresWord, TakesWithin, ChangesBit, TriesChange, WritesFlag, ChangesFlag};

use crate::looks::look_word;
use line_cache::Evict;
use put_get::Core;
use scc_base::{CoreId, FlagAt, Place, Rank, Spot, Stalled};
use scc_proto::Port;
use tas_lock::{Held, release, try_acquire};

// The word of a flag that is a whole word.
#[inline(always)]
fn flag_value(set: bool) -> u64
    ensures gives { result ≡ flag_value set }
{
    if set { 1 } else { 0 }
}

/// Writes a word and sends it out.
#[inline]
pub fn store_word<V: Evict, P: Port>(core: &mut Core<V>, port: &mut P, place: Place, value: u64)
    requires empty { core.old.out ≡ None }
    requires permitted { MayMake (P.sight port.old).seat (record_in (P.sight port.old)) (store_of place value) }
    ensures stores { StoresWord (P.sight port.old) core.old place value (P.sight port.new) core.new }
    ensures steps { MadeSteps P.stepped (P.sight port.old) (P.sight port.new) }
    ensures empty { core.new.out ≡ None }
{
    core.word_write_through(port, place, value);
}

/// Tries to take a register, at most `polls` times.
fn acquire_within<P: Port>(port: &mut P, c: CoreId, polls: u32) -> Option<Held>
    requires not_held { IsNotHolding (record_in (P.sight port.old)) c }
    ensures takes { TakesWithin (P.sight port.old) c polls (P.sight port.new) result }
    ensures steps { MadeSteps P.stepped (P.sight port.old) (P.sight port.new) }
    ensures holds { record_in (P.sight port.new) ≡ after_try c (is_some result) (record_in (P.sight port.old)) }
{
    for _ in 0..polls {
        if let Some(held) = try_acquire(port, c) {
            return Some(held);
        }
    }
    None
}

/// The word with one bit as asked.
#[inline]
fn changed(word: u64, bit: u8, set: bool) -> u64
    requires { bit < 64 }
    ensures { result ≡ with_bit bit set word }
{
    if set {
        word | 1 << bit
    } else {
        word & !(1 << bit)
    }
}

/// Changes a bit whose register is held.
fn change_bit<V: Evict, P: Port>(core: &mut Core<V>, port: &mut P, place: Place, bit: u8, set: bool)
    requires below { bit < 64 }
    requires empty { core.old.out ≡ None }
    requires permitted { MayStoreHere (P.sight port.old) place bit set }
    ensures changes { ChangesBit (P.sight port.old) core.old place bit set (P.sight port.new) core.new }
    ensures steps { MadeSteps P.stepped (P.sight port.old) (P.sight port.new) }
    ensures holds { (k : ℕ) → IsHolding (record_in (P.sight port.old)) k → IsHolding (record_in (P.sight port.new)) k }
    ensures empty { core.new.out ≡ None }
{
    let word = look_word(core, port, place);
    // The port's contract says here that the record with these loads is sound.
    let _ = port.rank();
    store_word(core, port, place, changed(word, bit, set));
}

/// Tries once to change a bit under the register of the core that holds it: false where the register was taken.
fn try_change_bit<V: Evict, P: Port>(
    core: &mut Core<V>,
    port: &mut P,
    place: Place,
    bit: u8,
    set: bool,
) -> bool
    requires below { bit < 64 }
    requires empty { core.old.out ≡ None }
    requires permitted { MayWrite (P.sight port.old).seat (record_in (P.sight port.old)) place (Some bit) set }
    ensures tries { TriesChange (P.sight port.old) core.old place bit set result (P.sight port.new) core.new }
    ensures freed { IsNotHolding (record_in (P.sight port.new)) place.core }
    ensures empty { core.new.out ≡ None }
    ensures steps { MadeSteps P.stepped (P.sight port.old) (P.sight port.new) }
{
    let at = place.core();
    match try_acquire(port, at) {
        None => false,
        Some(held) => {
            change_bit(core, port, place, bit, set);
            release(port, held);
            true
        }
    }
}

/// Changes a bit under the register of the core that holds it.
fn write_bit<V: Evict, P: Port>(
    core: &mut Core<V>,
    port: &mut P,
    place: Place,
    bit: u8,
    set: bool,
    polls: u32,
) -> Result<(), Stalled>
    requires below { bit < 64 }
    requires empty { core.old.out ≡ None }
    requires some { 1 ≤ polls }
    requires permitted { MayWrite (P.sight port.old).seat (record_in (P.sight port.old)) place (Some bit) set }
    ensures writes { WritesFlag (P.sight port.old) core.old place (Some bit) set polls (P.sight port.new) core.new result }
    ensures steps { MadeSteps P.stepped (P.sight port.old) (P.sight port.new) }
    ensures freed { IsNotHolding (record_in (P.sight port.new)) place.core }
    ensures empty { core.new.out ≡ None }
{
    let register = place.core();
    match acquire_within(port, register, polls) {
        None => Err(Stalled {
            spot: Spot::Register { core: register },
            polls,
        }),
        Some(held) => {
            change_bit(core, port, place, bit, set);
            release(port, held);
            Ok(())
        }
    }
}

/// Sets or clears a flag at a rank. A word is stored at once. A bit is changed under the register of the core
/// that holds it, for which the call tries at most `polls` times; only there it can stall.
pub fn flag_write<V: Evict, P: Port>(
    core: &mut Core<V>,
    port: &mut P,
    at: Rank,
    f: FlagAt,
    set: bool,
    polls: u32,
) -> Result<(), Stalled>
    requires below { at < (P.sight port.old).seat.setup.nue }
    requires empty { core.old.out ≡ None }
    requires some { 1 ≤ polls }
    requires permitted { MayWrite (P.sight port.old).seat (record_in (P.sight port.old))
        (flag_of (P.sight port.old).seat.setup at f) f.bit set }
    ensures writes { WritesFlag (P.sight port.old) core.old (flag_of (P.sight port.old).seat.setup at f) f.bit set polls
        (P.sight port.new) core.new result }
    ensures steps { MadeSteps P.stepped (P.sight port.old) (P.sight port.new) }
    ensures freed { IfSome f.bit (λ b. IsNotHolding (record_in (P.sight port.new)) (flag_of (P.sight port.old).seat.setup at f).core) }
    ensures stalls { (events : List Event) → Did (P.sight port.old) events (P.sight port.new) → (IsErr result
        ↔ TryFailed (AtRegister (flag_of (P.sight port.old).seat.setup at f).core) polls events) }
    ensures empty { core.new.out ≡ None }
{
    let place = f.place(port.setup().core_of(at));
    match f.bit_number() {
        None => {
            store_word(core, port, place, flag_value(set));
            Ok(())
        }
        Some(bit) => write_bit(core, port, place, bit, set, polls),
    }
}

/// Changes the flag that is this word, or this bit of it, in one turn. A word is written, and what waits in the
/// write-combining buffer is stored before it. A bit is turned over under the register of the core that holds it: false
/// where the register was taken.
#[inline(always)]
pub fn change_flag<V: Evict, P: Port>(
    core: &mut Core<V>,
    port: &mut P,
    place: Place,
    bit: Option<u8>,
    set: bool,
) -> bool
    requires below { IfSome bit (λ b. b < 64) }
    requires may { MayChangeFlag (P.sight port.old) core.old place bit set }
    ensures changes { ChangesFlag (P.sight port.old) core.old place bit set result (P.sight port.new) core.new }
    ensures empty { core.new.out ≡ None }
    ensures steps { MadeSteps P.stepped (P.sight port.old) (P.sight port.new) }
{
    match bit {
        None => {
            core.word_write_through(port, place, flag_value(set));
            true
        }
        Some(bit) => try_change_bit(core, port, place, bit, set),
    }
}
