//! The words of bit flags that are noted under held registers.

ghost use Rattle.std.specs.Prelude.{◌≡◌, ◌&&◌, ℕ, Option, false, is_some, option_and_then, option_map};
ghost use Rattle.scc_proto.specs.Records.{flags_in, set_flags};
ghost use Rattle.scc_proto.specs.Stages.{FlagWords};
ghost use Rattle.scc_proto.specs.Tables.{table_with};
ghost use Rattle.rank_monitor.specs.Held.{KeepsHeld, flag_words};
ghost use Rattle.rank_monitor.specs.Uses.{forget_by, is_flags_use, note_by};

use crate::uses::Use;
use scc_base::{CoreId, Signal};

/// The words of bit flags of one core, each if the rank loaded it while it held the core's register and did not store it since.
#[derive(Clone, Copy)]
pub struct NotedFlags {
    pub sent: Option<u64>,
    pub ready: Option<u64>,
}

/// The word of a signal's flags, if the rank holds the register and noted the word under it.
#[inline]
pub(crate) fn noted_of(slot: Option<NotedFlags>, signal: Signal) -> Option<u64>
    ensures gives { result ≡ option_and_then (λ (flags : FlagWords). flags_in signal flags) (option_map flag_words slot) }
{
    let Some(flags) = slot else {
        return None;
    };
    match signal {
        Signal::Sent => flags.sent,
        Signal::Ready => flags.ready,
    }
}

/// The words with another one of a signal's flags, noted or not.
#[inline]
fn with_word(flags: NotedFlags, signal: Signal, word: Option<u64>) -> NotedFlags
    ensures gives { flag_words result ≡ set_flags signal word (flag_words flags) }
{
    match signal {
        Signal::Sent => NotedFlags {
            sent: word,
            ready: flags.ready,
        },
        Signal::Ready => NotedFlags {
            sent: flags.sent,
            ready: word,
        },
    }
}

/// Notes a word of bit flags that the rank loads while it holds the core's register. Returns whether this is such a load.
pub(crate) fn note_flags(
    held: &mut [Option<NotedFlags>; 48],
    of: &Use,
    core: CoreId,
    value: u64,
) -> bool
    ensures tells { (records : ℕ → Option FlagWords) → KeepsHeld held.old records
        → result ≡ (is_flags_use of.now && is_some (records core)) }
    ensures notes { (records : ℕ → Option FlagWords) → KeepsHeld held.old records
        → KeepsHeld held.new (table_with records core (option_map (note_by of.now value) (records core))) }
    ensures other { result ≡ false → held.new ≡ held.old }
{
    let at = core.number() as usize;
    let Some(flags) = held[at] else {
        return false;
    };
    match of {
        Use::SignalFlags { signal, .. } => {
            let words = with_word(flags, *signal, Some(value));
            held[at] = Some(words);
            true
        }
        Use::Header { .. }
        | Use::Chunk { .. }
        | Use::SignalFlag { .. }
        | Use::Gather { .. }
        | Use::Release { .. }
        | Use::Heap
        | Use::Idle => false,
    }
}

/// Forgets a noted word of bit flags when the rank stores it.
pub(crate) fn forget_flags(held: &mut [Option<NotedFlags>; 48], of: &Use, core: CoreId)
    ensures forgets { (records : ℕ → Option FlagWords) → KeepsHeld held.old records
        → KeepsHeld held.new (table_with records core (option_map (forget_by of.now) (records core))) }
{
    let at = core.number() as usize;
    let Some(flags) = held[at] else {
        return;
    };
    match of {
        Use::SignalFlags { signal, .. } => {
            let words = with_word(flags, *signal, None);
            held[at] = Some(words);
        }
        Use::Header { .. }
        | Use::Chunk { .. }
        | Use::SignalFlag { .. }
        | Use::Gather { .. }
        | Use::Release { .. }
        | Use::Heap
        | Use::Idle => {}
    }
}
