//! The moves of the protocol, and which one a load or a store is.

ghost use Rattle.std.specs.Prelude.{◌≡◌, ◌<◌, option_map};
ghost use Rattle.scc_base.specs.Places.{WordAt};
ghost use Rattle.scc_proto.specs.Records.{last_of, leads, load_by, store_by};
ghost use Rattle.scc_proto.specs.Words.{SignalFlags};
ghost use Rattle.scc_proto.specs.Stages.{Record};
ghost use Rattle.rank_monitor.specs.Held.{flag_words};
ghost use Rattle.rank_monitor.specs.Steps.{IsStepWithin, move_of};
ghost use Rattle.rank_monitor.specs.Uses.{IsMemberUse, IsWordUse, role_meant};

use crate::changes::{Change, change_of};
use crate::held::{NotedFlags, noted_of};
use crate::looks::Look;
use crate::uses::Use;
use scc_base::{Place, Rank, Setup, Signal};

/// A move of the handshake or of the barrier.
#[derive(Clone, Copy)]
pub enum Step {
    DraftHeader {
        word: u8,
        value: u64,
    },
    DraftChunk {
        word: u16,
        value: u64,
    },
    RaiseSignal {
        signal: Signal,
        to: Rank,
    },
    LookSignal {
        signal: Signal,
        look: Look,
    },
    ReadHeader {
        from: Rank,
        word: u8,
        value: u64,
    },
    ReadChunk {
        from: Rank,
        word: u16,
        value: u64,
    },
    LowerSignal {
        signal: Signal,
        by: Rank,
    },
    FlipGather {
        comm: u8,
        value: u64,
        last: u8,
    },
    LookGather {
        comm: u8,
        from: Rank,
        place: u8,
        value: u64,
    },
    WriteRelease {
        comm: u8,
        to: Rank,
        place: u8,
        value: u64,
        last: u8,
    },
    LookRelease {
        comm: u8,
        value: u64,
    },
    StoreHeap {
        place: Place,
        value: u64,
    },
    /// A load that says nothing about the protocol.
    Nothing,
    /// A store that no record permits.
    Misplaced,
}

/// Whether a rank is the root of another one's group.
fn leads(setup: &Setup, comm: u8, root: Rank, of: Rank) -> bool
    requires root { IsMemberUse setup.now comm root }
    requires of { IsMemberUse setup.now comm of }
    ensures tells { result ≡ leads setup.now comm root of }
{
    setup.root(comm, of) == setup.root(comm, root) && setup.place(comm, root) == 0
}

/// The place of the last member of a rank's group.
fn last_place(setup: &Setup, comm: u8, rank: Rank) -> u8
    requires member { IsMemberUse setup.now comm rank }
    ensures gives { result ≡ last_of setup.now comm rank }
{
    setup.group_size(comm, rank).saturating_sub(1)
}

/// The move that a load of a word is.
pub(crate) fn load_step(setup: &Setup, rank: Rank, of: &Use, value: u64) -> Step
    requires below { rank < setup.now.nue }
    requires is_use { IsWordUse setup.now of.now }
    ensures gives { move_of result ≡ load_by setup.now rank value (role_meant of.now) }
    ensures within { IsStepWithin result }
{
    match of {
        Use::Header { owner, word } => Step::ReadHeader {
            from: *owner,
            word: *word,
            value,
        },
        Use::Chunk { owner, word } => Step::ReadChunk {
            from: *owner,
            word: *word,
            value,
        },
        Use::SignalFlag { signal, by, at } => {
            if *at == rank {
                Step::LookSignal {
                    signal: *signal,
                    look: Look::Line { of: *by, value },
                }
            } else {
                Step::Nothing
            }
        }
        Use::SignalFlags { signal, at } => {
            if *at == rank {
                Step::LookSignal {
                    signal: *signal,
                    look: Look::Bits {
                        me: rank,
                        nue: setup.nue(),
                        value,
                    },
                }
            } else {
                Step::Nothing
            }
        }
        Use::Gather { comm, owner } => {
            if leads(setup, *comm, rank, *owner) {
                Step::LookGather {
                    comm: *comm,
                    from: *owner,
                    place: setup.place(*comm, *owner),
                    value,
                }
            } else {
                Step::Nothing
            }
        }
        Use::Release { comm, owner } => {
            if *owner == rank && !leads(setup, *comm, rank, rank) {
                Step::LookRelease { comm: *comm, value }
            } else {
                Step::Nothing
            }
        }
        Use::Heap | Use::Idle => Step::Nothing,
    }
}

/// The move that a store to a word of a signal's bits at a rank's core is.
fn flags_change(
    setup: &Setup,
    rank: Rank,
    flags: Option<NotedFlags>,
    signal: Signal,
    owner: Rank,
    value: u64,
) -> Step
    ensures gives { (rec : Record) (place : WordAt) → rec.held place.core ≡ option_map flag_words flags
        → move_of result ≡ store_by setup.now rank rec place value (SignalFlags signal owner) }
    ensures within { IsStepWithin result }
{
    let noted = noted_of(flags, signal);
    match change_of(setup, rank, owner, noted, value) {
        Change::Lowered { of } => Step::LowerSignal { signal, by: of },
        Change::Raised { at } => Step::RaiseSignal { signal, to: at },
        Change::Misplaced => Step::Misplaced,
    }
}

/// The move that a store to a word is.
pub(crate) fn store_step(
    setup: &Setup,
    rank: Rank,
    flags: Option<NotedFlags>,
    of: &Use,
    place: Place,
    value: u64,
) -> Step
    requires below { rank < setup.now.nue }
    requires is_use { IsWordUse setup.now of.now }
    ensures gives { (rec : Record) → rec.held place.core ≡ option_map flag_words flags
        → move_of result ≡ store_by setup.now rank rec place value (role_meant of.now) }
    ensures within { IsStepWithin result }
{
    match of {
        Use::Header { owner, word } => {
            if *owner == rank {
                Step::DraftHeader { word: *word, value }
            } else {
                Step::Misplaced
            }
        }
        Use::Chunk { owner, word } => {
            if *owner == rank {
                Step::DraftChunk { word: *word, value }
            } else {
                Step::Misplaced
            }
        }
        Use::SignalFlag { signal, by, at } => {
            if *by == rank && value == 1 {
                Step::RaiseSignal {
                    signal: *signal,
                    to: *at,
                }
            } else if *at == rank && value == 0 {
                Step::LowerSignal {
                    signal: *signal,
                    by: *by,
                }
            } else {
                Step::Misplaced
            }
        }
        Use::SignalFlags { signal, at } => { flags_change(setup, rank, flags, *signal, *at, value) }
        Use::Gather { comm, owner } => {
            if *owner == rank {
                Step::FlipGather {
                    comm: *comm,
                    value,
                    last: last_place(setup, *comm, rank),
                }
            } else {
                Step::Misplaced
            }
        }
        Use::Release { comm, owner } => {
            if leads(setup, *comm, rank, *owner) {
                Step::WriteRelease {
                    comm: *comm,
                    to: *owner,
                    place: setup.place(*comm, *owner),
                    value,
                    last: last_place(setup, *comm, rank),
                }
            } else {
                Step::Misplaced
            }
        }
        Use::Heap => Step::StoreHeap { place, value },
        Use::Idle => Step::Misplaced,
    }
}
