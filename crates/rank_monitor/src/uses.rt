//! What the words of the buffers are for.

ghost use Rattle.std.specs.Prelude.{◌≡◌, ◌≢◌, ◌<◌, ◌≤◌, ℕ, true, IfSome};
ghost use Rattle.scc_base.specs.Layouts.{first_chunk, first_gather, first_release};
ghost use Rattle.scc_base.specs.Communicators.{rule_of};
ghost use Rattle.scc_base.specs.Setups.{SetupView};
ghost use Rattle.scc_base.specs.declared.communicators.CommRule.TheVariants.{Absent};
ghost use Rattle.scc_base.specs.declared.layouts.Layout.TheVariants.{BitFlags, LineFlags};
ghost use Rattle.scc_proto.specs.Words.{are_peers, barrier_role, flag_role, is_present, rank_below, rank_on, role_at, role_of};
ghost use Rattle.rank_monitor.specs.Uses.{IsWordUse, role_meant};

use scc_base::{Buf, CommRule, CoreId, Layout, Place, Rank, Setup, Signal};

/// What a word of the buffers is for. A flag of a signal is named by the rank that raises it and the rank at whose core it lies.
#[derive(Clone, Copy)]
pub enum Use {
    Header { owner: Rank, word: u8 },
    Chunk { owner: Rank, word: u16 },
    SignalFlag { signal: Signal, by: Rank, at: Rank },
    SignalFlags { signal: Signal, at: Rank },
    Gather { comm: u8, owner: Rank },
    Release { comm: u8, owner: Rank },
    Heap,
    Idle,
}

/// The rank on a core.
fn rank_on(setup: &Setup, core: CoreId) -> Option<Rank>
    ensures gives { result ≡ rank_on setup.now core }
    ensures below { IfSome result (λ r. r < setup.now.nue) }
{
    let mut left = setup.nue();
    while left > 0 {
        left -= 1;
        let rank = Rank::of(left);
        if setup.core_of(rank) == core {
            return Some(rank);
        }
    }
    None
}

/// Whether a communicator has a rule.
pub(crate) fn is_present(setup: &Setup, comm: u8) -> bool
    ensures tells { result ≡ is_present setup.now comm }
    ensures present { result ≡ true → (comm < 16) × (rule_of setup.now.comms comm ≢ Absent) }
{
    if comm >= 16 {
        return false;
    }
    match setup.rule(comm) {
        CommRule::Absent => false,
        CommRule::World | CommRule::Mod { .. } | CommRule::Div { .. } => true,
    }
}

fn first_gather(layout: Layout) -> u8
    ensures gives { result ≡ first_gather layout }
{
    match layout {
        Layout::LineFlags => 97,
        Layout::BitFlags => 2,
    }
}

fn first_release(layout: Layout) -> u8
    ensures gives { result ≡ first_release layout }
{
    match layout {
        Layout::LineFlags => 105,
        Layout::BitFlags => 10,
    }
}

/// A message between two ranks of the run.
fn are_peers(setup: &Setup, one: u8, other: Rank) -> bool
    ensures { result ≡ are_peers setup.now one other }
{
    one < setup.nue() && other.number() < setup.nue() && one != other.number()
}

/// What a word of a line of flags of messages is for, if each flag has a line.
fn line_use(setup: &Setup, owner: Rank, line: u8, word: u8) -> Use
    requires some { 1 ≤ line }
    requires low { line < 97 }
    ensures role { role_meant result ≡ flag_role LineFlags setup.now owner line word }
    ensures is_use { IsWordUse setup.now result }
{
    if word != 0 {
        return Use::Idle;
    }
    if line <= 48 {
        if are_peers(setup, line - 1, owner) {
            return Use::SignalFlag {
                signal: Signal::Sent,
                by: Rank::of(line - 1),
                at: owner,
            };
        }
    } else if are_peers(setup, line - 49, owner) {
        return Use::SignalFlag {
            signal: Signal::Ready,
            by: Rank::of(line - 49),
            at: owner,
        };
    }
    Use::Idle
}

/// What a word of the line of flags of messages is for, if each flag has a bit.
fn bit_use(setup: &Setup, owner: Rank, line: u8, word: u8) -> Use
    ensures role { role_meant result ≡ flag_role BitFlags setup.now owner line word }
    ensures is_use { IsWordUse setup.now result }
{
    match word {
        0 => Use::SignalFlags {
            signal: Signal::Sent,
            at: owner,
        },
        1 => Use::SignalFlags {
            signal: Signal::Ready,
            at: owner,
        },
        _ => Use::Idle,
    }
}

/// What a word of a line of barriers' flags is for.
fn barrier_use(setup: &Setup, owner: Rank, line: u8, word: u8) -> Use
    requires below { owner < setup.now.nue }
    requires low { first_gather setup.now.layout ≤ line }
    requires high { line < first_chunk setup.now.layout }
    ensures role { role_meant result ≡ barrier_role setup.now owner line word }
    ensures is_use { IsWordUse setup.now result }
{
    let release = first_release(setup.layout());
    let gather = first_gather(setup.layout());
    if word >= 2 {
        return Use::Idle;
    }
    if line >= release {
        let comm = 8 * word + (line - release);
        if is_present(setup, comm) {
            return Use::Release { comm, owner };
        }
    } else {
        let comm = 8 * word + (line - gather);
        if is_present(setup, comm) {
            return Use::Gather { comm, owner };
        }
    }
    Use::Idle
}

/// What a word of a rank's core is for.
fn use_at(setup: &Setup, owner: Rank, place: Place) -> Use
    requires below { owner < setup.now.nue }
    ensures role { role_meant result ≡ role_at setup.now owner place.line place.word }
    ensures is_use { IsWordUse setup.now result }
{
    let layout = setup.layout();
    let line = place.line();
    let word = place.word();
    if line == 0 {
        return Use::Header { owner, word };
    }
    if line < first_gather(layout) {
        return match layout {
            Layout::LineFlags => line_use(setup, owner, line, word),
            Layout::BitFlags => bit_use(setup, owner, line, word),
        };
    }
    let first = layout.first_chunk_line();
    if line < first {
        return barrier_use(setup, owner, line, word);
    }
    if line < Buf::FIRST {
        return Use::Chunk {
            owner,
            word: 4 * u16::from(line - first) + u16::from(word),
        };
    }
    Use::Heap
}

/// What a buffer word is for; every word of a core without a rank is idle.
pub fn use_of(setup: &Setup, place: Place) -> Use
    ensures role { role_meant result ≡ role_of setup.now place }
    ensures is_use { IsWordUse setup.now result }
{
    match rank_on(setup, place.core()) {
        Some(owner) => use_at(setup, owner, place),
        None => Use::Idle,
    }
}
