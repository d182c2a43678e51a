//! Whether taps have room for the calls of a script.

ghost use Rattle.std.specs.Prelude.{◌≡◌, ◌<◌, IfOk};
ghost use Rattle.call_tap.specs.Planned.{has_room_for};
ghost use Rattle.script_machine.specs.CallLists.{calls_from, calls_of};
ghost use Rattle.script_rules.specs.Script.{rules_of};
ghost use Rattle.log_run.specs.Sizes.{has_room_for_all};

use scc_base::{Rank, Setup};
use script_machine::{Lengths, Walk};
use script_plain::setup_of;
use script_rules::Scripts;
use std::alloc::{AllocError, Global};

/// The most calls of a rank that are kept.
const MOST_CALLS: u64 = 10_000;

/// The most bytes of a rank's calls that are kept.
const MOST_BYTES: u64 = 262_144;

/// How many calls were counted, and how many bytes they move.
#[derive(Drop)]
struct Tally {
    calls: u64,
    bytes: u64,
}

impl Tally {
    ghost use Rattle.std.specs.Prelude.{◌≡◌, ◌+◌, ◌≤◌, nat_le, ◌&&◌};
    ghost use Rattle.log_run.specs.Sizes.{bytes_moved_by, calls_by};

    /// Counts the next primitive's call, which moves `moved` bytes, or none where it makes no call. Tells whether there is still room.
    fn add(&mut self, moved: Option<u32>) -> bool
        requires few { self.old.calls ≤ 10000 }
        requires small { self.old.bytes ≤ 262144 }
        ensures calls { self.new.calls ≡ self.old.calls + calls_by moved }
        ensures bytes { self.new.bytes ≡ self.old.bytes + bytes_moved_by moved }
        ensures within { result ≡ (nat_le self.new.calls 10000 && nat_le self.new.bytes 262144) }
    {
        if let Some(bytes) = moved {
            self.calls += 1;
            self.bytes += u64::from(bytes);
        }
        self.calls <= MOST_CALLS && self.bytes <= MOST_BYTES
    }
}

// Whether a tap has room for the calls that are left of a rank's walk, from registers of these lengths.
fn rest_has_room(walk: &mut Walk<'_>, lengths: &mut Lengths) -> Result<bool, AllocError>
    ensures { IfOk result (λ room. room ≡ has_room_for (calls_from lengths.old walk.old.left)) }
{
    let mut tally = Tally { calls: 0, bytes: 0 };
    while let Some(prim) = walk.front() {
        let moved = lengths.moved(&prim.action);
        if !tally.add(moved) {
            return Ok(false);
        }
        lengths.go(&prim.action)?;
        walk.advance();
    }
    Ok(true)
}

/// Whether a tap has room for all calls of a rank.
fn rank_has_room(
    alloc: Global,
    scripts: &Scripts,
    setup: Setup,
    rank: Rank,
) -> Result<bool, AllocError>
    requires within { rank < setup.nue }
    requires ranks { setup.nue ≡ scripts.now.nue }
    requires communicators { setup.comms ≡ rules_of scripts.now.items }
    ensures { IfOk result (λ room. room ≡ has_room_for (calls_of scripts.now rank)) }
{
    let mut walk = Walk::new(alloc, scripts, setup, rank)?;
    let mut lengths = Lengths::none(alloc, scripts.registers())?;
    rest_has_room(&mut walk, &mut lengths)
}

/// Whether taps have room for the calls of each rank of a script: at most 10,000 calls with 262,144 bytes together.
pub fn has_room(alloc: Global, scripts: &Scripts) -> Result<bool, AllocError>
    ensures { IfOk result (λ room. room ≡ has_room_for_all scripts.now) }
{
    let setup = setup_of(scripts);
    for number in 0..scripts.nue() {
        if !rank_has_room(alloc, scripts, setup.copy(), Rank::of(number))? {
            return Ok(false);
        }
    }
    Ok(true)
}
