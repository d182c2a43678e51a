//! The moves of barriers.

ghost use Rattle.std.specs.Prelude.{◌≡◌, ◌==◌, ◌&&◌, suc};

use crate::works::{Standing, Work};
use scc_base::Call;

/// Whether a place is the one after this one.
fn is_next(place: u8, before: u8) -> bool
    ensures tells { result ≡ (place == suc before) }
{
    u16::from(place) == u16::from(before) + 1
}

/// Whether these all hold.
fn are_all(first: bool, second: bool, third: bool, fourth: bool) -> bool
    ensures tells { result ≡ (first && (second && (third && fourth))) }
{
    first && second && third && fourth
}

impl Work {
    ghost use Rattle.std.specs.Prelude.{◌≡◌, ◌<◌, ℕ, None};
    ghost use Rattle.scc_proto.specs.Moves.{FlipGather, LookGather, LookRelease, WriteRelease};
    ghost use Rattle.rank_monitor.specs.Following.{Decides, MovesOn};

    /// Whether the rank may write its gather flag.
    pub(crate) fn may_flip(&self, comm: u8, value: u64) -> bool
        requires below { comm < 16 }
        ensures decides { (last : ℕ) → Decides self.now (FlipGather comm value last) result }
    {
        let free = self.standing.is_at_rest();
        let next = value == 1u64.saturating_sub(self.flags[comm as usize]);
        free && next
    }

    /// Whether the rank may write the release flag of a member.
    pub(crate) fn may_release(&self, comm: u8, place: u8, value: u64, last: u8) -> bool
        requires below { comm < 16 }
        ensures decides { (to : ℕ) → Decides self.now (WriteRelease comm to place value last) result }
    {
        let Standing::Meeting {
            comm: open,
            seen,
            released,
        } = self.standing
        else {
            return false;
        };
        let next = is_next(place, released);
        let told = value == self.flags[comm as usize];
        are_all(open == comm, seen == last, next, told)
    }

    pub(crate) fn flip_gather(&mut self, comm: u8, value: u64, last: u8) -> Option<Call>
        requires below { comm < 16 }
        ensures size { self.new.size ≡ self.old.size }
        ensures moves { MovesOn self.old self.new (FlipGather comm value last) result }
    {
        self.flags[comm as usize] = value;
        if last == 0 {
            self.bytes.clear();
            return Some(Call::Bar { comm });
        }
        self.standing = Standing::Meeting {
            comm,
            seen: 0,
            released: 0,
        };
        None
    }

    pub(crate) fn look_gather(&mut self, comm: u8, place: u8, value: u64)
        requires below { comm < 16 }
        ensures size { self.new.size ≡ self.old.size }
        ensures moves { (from : ℕ) → MovesOn self.old self.new (LookGather comm from place value) None }
    {
        let Standing::Meeting {
            comm: open,
            seen,
            released,
        } = self.standing
        else {
            return;
        };
        let next = is_next(place, seen);
        let told = value == self.flags[comm as usize];
        if !are_all(open == comm, true, next, told) {
            return;
        }
        self.standing = Standing::Meeting {
            comm: open,
            seen: place,
            released,
        };
    }

    pub(crate) fn write_release(&mut self, place: u8, last: u8) -> Option<Call>
        ensures size { self.new.size ≡ self.old.size }
        ensures moves { (comm to value : ℕ) → MovesOn self.old self.new (WriteRelease comm to place value last) result }
    {
        let Standing::Meeting { comm, seen, .. } = self.standing else {
            return None;
        };
        if place == last {
            self.bytes.clear();
            self.standing = Standing::Idle;
            return Some(Call::Bar { comm });
        }
        self.standing = Standing::Meeting {
            comm,
            seen,
            released: place,
        };
        None
    }

    pub(crate) fn look_release(&mut self, comm: u8, value: u64) -> Option<Call>
        requires below { comm < 16 }
        ensures size { self.new.size ≡ self.old.size }
        ensures moves { MovesOn self.old self.new (LookRelease comm value) result }
    {
        let Standing::Meeting { comm: open, .. } = self.standing else {
            return None;
        };
        let told = value == self.flags[comm as usize];
        if !are_all(open == comm, true, true, told) {
            return None;
        }
        self.bytes.clear();
        self.standing = Standing::Idle;
        Some(Call::Bar { comm: open })
    }
}
