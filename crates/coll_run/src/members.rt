//! One rank of a run.

ghost use Rattle.std.specs.Prelude.{◌≡◌, ◌≤◌, ◌<◌, IfOk, length};
ghost use Rattle.coll_more.specs.Tables.{src_len_of};
ghost use Rattle.coll_run.specs.Teams.{AreFreshMembers, HasJoined};

use coll_more::{More, MoreOp, dst_len};
use line_cache::Evict;
use put_get::Core;
use scc_base::Rank;
use send_recv::Slot;
use std::alloc::{AllocError, Global};
use std::marker::Model;

/// One rank with its collective call: its core, its slot, the call, the bytes that it hands in and those that it gets, and
/// whether it has met a message with another head.
#[derive(Drop)]
pub struct Member<V: Evict + Drop> {
    pub(crate) core: Core<V>,
    pub(crate) slot: Slot,
    pub(crate) op: MoreOp,
    pub(crate) src: Vec<u8>,
    pub(crate) dst: Vec<u8>,
    pub(crate) met: bool,
}

impl<V: Evict + Drop> Model for Member<V> {
    ghost use Rattle.coll_run.specs.Teams.{MemberView};

    ghost Value = { MemberView };

    ghost view = { λ m. record {
      core = m.core;
      slot = m.slot;
      op = m.op;
      src = m.src.items;
      dst = m.dst.items;
      met = m.met;
    } };
}

impl<V: Evict + Drop> Member<V> {
    ghost use Rattle.std.specs.Prelude.{◌≡◌};
    ghost use Rattle.coll_run.specs.Teams.{IsFreshMember};

    /// A rank before its first turn, with its bytes.
    pub fn new(evict: V, more: More, len: u32, src: Vec<u8>, dst: Vec<u8>) -> Member<V>
        ensures fresh { IsFreshMember more len result }
        ensures src { result.src ≡ src.items }
        ensures dst { result.dst ≡ dst.items }
    {
        Member {
            core: Core::new(evict),
            slot: Slot::new(),
            op: MoreOp::new(more, len),
            src,
            dst,
            met: false,
        }
    }

    /// The bytes that it has got.
    pub fn dst(&self) -> &[u8]
        ensures gives { result.now ≡ self.now.dst }
    {
        self.dst.as_slice()
    }
}

/// Gives the next rank of a run its evictor and its bytes, before its first turn.
pub fn join<V: Evict + Drop>(
    alloc: Global,
    team: &mut Vec<Member<V>>,
    nue: u8,
    evict: V,
    more: More,
    len: u32,
    src: Vec<u8>,
) -> Result<(), AllocError>
    requires few { nue ≤ 48 }
    requires short { len ≤ 1024 }
    requires room { length team.old.items < nue }
    requires fresh { AreFreshMembers more len nue team.old.items }
    requires src { length src.items ≡ src_len_of more (length team.old.items) nue len }
    ensures joined { IfOk result (λ done. HasJoined more len nue team.old.items src.items team.new.items) }
{
    let rank = Rank::of(team.len() as u8);
    let dst = vec![in alloc; 0u8; dst_len(more, rank, nue, len)]?;
    team.push(Member::new(evict, more, len, src, dst))?;
    Ok(())
}
