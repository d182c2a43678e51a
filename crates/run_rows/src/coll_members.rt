//! A rank that makes a collective call several times.

ghost use Rattle.std.specs.Prelude.{◌≤◌, ℕ, [], IfOk};
ghost use Rattle.scc_base.specs.Setups.{SetupView};
ghost use Rattle.run_rows.specs.CollMembers.{IsAtOp};
ghost use Rattle.chip_teams.specs.Teams.{sight_alone};

use crate::coll_pieces::{is_right, is_whole, src_of};
use chip_teams::Player;
use coll_more::{More, MoreOp, dst_len, src_len};
use line_cache::Evict;
use put_get::Core;
use scc_base::{Rank, Turn};
use scc_proto::Port;
use send_recv::{RecvTurn, Slot};
use std::alloc::{AllocError, Global};

/// A rank that makes a collective call several times.
#[derive(Drop)]
pub(crate) struct Member<V: Evict + Drop> {
    core: Core<V>,
    slot: Slot,
    // The unfinished call, if there is one.
    op: Option<MoreOp>,
    more: More,
    len: u32,
    src: Vec<u8>,
    dst: Vec<u8>,
    // How many calls have not begun.
    left: u32,
    // How many calls got the right bytes.
    pub right: u32,
}

/// A rank that makes a call `times` times.
pub(crate) fn member_of<V: Evict + Default + Drop>(
    alloc: Global,
    more: More,
    len: u32,
    rank: Rank,
    nue: u8,
    times: u32,
) -> Result<Member<V>, AllocError>
    requires few { nue ≤ 48 }
    requires short { len ≤ 1024 }
    ensures ready { IfOk result (λ m. (s : SetupView) (r : ℕ) → IsAtOp (sight_alone s r []) m.core m.slot m.src.items m.dst.items m.op) }
{
    let src = src_of(alloc, more, rank, nue, len)?;
    let dst = vec![in alloc; 0u8; dst_len(more, rank, nue, len)]?;
    Ok(Member::new(V::default(), more, len, src, dst, times))
}

impl<V: Evict + Drop> Member<V> {
    ghost use Rattle.std.specs.Prelude.{◌≡◌, ℕ, List, [], None};
    ghost use Rattle.scc_base.specs.Setups.{SetupView};
    ghost use Rattle.scc_base.specs.declared.events.Event.{Event};
    ghost use Rattle.scc_proto.specs.Ports.{Did};
    ghost use Rattle.send_recv.specs.Calling.{IsBetweenMessages};
    ghost use Rattle.coll_more.specs.Standing.{Stands};
    ghost use Rattle.coll_more.specs.Ops.{taking_part};
    ghost use Rattle.run_rows.specs.CollMembers.{IsAtOp};
    ghost use Rattle.chip_teams.specs.Teams.{sight_alone};

    fn new(evict: V, more: More, len: u32, src: Vec<u8>, dst: Vec<u8>, times: u32) -> Member<V>
        ensures ready { (s : SetupView) (r : ℕ)
            → IsAtOp (sight_alone s r []) result.core result.slot result.src.items result.dst.items result.op }
    {
        Member {
            core: Core::new(evict),
            slot: Slot::new(),
            op: None,
            more,
            len,
            src,
            dst,
            left: times,
            right: 0,
        }
    }

    // Begins a call, if its bytes fit the rank.
    fn begin<P: Port>(&mut self, port: &P)
        requires no_op { self.old.op ≡ None }
        requires free { IsBetweenMessages (P.sight port.now) self.old.core self.old.slot }
        ensures stands { IsAtOp (P.sight port.now) self.new.core self.new.slot self.new.src.items self.new.dst.items self.new.op }
    {
        let rank = port.rank();
        let nue = port.setup().nue();
        if self.len > 1024 {
            return;
        }
        let all_in = self.src.len() == src_len(self.more, rank, nue, self.len);
        let all_out = self.dst.len() == dst_len(self.more, rank, nue, self.len);
        if all_in && all_out {
            self.op = Some(MoreOp::new(self.more, self.len));
        }
    }

    // Counts a call that has ended, if its bytes are right, and clears them.
    fn end(&mut self, rank: u8, nue: u8) -> Turn
        ensures core { self.new.core ≡ self.old.core }
        ensures slot { self.new.slot ≡ self.old.slot }
        ensures op { self.new.op ≡ self.old.op }
    {
        let right = is_whole(&self.src, self.more, rank, nue, self.len)
            && is_right(&self.dst, self.more, rank, nue, self.len);
        self.right = self.right.saturating_add(right as u32);
        self.dst.fill(0);
        if self.left == 0 {
            Turn::Done
        } else {
            Turn::Moved
        }
    }

    // One turn of a call. A message with another head keeps the call unfinished.
    fn go_on<P: Port>(&mut self, port: &mut P, mut op: MoreOp) -> Turn
        requires no_op { self.old.op ≡ None }
        requires stands { Stands (taking_part (P.sight port.old) self.old.core op self.old.slot self.old.src.items self.old.dst.items) }
        ensures stands { IsAtOp (P.sight port.new) self.new.core self.new.slot self.new.src.items self.new.dst.items self.new.op }
        ensures did { (events : List Event) × Did (P.sight port.old) events (P.sight port.new) }
    {
        let turn = op.turn(
            &mut self.core,
            port,
            &mut self.slot,
            &self.src,
            &mut self.dst,
        );
        match turn {
            RecvTurn::Done => self.end(port.rank().number(), port.setup().nue()),
            RecvTurn::Waiting(spot) => {
                self.op = Some(op);
                Turn::Waiting(spot)
            }
            _ => {
                self.op = Some(op);
                Turn::Moved
            }
        }
    }
}

impl<V: Evict + Drop> Player for Member<V> {
    ghost use Rattle.run_rows.specs.CollMembers.{IsAtOp};
    ghost use Rattle.chip_teams.specs.Teams.{sight_alone};

    ghost stands = { λ m s r events. IsAtOp (sight_alone s r events) m.core m.slot m.src.items m.dst.items m.op };

    fn turn<P: Port>(&mut self, port: &mut P) -> Turn {
        let begun = self.op.take();
        if let Some(op) = begun {
            return self.go_on(port, op);
        }
        if self.left == 0 {
            return Turn::Done;
        }
        self.left -= 1;
        self.begin(port);
        Turn::Moved
    }
}
