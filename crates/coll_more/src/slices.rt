//! Parts of the bytes that a collective call reads and writes.

ghost use Rattle.std.specs.Prelude.{◌≡◌, ◌+◌, ◌≤◌, true, Some, drop, length, take};
ghost use Rattle.scc_base.specs.declared.events.Spot.{Spot};
ghost use Rattle.put_get.specs.Cores.{MadeSteps};
ghost use Rattle.send_recv.specs.Receiving.{RecvStands, RecvTurned, recv_waits};
ghost use Rattle.send_recv.specs.Ranks.{receiving};
ghost use Rattle.coll_more.specs.Ops.{window};

use line_cache::Evict;
use put_get::Core;
use scc_proto::Port;
use send_recv::{RecvOp, RecvTurn};

/// A part of a slice.
pub(crate) fn part_of(bytes: &[u8], first: usize, len: usize) -> &[u8]
    requires within { first + len ≤ length bytes.now }
    ensures gives { result.now ≡ window first len bytes.now }
{
    &bytes[first..first + len]
}

/// Copies a part of one slice into the same place of another.
pub(crate) fn copy_part(src: &[u8], dst: &mut [u8], first: usize, len: usize)
    requires given { first + len ≤ length src.now }
    requires within { first + len ≤ length dst.old }
    ensures copied { window first len dst.new ≡ window first len src.now }
{
    let (_, rest) = dst.split_at_mut(first);
    let (part, _) = rest.split_at_mut(len);
    part.copy_from_slice(part_of(src, first, len));
}

/// Does so where it is asked for.
pub(crate) fn copy_if(asked: bool, src: &[u8], dst: &mut [u8], first: usize, len: usize)
    requires given { asked ≡ true → first + len ≤ length src.now }
    requires within { asked ≡ true → first + len ≤ length dst.old }
    ensures copied { asked ≡ true → window first len dst.new ≡ window first len src.now }
{
    if !asked {
        return;
    }
    copy_part(src, dst, first, len);
}

/// One turn of a receive into a part of a slice.
pub(crate) fn take_turn<V: Evict, P: Port>(
    op: &mut RecvOp,
    core: &mut Core<V>,
    port: &mut P,
    dst: &mut [u8],
    first: usize,
    len: usize,
) -> RecvTurn
    requires within { first + len ≤ length dst.old }
    requires stands { RecvStands (P.sight port.old) core.old op.old (window first len dst.old) }
    ensures stands { RecvStands (P.sight port.new) core.new op.new (window first len dst.new) }
    ensures turned { RecvTurned (receiving (P.sight port.old) core.old op.old (window first len dst.old))
        (receiving (P.sight port.new) core.new op.new (window first len dst.new)) result }
    ensures steps { (spot : Spot) → recv_waits result ≡ Some spot → MadeSteps P.stepped (P.sight port.old) (P.sight port.new) }
    ensures before { take first dst.new ≡ take first dst.old }
    ensures afterwards { drop (first + len) dst.new ≡ drop (first + len) dst.old }
{
    let (_, rest) = dst.split_at_mut(first);
    let (part, _) = rest.split_at_mut(len);
    op.turn(core, port, part)
}
