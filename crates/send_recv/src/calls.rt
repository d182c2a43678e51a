//! Receive and test as whole calls, with a bound on the tries that find nothing.

ghost use Rattle.std.specs.Prelude.{◌≡◌, ◌≤◌};
ghost use Rattle.send_recv.specs.Ops.{new_receive};
ghost use Rattle.send_recv.specs.Receiving.{RecvStands};
ghost use Rattle.send_recv.specs.Calling.{RecvEnds, TestEnds};
ghost use Rattle.send_recv.specs.Ranks.{receiving, with_bytes};

use crate::answers::RecvTurn;
use crate::receives::RecvOp;
use line_cache::Evict;
use put_get::Core;
use scc_base::{Head, Spot};
use scc_proto::Port;

/// Why a receive stopped.
#[derive(Drop)]
pub enum RecvStop {
    /// The last `polls` tries at this spot were vain. The op can go on by another call, with the same bytes.
    Stalled { op: RecvOp, spot: Spot, polls: u32 },
    /// The message that was sent has another head. It stays untaken.
    Mismatch { sent: Head, asked: Head },
}

/// Receives a message.
pub fn recv<V: Evict, P: Port>(
    core: &mut Core<V>,
    port: &mut P,
    op: RecvOp,
    bytes: &mut [u8],
    polls: u32,
) -> Result<(), RecvStop>
    requires some { 1 ≤ polls }
    requires stands { RecvStands (P.sight port.old) core.old op bytes.old }
    ensures ends { RecvEnds (receiving (P.sight port.old) core.old op bytes.old) polls
        (with_bytes (P.sight port.new) core.new bytes.new) result }
{
    let asked = op.head();
    let mut op = op;
    let mut failed: u32 = 0;
    'turns: loop {
        match op.turn(core, port, bytes) {
            RecvTurn::Done => return Ok(()),
            RecvTurn::Mismatch(sent) => return Err(RecvStop::Mismatch { sent, asked }),
            RecvTurn::Moved => failed = 0,
            RecvTurn::Waiting(spot) => {
                failed += 1;
                if failed >= polls {
                    return Err(RecvStop::Stalled { op, spot, polls });
                }
            }
        }
    }
}

/// Receives a message if one was sent: false where a first look finds none. The receive is one at its start.
pub fn recv_test<V: Evict, P: Port>(
    core: &mut Core<V>,
    port: &mut P,
    op: RecvOp,
    bytes: &mut [u8],
    polls: u32,
) -> Result<bool, RecvStop>
    requires some { 1 ≤ polls }
    requires start { op ≡ new_receive op.from op.head }
    requires stands { RecvStands (P.sight port.old) core.old op bytes.old }
    ensures ends { TestEnds (receiving (P.sight port.old) core.old op bytes.old) polls
        (with_bytes (P.sight port.new) core.new bytes.new) result }
{
    let asked = op.head();
    let mut op = op;
    match op.turn(core, port, bytes) {
        RecvTurn::Waiting(_) => Ok(false),
        RecvTurn::Done => Ok(true),
        RecvTurn::Mismatch(sent) => Err(RecvStop::Mismatch { sent, asked }),
        RecvTurn::Moved => {
            recv(core, port, op, bytes, polls)?;
            Ok(true)
        }
    }
}
