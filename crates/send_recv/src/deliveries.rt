//! Sends and posts as whole calls, with a bound on the tries that find nothing.

ghost use Rattle.std.specs.Prelude.{◌≡◌, ◌≤◌};
ghost use Rattle.send_recv.specs.Sending.{SendStands};
ghost use Rattle.send_recv.specs.Calling.{SendEnds};
ghost use Rattle.send_recv.specs.Ranks.{sending, holding_slot};

use crate::sends::SendOp;
use crate::slots::Slot;
use line_cache::Evict;
use put_get::Core;
use scc_base::{Spot, Turn};
use scc_proto::Port;

/// Why a send or a post stopped.
#[derive(Drop)]
pub enum SendStop {
    /// The last `polls` tries at this spot were vain. The op can go on by another call, with the same bytes.
    Stalled { op: SendOp, spot: Spot, polls: u32 },
}

/// Sends or posts a message. A message that is on its way is first waited for.
pub fn send<V: Evict, P: Port>(
    core: &mut Core<V>,
    port: &mut P,
    slot: &mut Slot,
    op: SendOp,
    bytes: &[u8],
    polls: u32,
) -> Result<(), SendStop>
    requires some { 1 ≤ polls }
    requires stands { SendStands (P.sight port.old) core.old op slot.old bytes.now }
    ensures ends { SendEnds (sending (P.sight port.old) core.old op slot.old bytes.now) polls
        (holding_slot (P.sight port.new) core.new slot.new) result }
{
    let mut op = op;
    let mut failed: u32 = 0;
    'turns: loop {
        match op.turn(core, port, slot, bytes) {
            Turn::Done => return Ok(()),
            Turn::Moved => failed = 0,
            Turn::Waiting(spot) => {
                failed += 1;
                if failed >= polls {
                    return Err(SendStop::Stalled { op, spot, polls });
                }
            }
        }
    }
}
