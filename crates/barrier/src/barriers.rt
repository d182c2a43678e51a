//! A whole barrier, with a bound on the looks that find nothing.

ghost use Rattle.std.specs.Prelude.{◌≤◌};
ghost use Rattle.barrier.specs.Stages.{BarStands, meeting, with_parity};
ghost use Rattle.barrier.specs.Calls.{Ends};

use crate::ops::BarOp;
use crate::parities::Parity;
use line_cache::Evict;
use put_get::Core;
use scc_base::{Spot, Turn};
use scc_proto::Port;

/// Why a barrier stopped.
#[derive(Drop)]
pub enum BarStop {
    /// The last `polls` looks at this flag were vain. The barrier can go on by another call.
    Stalled { op: BarOp, spot: Spot, polls: u32 },
}

/// Waits until all members of the own group have entered the barrier.
pub fn barrier<V: Evict, P: Port>(
    core: &mut Core<V>,
    port: &mut P,
    op: BarOp,
    parity: &mut Parity,
    polls: u32,
) -> Result<(), BarStop>
    requires some { 1 ≤ polls }
    requires stands { BarStands (P.sight port.old) core.old op parity.old }
    ensures ends { Ends (meeting (P.sight port.old) core.old op parity.old) polls
        (with_parity (P.sight port.new) core.new parity.new) result }
{
    let mut op = op;
    let mut failed: u32 = 0;
    'turns: loop {
        match op.turn(core, port, parity) {
            Turn::Done => return Ok(()),
            Turn::Moved => failed = 0,
            Turn::Waiting(spot) => {
                failed += 1;
                if failed >= polls {
                    return Err(BarStop::Stalled { op, spot, polls });
                }
            }
        }
    }
}
