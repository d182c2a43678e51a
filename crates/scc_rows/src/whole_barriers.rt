//! Barriers as whole calls, by the ranks of a chip with one seat.

ghost use Rattle.std.specs.Prelude.{◌<◌};
ghost use Rattle.scc_mesh.specs.Scenes.{IsNew, about_in};

use crate::barriers::{Enters, entrants};
use crate::fixtures::{LAYOUTS, as_named};
use crate::steps::{Answer, Step, takes};
use barrier::{BarOp, BarStop, Parity, barrier};
use chip_teams::{Player, opened};
use line_cache::Never;
use put_get::Core;
use scc_base::{CommRule, Layout, Turn};
use scc_mesh::Chip;
use scc_proto::Port;
use std::alloc::Global;
use std::mem;
use std::test::Fail;

/// How many failed polls in a row end a whole barrier.
const POLLS: u32 = 3;

/// A rank that passes barriers of a communicator by whole calls, one in each turn. If a call gives up, the next turn continues it.
#[derive(Drop)]
struct Passer {
    core: Core<Never>,
    comm: u8,
    op: BarOp,
    parity: Parity,
}

impl Enters for Passer {
    fn at(comm: u8, more: u8) -> Passer {
        let _ = more;
        Passer {
            core: Core::new(Never),
            comm,
            op: BarOp::new(comm),
            parity: Parity::new(),
        }
    }
}

impl Player for Passer {
    ghost use Rattle.chip_teams.specs.Teams.{sight_alone};
    ghost use Rattle.scc_rows.specs.Entrants.{IsBarrierReady};

    ghost stands = { λ m s r events. IsBarrierReady (sight_alone s r events) m.core m.comm m.op m.parity };

    fn turn<P: Port>(&mut self, port: &mut P) -> Turn {
        let next = BarOp::new(self.comm);
        let op = mem::replace(&mut self.op, next);
        match barrier(&mut self.core, port, op, &mut self.parity, POLLS) {
            Ok(()) => Turn::Done,
            Err(BarStop::Stalled { op, spot, polls: _ }) => {
                self.op = op;
                Turn::Waiting(spot)
            }
        }
    }
}

// Shows that the ranks of a chip take the first steps and then the others, by whole calls of this communicator's barriers.
fn shows_passers(
    alloc: Global,
    chip: Chip,
    comm: u8,
    first: &[Step],
    second: &[Step],
) -> Result<(), Fail>
    requires new { IsNew (about_in chip) chip }
    requires below { comm < 16 }
{
    let mut team = entrants::<Passer>(alloc, chip, comm, 0)?;
    as_named(takes(&mut team, first) && takes(&mut team, second))
}

/// At the root and at the other rank, a call waits at each of the flags in turn, and then the barrier continues. The lines are those of the
/// gather and the release flags of the world.
const BY_LINES: &[Step] = &[
    Step::Turn(0, Answer::WaitsAt(97)),
    Step::Turn(1, Answer::WaitsAt(105)),
    Step::Turn(1, Answer::WaitsAt(105)),
    Step::Turn(0, Answer::Passes),
    Step::Turn(1, Answer::Passes),
];

const BY_BITS: &[Step] = &[
    Step::Turn(0, Answer::WaitsAt(2)),
    Step::Turn(1, Answer::WaitsAt(10)),
    Step::Turn(1, Answer::WaitsAt(10)),
    Step::Turn(0, Answer::Passes),
    Step::Turn(1, Answer::Passes),
];

const STALLS: &[(Layout, &[Step])] = &[(Layout::LineFlags, BY_LINES), (Layout::BitFlags, BY_BITS)];

#[test]
fn a_barrier_that_stalled_goes_on(rt: HostRuntime) -> Result<(), Fail> {
    for (layout, steps) in STALLS {
        let chip = opened(rt.alloc(), 2, *layout, CommRule::Absent)?;
        // Twice, so that the flags are flipped up and down again.
        shows_passers(rt.alloc(), chip, 0, steps, steps)?;
    }
    Ok(())
}

const FIRST_PASSES: &[Step] = &[
    Step::Turn(2, Answer::Stays),
    Step::Turn(0, Answer::Passes),
    Step::Turn(0, Answer::Stays),
];

const OTHERS_PASS: &[Step] = &[Step::Turn(2, Answer::Passes), Step::Turn(1, Answer::Passes)];

#[test]
fn a_groups_barrier_goes_on_without_the_other_ranks(rt: HostRuntime) -> Result<(), Fail> {
    for layout in LAYOUTS {
        // Ranks 0 and 2 are one group, and rank 1 is another.
        let chip = opened(rt.alloc(), 3, *layout, CommRule::Mod { parent: 0, k: 2 })?;
        shows_passers(rt.alloc(), chip, 8, FIRST_PASSES, OTHERS_PASS)?;
    }
    Ok(())
}
