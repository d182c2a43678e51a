//! Barriers over a chip with one seat.

ghost use Rattle.std.specs.Prelude.{◌≢◌, ◌<◌, ◌≤◌};
ghost use Rattle.scc_base.specs.Communicators.{rule_of};
ghost use Rattle.scc_base.specs.declared.communicators.CommRule.TheVariants.{Absent};
ghost use Rattle.scc_mesh.specs.Scenes.{IsNew, about_in};

use crate::fixtures::{LAYOUTS, as_named};
use crate::steps::{Answer, Step, takes};
use barrier::{BarOp, BarStop, Parity, barrier};
use chip_teams::{Player, Team, opened};
use line_cache::Never;
use put_get::Core;
use scc_base::{CommRule, CoreId, Layout, Place, Rank, Spot, Turn};
use scc_mesh::Chip;
use scc_proto::Port;
use std::alloc::Global;
use std::test::Fail;

/// A rank for the barriers of one communicator.
pub(crate) trait Enters: Player + Drop {
    ghost use Rattle.std.specs.Prelude.{◌≢◌, ◌<◌, ℕ, []};
    ghost use Rattle.scc_base.specs.Setups.{SetupView};
    ghost use Rattle.scc_base.specs.Communicators.{rule_of};
    ghost use Rattle.scc_base.specs.declared.communicators.CommRule.TheVariants.{Absent};

    /// A rank that enters the next barrier, and `more` after it, if it counts them.
    fn at(comm: u8, more: u8) -> Self
        requires below { comm < 16 }
        ensures ready { (s : SetupView) (r : ℕ) → rule_of s.comms comm ≢ Absent → Self.stands result s r [] };
}

/// A rank that enters barriers of a communicator, one after the other.
#[derive(Drop)]
struct Entrant {
    core: Core<Never>,
    comm: u8,
    op: BarOp,
    parity: Parity,
    // How many barriers it enters after this one.
    more: u8,
}

impl Enters for Entrant {
    fn at(comm: u8, more: u8) -> Entrant {
        Entrant {
            core: Core::new(Never),
            comm,
            op: BarOp::new(comm),
            parity: Parity::new(),
            more,
        }
    }
}

impl Player for Entrant {
    ghost use Rattle.chip_teams.specs.Teams.{sight_alone};
    ghost use Rattle.scc_rows.specs.Entrants.{IsBarrierReady};

    ghost stands = { λ m s r events. IsBarrierReady (sight_alone s r events) m.core m.comm m.op m.parity };

    fn turn<P: Port>(&mut self, port: &mut P) -> Turn {
        match self.op.turn(&mut self.core, port, &mut self.parity) {
            Turn::Done => {
                if self.more == 0 {
                    return Turn::Done;
                }
                self.more -= 1;
                self.op = BarOp::new(self.comm);
                Turn::Moved
            }
            Turn::Waiting(spot) => Turn::Waiting(spot),
            Turn::Moved => Turn::Moved,
        }
    }
}

// All ranks of a chip, for barriers of this communicator: each enters the first one and `more` after it.
pub(crate) fn entrants<M: Enters>(
    alloc: Global,
    chip: Chip,
    comm: u8,
    more: u8,
) -> Result<Team<M>, Fail>
    requires new { IsNew (about_in chip) chip }
    requires below { comm < 16 }
{
    if chip.setup().rule(comm) == CommRule::Absent {
        return Err("a communicator with a rule".into());
    }
    let nue = chip.setup().nue();
    let mut team = Team::new(alloc, chip);
    for _ in 0..nue {
        team.join(M::at(comm, more))?;
    }
    Ok(team)
}

// How many rounds of this order it takes until all ranks have passed a barrier and one more after it.
fn rounds_of(alloc: Global, layout: Layout, nue: u8, order: &[usize]) -> Result<u32, Fail> {
    let chip = opened(alloc, nue, layout, CommRule::Absent)?;
    let mut team = entrants::<Entrant>(alloc, chip, 0, 1)?;
    Ok(team.rounds(order, 20))
}

/// The orders of two and of three ranks.
const ORDERS: &[&[usize]] = &[
    &[0, 1],
    &[1, 0],
    &[0, 1, 2],
    &[0, 2, 1],
    &[1, 0, 2],
    &[1, 2, 0],
    &[2, 0, 1],
    &[2, 1, 0],
];

fn shows_orders(alloc: Global, layout: Layout) -> Result<(), Fail> {
    as_named(rounds_of(alloc, layout, 1, &[0])? == 2)?;
    for order in ORDERS {
        as_named(rounds_of(alloc, layout, order.len() as u8, order)? > 0)?;
    }
    Ok(())
}

#[test]
fn members_pass_twice_in_every_order(rt: HostRuntime) -> Result<(), Fail> {
    for layout in LAYOUTS {
        shows_orders(rt.alloc(), *layout)?;
    }
    Ok(())
}

const TWO_STAY: &[Step] = &[Step::Turn(0, Answer::Stays), Step::Turn(1, Answer::Stays)];

const ALL_PASS: &[Step] = &[Step::Rounds(&[0, 1, 2], 10, true)];

// Whether two of three ranks do not pass before the third has entered.
fn pass_after_third(team: &mut Team<Entrant>) -> bool {
    for _ in 0..10 {
        if !takes(team, TWO_STAY) {
            return false;
        }
    }
    takes(team, ALL_PASS)
}

#[test]
fn nobody_passes_before_all_have_entered(rt: HostRuntime) -> Result<(), Fail> {
    let chip = opened(rt.alloc(), 3, Layout::lines(), CommRule::Absent)?;
    let mut team = entrants(rt.alloc(), chip, 0, 0)?;
    as_named(pass_after_third(&mut team))
}

// Shows that the ranks of a chip take these steps in a barrier of this communicator.
fn shows_entrants(alloc: Global, chip: Chip, comm: u8, steps: &[Step]) -> Result<(), Fail>
    requires new { IsNew (about_in chip) chip }
    requires below { comm < 16 }
{
    let mut team = entrants::<Entrant>(alloc, chip, comm, 0)?;
    as_named(takes(&mut team, steps))
}

// Shows that `nue` ranks take these steps in a barrier, in both layouts. The ranks of even number are one group, and the
// others another.
fn shows_groups(alloc: Global, nue: u8, steps: &[Step]) -> Result<(), Fail> {
    for layout in LAYOUTS {
        let chip = opened(alloc, nue, *layout, CommRule::Mod { parent: 0, k: 2 })?;
        shows_entrants(alloc, chip, 8, steps)?;
    }
    Ok(())
}

/// Both groups are in it at once. Rank 0 alone does not pass a barrier of its group, and passes it with rank 2.
const BOTH_GROUPS: &[Step] = &[
    Step::Turn(0, Answer::Moves),
    Step::Turn(1, Answer::Moves),
    Step::Rounds(&[3, 1], 5, true),
    Step::Rounds(&[0], 5, false),
    Step::Rounds(&[2, 0], 5, true),
];

#[test]
fn the_groups_of_a_split_do_not_wait_for_each_other(rt: HostRuntime) -> Result<(), Fail> {
    shows_groups(rt.alloc(), 4, BOTH_GROUPS)
}

const GROUP_OF_ONE: &[Step] = &[
    Step::Turn(1, Answer::Passes),
    Step::Rounds(&[0], 5, false),
    Step::Rounds(&[2, 0], 5, true),
];

#[test]
fn a_rank_that_is_a_group_of_its_own_waits_for_nobody(rt: HostRuntime) -> Result<(), Fail> {
    shows_groups(rt.alloc(), 3, GROUP_OF_ONE)
}

// The root alone enters a barrier of all ranks.
fn entered_by_root(chip: &mut Chip, polls: u32) -> Result<(), BarStop>
    requires new { IsNew (about_in chip.old) chip.old }
    requires world { rule_of (about_in chip.old).comms 0 ≢ Absent }
    requires some { 1 ≤ polls }
{
    chip.known();
    let mut port = chip.port(Rank::of(0));
    let mut core = Core::new(Never);
    let mut parity = Parity::new();
    barrier(&mut core, &mut port, BarOp::new(0), &mut parity, polls)
}

// Whether a barrier stalled at this line of the other core, after two failed polls.
fn is_stalled(answer: Result<(), BarStop>, line: u8) -> bool {
    let place = Place::new(CoreId::of(46), line, 0);
    match answer {
        Err(BarStop::Stalled { op: _, spot, polls }) => {
            spot == Spot::Flag { place, bit: 0 } && polls == 2
        }
        Ok(()) => false,
    }
}

/// The lines of the gather flags of the world.
const GATHERS: &[(Layout, u8)] = &[(Layout::LineFlags, 97), (Layout::BitFlags, 2)];

fn shows_root_alone(alloc: Global, layout: Layout, line: u8) -> Result<(), Fail> {
    let mut chip = opened(alloc, 2, layout, CommRule::Absent)?;
    if chip.setup().rule(0) == CommRule::Absent {
        return as_named(false);
    }
    as_named(is_stalled(entered_by_root(&mut chip, 2), line))
}

#[test]
fn the_root_alone_is_stalled_at_the_other_gather_flag(rt: HostRuntime) -> Result<(), Fail> {
    for (layout, line) in GATHERS {
        shows_root_alone(rt.alloc(), *layout, *line)?;
    }
    Ok(())
}
