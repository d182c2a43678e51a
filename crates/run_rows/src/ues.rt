//! Whole scripts over a chip with one seat: each rank's unit of execution takes turns until none of them moves.

ghost use Rattle.std.specs.Prelude.{◌≡◌, ◌+◌, ◌<◌, [], IfOk};
ghost use Rattle.script_rules.specs.Script.{rules_of};
ghost use Rattle.rcce_ue.specs.Standing.{Tied};
ghost use Rattle.chip_teams.specs.Teams.{sight_alone};

use crate::scripts::{End, chip_with, has_printed, is_at, setup_of};
use chip_teams::{Player, Team};
use line_cache::Evict;
use rcce_ue::Ue;
use scc_base::{Layout, Rank, Setup, Turn};
use scc_proto::Port;
use script_reader::read_script;
use script_rules::Scripts;
use std::alloc::{AllocError, Global};
use std::test::Fail;

// How many turns have moved after one more with this answer.
fn moved_after(answer: &Turn, moved: u64) -> u64 {
    match answer {
        Turn::Moved => moved.saturating_add(1),
        _ => moved,
    }
}

/// A rank of a script, with the number of its turns that moved.
#[derive(Drop)]
pub(crate) struct Runner<'s, V: Evict + Drop> {
    pub ue: Ue<'s, V>,
    moved: u64,
}

impl<'s, V: Evict + Drop> Player for Runner<'s, V> {
    ghost use Rattle.chip_teams.specs.Teams.{sight_alone};
    ghost use Rattle.rcce_ue.specs.Standing.{Tied};

    ghost stands = { λ m s r events. Tied m.ue (sight_alone s r events) };

    fn turn<P: Port>(&mut self, port: &mut P) -> Turn {
        let answer = self.ue.turn(port);
        self.moved = moved_after(&answer, self.moved);
        answer
    }
}

/// What is wanted of a rank: its end, the items that it prints, how many turns it may take that move, and how many messages
/// and bytes it has sent.
pub(crate) type Wanted<'a> = (End, &'a [&'a [u8]], u64, (u64, u64));

/// A script, and what is wanted of each rank.
pub(crate) type Row<'a> = (&'a [u8], &'a [Wanted<'a>]);

// A rank that shows whether it has the wanted results.
trait Ends {
    fn is_wanted(&self, wanted: &Wanted<'_>) -> bool;
}

impl<'s, V: Evict + Drop> Ends for Runner<'s, V> {
    fn is_wanted(&self, wanted: &Wanted<'_>) -> bool {
        let (end, printed, most, (sent, sent_bytes)) = wanted;
        self.moved <= *most
            && self.ue.sent() == *sent
            && self.ue.sent_bytes() == *sent_bytes
            && has_printed(&self.ue, printed)
            && is_at(&self.ue, end)
    }
}

/// A rank of a script before its first turn.
pub(crate) fn runner_of<'s, V: Evict + Default + Drop>(
    alloc: Global,
    scripts: &'s Scripts,
    setup: &Setup,
    number: u8,
) -> Result<Runner<'s, V>, AllocError>
    requires within { number < setup.now.nue }
    requires ranks { setup.now.nue ≡ scripts.now.nue }
    requires communicators { setup.now.comms ≡ rules_of scripts.now.items }
    ensures fits { IfOk result (λ m. Tied m.ue (sight_alone setup.now number [])) }
{
    let ue = Ue::new(alloc, scripts, setup.copy(), Rank::of(number), V::default())?;
    Ok(Runner { ue, moved: 0 })
}

// Gives the next rank of a team its part of a script.
fn join_next<'s, V: Evict + Default + Drop>(
    alloc: Global,
    team: &mut Team<Runner<'s, V>>,
    scripts: &'s Scripts,
    setup: &Setup,
    number: u8,
) -> Result<(), Fail>
    requires within { number < setup.now.nue }
    requires ranks { setup.now.nue ≡ scripts.now.nue }
    requires communicators { setup.now.comms ≡ rules_of scripts.now.items }
    requires next { team.old ≡ record { about = setup.now; size = number } }
    ensures joined { IfOk result (λ done. team.new ≡ record { about = setup.now; size = number + 1 }) }
{
    team.join(runner_of(alloc, scripts, setup, number)?)
}

// One turn of each rank, in rank order or the other way round. Returns whether one of them moved.
fn sweep<M: Player + Drop>(team: &mut Team<M>, nue: usize, backwards: bool) -> bool {
    let mut moved = false;
    for number in 0..nue {
        let at = if backwards { nue - 1 - number } else { number };
        moved = matches!(team.turn(at), Some(Turn::Moved)) || moved;
    }
    moved
}

// Sweeps until no rank moves. Returns whether that happened.
fn settles<M: Player + Drop>(team: &mut Team<M>, nue: usize, backwards: bool) -> bool {
    for _ in 0..1_000 {
        if !sweep(team, nue, backwards) {
            return true;
        }
    }
    false
}

// Whether each rank has the wanted results.
fn are_wanted<M: Player + Ends + Drop>(team: &Team<M>, wanted: &[Wanted<'_>]) -> bool {
    for at in 0..wanted.len() {
        match team.player(at) {
            Some(player) if player.is_wanted(&wanted[at]) => {}
            _ => return false,
        }
    }
    true
}

// Whether the ranks stop moving, each with the wanted results, by sweeps in rank order or the other way round.
fn rest_at<M: Player + Ends + Drop>(
    team: &mut Team<M>,
    backwards: bool,
    wanted: &[Wanted<'_>],
) -> bool {
    settles(team, wanted.len(), backwards) && are_wanted(team, wanted)
}

// Whether the ranks of a script do so, on a new chip.
fn come_to<V: Evict + Default + Drop>(
    alloc: Global,
    scripts: &Scripts,
    layout: Layout,
    backwards: bool,
    wanted: &[Wanted<'_>],
) -> Result<bool, Fail> {
    let Some(setup) = setup_of(scripts, layout, true) else {
        return Ok(false);
    };
    let mut team = Team::new(alloc, chip_with(alloc, &setup)?);
    for number in 0..scripts.nue() {
        join_next::<V>(alloc, &mut team, scripts, &setup, number)?;
    }
    Ok(rest_at(&mut team, backwards, wanted))
}

/// Whether the script of a row has the wanted results for at most 48 ranks, by sweeps in rank order or the other way round.
pub(crate) fn comes_to<V: Evict + Default + Drop>(
    alloc: Global,
    row: &Row<'_>,
    layout: Layout,
    backwards: bool,
) -> Result<bool, Fail> {
    let (text, wanted) = *row;
    let nue = wanted.len();
    if nue < 1 || nue > 48 {
        return Ok(false);
    }
    match read_script(alloc, text, nue as u8) {
        Ok(scripts) => come_to::<V>(alloc, &scripts, layout, backwards, wanted),
        Err(_) => Ok(false),
    }
}
