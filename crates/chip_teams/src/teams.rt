//! Ranks that take turns on a chip with one seat.

ghost use Rattle.std.specs.Prelude.{◌≡◌, ◌<◌, IfOk};
ghost use Rattle.scc_mesh.specs.Scenes.{IsNew, IsWhole, about_in, events_in};
ghost use Rattle.scc_mesh.specs.Turns.{AfterTurn};

use scc_base::{CommRule, CoreId, Layout, Rank, Setup, Turn};
use scc_mesh::Chip;
use scc_proto::Port;
use std::alloc::Global;
use std::marker::Model;
use std::test::Fail;

/// A new chip of `nue` ranks, from the highest core down. `split` is the rule of communicator 8.
pub fn opened(alloc: Global, nue: u8, layout: Layout, split: CommRule) -> Result<Chip, Fail>
    ensures new { IfOk result (λ chip. IsNew (about_in chip) chip) }
    ensures ranks { IfOk result (λ chip. (about_in chip).nue ≡ nue) }
    ensures layout { IfOk result (λ chip. (about_in chip).layout ≡ layout) }
{
    let mut cores = [CoreId::of(0); 48];
    for number in 0..48 {
        cores[number] = CoreId::of(47 - number as u8);
    }
    let mut rules = [CommRule::Absent; 16];
    rules[0] = CommRule::World;
    rules[8] = split;
    let setup = Setup::new(nue, layout, cores, rules).ok_or("a setup")?;
    let mut chip = Chip::blank();
    chip.open(alloc, setup)?;
    Ok(chip)
}

/// What one rank does in a test, a turn at a time.
pub trait Player {
    ghost use Rattle.std.specs.Prelude.{ℕ, List};
    ghost use Rattle.scc_base.specs.Setups.{SetupView};
    ghost use Rattle.scc_base.specs.declared.events.Event.{Event};
    ghost use Rattle.scc_proto.specs.Ports.{Did};

    // How the player relates to the events of its rank.
    ghost stands: { Self → SetupView → ℕ → List Event → Type 0 };

    /// Makes some events, or none. It answers Done if nothing is left to do.
    fn turn<P: Port>(&mut self, port: &mut P) -> Turn
        requires stands { stands self.old (P.sight port.old).seat.setup (P.sight port.old).seat.rank (P.sight port.old).events }
        ensures stands { stands self.new (P.sight port.new).seat.setup (P.sight port.new).seat.rank (P.sight port.new).events }
        ensures did { (events : List Event) × Did (P.sight port.old) events (P.sight port.new) };
}

/// One turn of a rank, by that rank's port over the chip.
pub fn turn_of<M: Player>(chip: &mut Chip, rank: Rank, player: &mut M) -> Turn
    requires whole { IsWhole chip.old }
    requires below { rank < (about_in chip.old).nue }
    requires stands { M.stands player.old (about_in chip.old) rank (events_in chip.old rank) }
    ensures turned { AfterTurn (M.stands player.new) chip.old rank chip.new }
{
    let mut port = chip.port(rank);
    player.turn(&mut port)
}

/// The ranks of a chip from 0 on, with the player of each.
#[derive(Drop)]
pub struct Team<M: Player + Drop> {
    chip: Chip,
    players: Vec<M>,
}

impl<M: Player + Drop> Model for Team<M> {
    ghost use Rattle.std.specs.Prelude.{length};
    ghost use Rattle.scc_mesh.specs.Scenes.{about_in};
    ghost use Rattle.chip_teams.specs.Teams.{TeamView, IsTeam};

    ghost Value = { TeamView };

    ghost view = { λ t. record { about = about_in t.chip; size = length t.players.items } };

    ghost invariant = { λ t. IsTeam M.stands t.chip t.players.items };
}

impl<M: Player + Drop> Team<M> {
    ghost use Rattle.std.specs.Prelude.{◌≡◌, ◌↔◌, ◌+◌, ◌<◌, ◌≤◌, [], IfOk, IfErr, IsSome};
    ghost use Rattle.scc_mesh.specs.Scenes.{IsNew, about_in};

    /// A team without players, on a new chip.
    pub fn new(alloc: Global, chip: Chip) -> Team<M>
        requires new { IsNew (about_in chip) chip }
        ensures starts { result ≡ record { about = about_in chip; size = 0 } }
    {
        Team {
            chip,
            players: Vec::new(alloc),
        }
    }

    /// Gives the next rank its player.
    pub fn join(&mut self, player: M) -> Result<(), Fail>
        requires stands { M.stands player self.old.about self.old.size [] }
        ensures joined { IfOk result (λ done. self.new ≡ record self.old { size = self.old.size + 1 }) }
        ensures refused { IfErr result (λ failed. self.new ≡ self.old) }
    {
        if self.players.len() >= self.chip.setup().nue() as usize {
            return Err("a rank of the run".into());
        }
        self.players.push(player)?;
        Ok(())
    }

    /// One turn of a rank, or None if the rank has no player.
    pub fn turn(&mut self, at: usize) -> Option<Turn>
        ensures same { self.new ≡ self.old }
        ensures played { IsSome result ↔ (at < self.old.size) }
    {
        self.chip.known();
        if at >= self.players.len() {
            return None;
        }
        let player = &mut self.players[at];
        Some(turn_of(&mut self.chip, Rank::of(at as u8), player))
    }

    /// One turn of each rank that is named. Returns whether all of them answered Done.
    pub fn round(&mut self, order: &[usize]) -> bool
        ensures same { self.new ≡ self.old }
    {
        let mut done = true;
        for at in order {
            done = self.turn(*at) == Some(Turn::Done) && done;
        }
        done
    }

    /// Rounds until all players are done, at most `most` of them. Returns how many it took, or 0 if `most` were not enough.
    pub fn rounds(&mut self, order: &[usize], most: u32) -> u32
        ensures same { self.new ≡ self.old }
        ensures within { result ≤ most }
    {
        for rounds in 0..most {
            if self.round(order) {
                return rounds + 1;
            }
        }
        0
    }

    /// The player of a rank, or None if it has none.
    pub fn player(&self, at: usize) -> Option<&M>
        ensures found { IsSome result ↔ (at < self.now.size) }
    {
        self.players.get(at)
    }
}
