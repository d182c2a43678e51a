//! Both players at once, on one chip.

ghost use Rattle.std.specs.Prelude.{◌≡◌, ◌⊎◌, ℕ, List, [], length, IfErr, IfOk};
ghost use Rattle.scc_proto.specs.Ports.{Sight};
ghost use Rattle.scc_proto.specs.Records.{record_of};
ghost use Rattle.scc_mesh.specs.Scenes.{IsHomeBelow, IsNew, IsWhole, about_in, events_in, sight_away, table_in};
ghost use Rattle.station.specs.Stations.{NoCallOpen};
ghost use Rattle.scc_base.specs.Worlds.{world_setup};
ghost use Rattle.ping_pong.specs.GivingUp.{HasCome, HitStops, ServeStops};
ghost use Rattle.ping_pong.specs.Rallies.{IsFreshStation, hits, serves};

use crate::players::{hit, serve};
use line_cache::Never;
use scc_base::Rank;
use scc_mesh::{Chip, SeatPort, Token};
use station::{Station, Stop};
use std::thread;
use std::thread::Threads;

/// A ball: a message of four bytes.
pub(crate) type Ball = [u8; 4];

// The player at rank 0, in its thread.
fn serve_all(
    station: &mut Station<Never>,
    port: &mut SeatPort<'_>,
    balls: &[Ball],
    back: &mut [Ball],
) -> Result<(), Stop>
    requires fresh { IsFreshStation station.old }
    requires seat { (port.old.about ≡ world_setup 2) × (port.old.ticket.rank ≡ 0) × (port.old.ticket.events ≡ []) }
    requires as_many { length back.old ≡ length balls.now }
    ensures same { (port.new.ticket.table ≡ port.old.ticket.table) × (port.new.ticket.rank ≡ port.old.ticket.rank) }
    ensures calls { IfOk result (λ done. (record_of (world_setup 2) 0 port.new.ticket.events).calls ≡ serves balls.now back.new) }
    ensures stopped { IfErr result (λ stop. ServeStops station.old.polls [] balls.now back.new
        (sight_away port.new.about port.new.ticket) stop) }
    ensures about { port.new.about ≡ world_setup 2 }
    ensures as_many { length back.new ≡ length balls.now }
{
    serve(station, port, balls, back)
}

// The player at rank 1, in its thread.
fn hit_all(
    station: &mut Station<Never>,
    port: &mut SeatPort<'_>,
    seen: &mut [Ball],
) -> Result<(), Stop>
    requires fresh { IsFreshStation station.old }
    requires seat { (port.old.about ≡ world_setup 2) × (port.old.ticket.rank ≡ 1) × (port.old.ticket.events ≡ []) }
    ensures same { (port.new.ticket.table ≡ port.old.ticket.table) × (port.new.ticket.rank ≡ port.old.ticket.rank) }
    ensures calls { IfOk result (λ done. (record_of (world_setup 2) 1 port.new.ticket.events).calls ≡ hits seen.new) }
    ensures stopped { IfErr result (λ stop. HitStops station.old.polls [] seen.new (sight_away port.new.about port.new.ticket) stop) }
    ensures about { port.new.about ≡ world_setup 2 }
    ensures as_many { length seen.new ≡ length seen.old }
{
    hit(station, port, seen)
}

// Both at once, each in a thread of its own.
fn play<R: Threads + Sync>(
    rt: &R,
    one: &mut Station<Never>,
    at_one: &mut SeatPort<'_>,
    other: &mut Station<Never>,
    at_other: &mut SeatPort<'_>,
    balls: &[Ball],
    seen: &mut [Ball],
    back: &mut [Ball],
) -> (Result<(), Stop>, Result<(), Stop>)
    requires one { IsFreshStation one.old }
    requires other { IsFreshStation other.old }
    requires at_one { (at_one.old.about ≡ world_setup 2) × (at_one.old.ticket.rank ≡ 0) × (at_one.old.ticket.events ≡ []) }
    requires at_other { (at_other.old.about ≡ world_setup 2) × (at_other.old.ticket.rank ≡ 1) × (at_other.old.ticket.events ≡ []) }
    requires as_many { length back.old ≡ length balls.now }
    ensures at_one { (at_one.new.ticket.table ≡ at_one.old.ticket.table) × (at_one.new.ticket.rank ≡ at_one.old.ticket.rank) }
    ensures at_other { (at_other.new.ticket.table ≡ at_other.old.ticket.table) × (at_other.new.ticket.rank ≡ at_other.old.ticket.rank) }
    ensures served { IfOk result.0 (λ done. (record_of (world_setup 2) 0 at_one.new.ticket.events).calls ≡ serves balls.now back.new) }
    ensures hit { IfOk result.1 (λ done. (record_of (world_setup 2) 1 at_other.new.ticket.events).calls ≡ hits seen.new) }
    ensures serve_stopped { IfErr result.0 (λ stop. ServeStops one.old.polls [] balls.now back.new
        (sight_away at_one.new.about at_one.new.ticket) stop) }
    ensures hit_stopped { IfErr result.1 (λ stop. HitStops other.old.polls [] seen.new
        (sight_away at_other.new.about at_other.new.ticket) stop) }
    ensures about { (at_one.new.about ≡ world_setup 2) × (at_other.new.about ≡ world_setup 2) }
    ensures ranks { (at_one.new.ticket.rank ≡ 0) × (at_other.new.ticket.rank ≡ 1) }
    ensures as_many { (length seen.new ≡ length seen.old) × (length back.new ≡ length balls.now) }
{
    thread::join_mut(
        rt,
        &mut || serve_all(one, at_one, balls, back),
        &mut || hit_all(other, at_other, seen),
    )
}

// Hands out both ranks.
fn spread_both(chip: &mut Chip) -> (Token, Token)
    requires new { IsNew (world_setup 2) chip.old }
    ensures away { IsHomeBelow chip.new 0 }
    ensures about { about_in chip.new ≡ world_setup 2 }
    ensures first { (result.0.table ≡ table_in chip.new) × (result.0.rank ≡ 0) × (result.0.events ≡ []) }
    ensures second { (result.1.table ≡ table_in chip.new) × (result.1.rank ≡ 1) × (result.1.events ≡ []) }
{
    let first = chip.spread(Rank::of(0));
    let second = chip.spread(Rank::of(1));
    (first, second)
}

// Takes both ranks home.
fn gather_both(chip: &mut Chip, first: Token, second: Token)
    requires away { IsHomeBelow chip.old 0 }
    requires about { about_in chip.old ≡ world_setup 2 }
    requires first { (first.table ≡ table_in chip.old) × (first.rank ≡ 0) }
    requires second { (second.table ≡ table_in chip.old) × (second.rank ≡ 1) }
    ensures whole { IsWhole chip.new }
    ensures about { about_in chip.new ≡ world_setup 2 }
    ensures first { events_in chip.new 0 ≡ first.events }
    ensures second { events_in chip.new 1 ≡ second.events }
{
    chip.gather(first);
    chip.gather(second);
}

/// Each ball that was served is seen by the other player, and comes back.
pub(crate) fn rally<R: Threads + Sync>(
    rt: &R,
    chip: &mut Chip,
    one: &mut Station<Never>,
    other: &mut Station<Never>,
    balls: &[Ball],
    seen: &mut [Ball],
    back: &mut [Ball],
) -> Result<(), Stop>
    requires new { IsNew (world_setup 2) chip.old }
    requires one { IsFreshStation one.old }
    requires other { IsFreshStation other.old }
    requires as_many { (length seen.old ≡ length balls.now) × (length back.old ≡ length balls.now) }
    ensures seen { IfOk result (λ done. seen.new ≡ balls.now) }
    ensures back { IfOk result (λ done. back.new ≡ balls.now) }
    ensures stopped { IfErr result (λ stop.
        ((now : Sight) × HasCome chip.new 0 now × ServeStops one.old.polls [] balls.now back.new now stop)
        ⊎ ((now : Sight) × HasCome chip.new 1 now × HitStops other.old.polls [] seen.new now stop)) }
    ensures whole { IsWhole chip.new }
{
    let (first, second) = spread_both(chip);
    let words = chip.words();
    let mut at_one = words.port(first);
    let mut at_other = words.port(second);
    let (served, hit) = play(
        rt,
        one,
        &mut at_one,
        other,
        &mut at_other,
        balls,
        seen,
        back,
    );
    let first = at_one.into_token();
    let second = at_other.into_token();
    gather_both(chip, first, second);
    chip.agrees();
    match served {
        Ok(()) => hit,
        Err(stop) => Err(stop),
    }
}
