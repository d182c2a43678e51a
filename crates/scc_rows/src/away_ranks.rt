//! Blank chips, and ranks whose ports are in a thread: this one or others.

ghost use Rattle.std.specs.Prelude.{◌≡◌, ◌<◌, ◌⊎◌, ℕ, [], IsSomeAnd, IfOk, Contains};
ghost use Rattle.scc_base.specs.Events.{load_of};
ghost use Rattle.scc_base.specs.Places.{WordAt};
ghost use Rattle.scc_base.specs.Setups.{IsSetup, setup_key, host_of};
ghost use Rattle.scc_proto.specs.Words.{HeapWord, Memory, role_of};
ghost use Rattle.scc_proto.specs.Passed.{passed_calls, slot_of};
ghost use Rattle.scc_proto.specs.Legality.{IsLegal};
ghost use Rattle.scc_proto.specs.PairMessages.{PairMessages};
ghost use Rattle.scc_proto.specs.Agreement.{Agrees};
ghost use Rattle.scc_mesh.specs.Keeping.{IsStoredAt};
ghost use Rattle.scc_mesh.specs.Scenes.{IsOpen, IsWhole, IsHomeBelow, about_in, table_in, events_in, records_in};

use crate::fixtures::{as_named, new_pair, world_of};
use scc_base::{CoreId, Layout, Place, Rank};
use scc_mesh::{Chip, SeatPort, Token, Words};
use scc_proto::Port;
use std::alloc::Global;
use std::test::Fail;
use std::thread;
use std::thread::Threads;

// Whether a blank chip is open after it was opened with a setup of 48 ranks, and not before.
fn opens(alloc: Global) -> bool {
    let Some(setup) = world_of(48, Layout::lines()) else {
        return false;
    };
    let mut chip = Chip::blank();
    let early = chip.is_open();
    let opened = chip.open(alloc, setup).is_ok();
    !early && opened && chip.is_open() && chip.setup().nue() == 48
}

#[test]
fn a_blank_chip_opens(rt: HostRuntime) {
    assert!(rt; opens(rt.alloc()));
}

// A new chip of two ranks.
fn opened_pair(alloc: Global) -> Result<Chip, Fail>
    ensures whole { IfOk result (λ chip. IsWhole chip) }
    ensures ranks { IfOk result (λ chip. (about_in chip).nue ≡ 2) }
    ensures none { IfOk result (λ chip. (r : ℕ) → events_in chip r ≡ []) }
{
    new_pair(alloc)
}

fn load_once(words: Words<'_>, token: Token) -> Token
    requires of_chip { token.table ≡ words.space.now.table }
    ensures same { result.table ≡ token.table }
{
    let mut port = words.port(token);
    port.load(Place::new(CoreId::of(0), 240, 0));
    port.into_token()
}

/// A heap word on its own core.
fn own_word<P: Port>(port: &P) -> Place
    ensures gives { result ≡ record {
      core = host_of (P.sight port.now).seat.setup.hosts (P.sight port.now).seat.rank;
      line = 240;
      word = 0;
    } }
    ensures valid { IsSetup (P.sight port.now).seat.setup }
    ensures below { (P.sight port.now).seat.rank < (P.sight port.now).seat.setup.nue }
{
    let setup = port.setup();
    let _nue = setup.nue();
    Place::new(setup.core_of(port.rank()), 240, 0)
}

/// Stores that word, and loads it.
fn store_and_load<P: Port>(port: &mut P, value: u64)
    requires none { (P.sight port.old).events ≡ [] }
    ensures kept { (P.sight port.new).seat ≡ (P.sight port.old).seat }
{
    let place = own_word(port);
    port.store(place, value);
    port.load(place);
}

fn step_port(port: &mut SeatPort<'_>, value: u64)
    requires none { port.old.ticket.events ≡ [] }
    ensures same { (port.new.ticket.table ≡ port.old.ticket.table) × (port.new.ticket.rank ≡ port.old.ticket.rank) }
{
    store_and_load(port, value);
}

fn step_token(words: Words<'_>, token: Token, value: u64) -> Token
    requires of_chip { token.table ≡ words.space.now.table }
    requires none { token.events ≡ [] }
    ensures same { (result.table ≡ token.table) × (result.rank ≡ token.rank) }
{
    let mut port = words.port(token);
    step_port(&mut port, value);
    port.into_token()
}

fn step_held(words: Words<'_>, token: &mut Option<Token>, rank: Rank, value: u64)
    requires there { IsSomeAnd token.old (λ t. (t.table ≡ words.space.now.table) × (t.rank ≡ rank) × (t.events ≡ [])) }
    ensures there { IsSomeAnd token.new (λ t. (t.table ≡ words.entry.space.now.table) × (t.rank ≡ rank)) }
{
    let Some(held) = token.take() else {
        unreachable!()
    };
    *token = Some(step_token(words, held, value));
}

// Two ranks access the same words, each in a separate thread: the words and a token go into one, a port into the other.
fn both_step<R: Threads + Sync>(
    rt: &R,
    words: Words<'_>,
    first: &mut Option<Token>,
    second: &mut SeatPort<'_>,
)
    requires first { IsSomeAnd first.old (λ t. (t.table ≡ words.space.now.table) × (t.rank ≡ 0) × (t.events ≡ [])) }
    requires second { second.old.ticket.events ≡ [] }
    ensures first { IsSomeAnd first.new (λ t. (t.table ≡ words.entry.space.now.table) × (t.rank ≡ 0)) }
    ensures second { (second.new.ticket.table ≡ second.old.ticket.table) × (second.new.ticket.rank ≡ second.old.ticket.rank) }
{
    let rank = Rank::of(0);
    thread::join_mut(
        rt,
        &mut || step_held(words, first, rank, 7),
        &mut || step_port(second, 8),
    );
}

fn spread_both(chip: &mut Chip) -> (Token, Token)
    requires whole { IsWhole chip.old }
    requires ranks { (about_in chip.old).nue ≡ 2 }
    requires none { (r : ℕ) → events_in chip.old r ≡ [] }
    ensures away { IsHomeBelow chip.new 0 }
    ensures ranks { (about_in chip.new).nue ≡ 2 }
    ensures first { (result.0.table ≡ table_in chip.new) × (result.0.rank ≡ 0) × (result.0.events ≡ []) }
    ensures second { (result.1.table ≡ table_in chip.new) × (result.1.rank ≡ 1) × (result.1.events ≡ []) }
{
    let first = chip.spread(Rank::of(0));
    let second = chip.spread(Rank::of(1));
    (first, second)
}

fn gather_both(chip: &mut Chip, first: Token, second: Token)
    requires away { IsHomeBelow chip.old 0 }
    requires ranks { (about_in chip.old).nue ≡ 2 }
    requires first { (first.table ≡ table_in chip.old) × (first.rank ≡ 0) }
    requires second { (second.table ≡ table_in chip.old) × (second.rank ≡ 1) }
    ensures whole { IsWhole chip.new }
{
    chip.gather(first);
    chip.gather(second);
}

// After all ranks' ports are back with the chip, its words and their records agree.
fn step_apart<R: Threads + Sync>(rt: &R, chip: &mut Chip)
    requires whole { IsWhole chip.old }
    requires ranks { (about_in chip.old).nue ≡ 2 }
    requires none { (r : ℕ) → events_in chip.old r ≡ [] }
    ensures whole { IsWhole chip.new }
    ensures words { (memory : Memory) × Agrees (about_in chip.new) memory (records_in chip.new) }
    ensures messages { (from to : ℕ) → from < (about_in chip.new).nue → PairMessages (about_in chip.new) from to (records_in chip.new) }
    ensures calls { IsLegal (about_in chip.new).nue (setup_key (about_in chip.new))
        (passed_calls (about_in chip.new) (records_in chip.new)) (slot_of (about_in chip.new) (records_in chip.new)) }
    ensures heap { (r : ℕ) (place : WordAt) (value : ℕ) → role_of (about_in chip.new) place ≡ HeapWord
        → Contains (events_in chip.new r) (load_of place value) → (value ≡ 0) ⊎ IsStoredAt (events_in chip.new) place value }
{
    let (first, second) = spread_both(chip);
    let words = chip.words();
    let mut first = Some(first);
    let mut second = words.port(second);
    both_step(rt, words, &mut first, &mut second);
    let second = second.into_token();
    let Some(first) = first else { unreachable!() };
    gather_both(chip, first, second);
    chip.agrees();
}

// Whether a rank sees what both stored.
fn sees_both<P: Port>(port: &mut P) -> bool {
    let first = port.load(Place::new(CoreId::of(0), 240, 0));
    let second = port.load(Place::new(CoreId::of(1), 240, 0));
    first == 7 && second == 8
}

// Whether rank 0 does, after its port is back with the chip.
fn sees_both_at_home<R: Threads + Sync>(rt: &R, chip: &mut Chip) -> bool
    requires whole { IsWhole chip.old }
    requires ranks { (about_in chip.old).nue ≡ 2 }
    requires none { (r : ℕ) → events_in chip.old r ≡ [] }
{
    step_apart(rt, chip);
    chip.known();
    sees_both(&mut chip.port(Rank::of(0)))
}

#[test]
fn two_ranks_step_in_threads_of_their_own(rt: HostRuntime) -> Result<(), Fail> {
    let mut chip = opened_pair(rt.alloc())?;
    as_named(sees_both_at_home(&rt, &mut chip))
}

fn away_and_home(chip: &mut Chip)
    requires whole { IsWhole chip.old }
    requires ranks { 0 < (about_in chip.old).nue }
    ensures opened { IsOpen chip.new }
{
    let token = chip.spread(Rank::of(0));
    let token = load_once(chip.words(), token);
    chip.gather(token);
}

#[test]
fn a_rank_goes_away_and_comes_home(rt: HostRuntime) -> Result<(), Fail> {
    let mut chip = opened_pair(rt.alloc())?;
    away_and_home(&mut chip);
    as_named(chip.is_open())
}
