//! Messages between two ranks that take their turns in separate threads.

ghost use Rattle.std.specs.Prelude.{◌≡◌, ◌<◌, ◌≤◌, ℕ, List, [], IfOk, length, slice_index_or};
ghost use Rattle.scc_base.specs.declared.events.Event.{Event};
ghost use Rattle.scc_proto.specs.Ports.{Did};
ghost use Rattle.scc_mesh.specs.Scenes.{IsNew, about_in};
ghost use Rattle.script_rules.specs.Script.{rules_of};
ghost use Rattle.run_rows.specs.AwayPlayers.{StandsAway};

use crate::scripts::{End, chip_with, is_at, setup_of};
use crate::ues::{Runner, runner_of};
use chip_teams::Player;
use line_cache::{Evict, Never};
use rcce_ue::Ue;
use scc_base::{Layout, Rank, Setup};
use scc_mesh::{Chip, Token, Words};
use scc_proto::Port;
use script_reader::read_script;
use script_rules::Scripts;
use std::alloc::{AllocError, Global};
use std::thread;
use std::thread::Threads;

/// A rank whose port is in a thread, with its token between its turns, and what it does.
#[derive(Drop)]
struct Apart<M: Player + Drop> {
    token: Option<Token>,
    player: M,
}

// Ten turns of a rank, by its port.
fn turns<M: Player, P: Port>(player: &mut M, port: &mut P)
    requires stands { M.stands player.old (P.sight port.old).seat.setup (P.sight port.old).seat.rank (P.sight port.old).events }
    ensures stands { M.stands player.new (P.sight port.new).seat.setup (P.sight port.new).seat.rank (P.sight port.new).events }
    ensures did { (events : List Event) × Did (P.sight port.old) events (P.sight port.new) }
{
    for _ in 0..10 {
        player.turn(port);
    }
}

// Ten turns of a rank whose port is in a thread. Its token makes the port for them, and is in its place before and after them.
fn turns_away<M: Player + Drop>(words: Words<'_>, rank: &mut Apart<M>)
    requires away { StandsAway (M.stands rank.old.player) words.space.now.about words.space.now.table rank.old.token }
    ensures away { StandsAway (M.stands rank.new.player) words.entry.space.now.about words.entry.space.now.table rank.new.token }
{
    let Some(token) = rank.token.take() else {
        unreachable!()
    };
    let mut port = words.port(token);
    turns(&mut rank.player, &mut port);
    rank.token = Some(port.into_token());
}

// `count` rounds, each of ten turns of each rank, at the same time if there are threads: the words and a rank go into each thread.
fn rounds<M: Player + Drop + Send, R: Threads + Sync>(
    rt: &R,
    words: Words<'_>,
    ranks: &mut [Apart<M>],
    count: usize,
)
    requires some { 0 < length ranks.old }
    requires away { (i : ℕ) (d : _) → i < length ranks.old
        → let m = slice_index_or ranks.old i d in StandsAway (M.stands m.player) words.space.now.about words.space.now.table m.token }
{
    let threads = ranks.len();
    for _ in 0..count {
        thread::for_each_mut(
            rt,
            ranks,
            threads,
            &|at: usize, rank: &mut Apart<M>|
                requires { StandsAway (M.stands rank.old.player) words.space.now.about words.space.now.table rank.old.token }
                ensures { StandsAway (M.stands rank.new.player) words.entry.space.now.about words.entry.space.now.table rank.new.token }
            {
                let _ = at;
                turns_away(words, rank)
            },
        );
    }
}

// Whether a row of bytes is this long, and as `fill` makes it from 0 on.
fn is_filled(bytes: &[u8], len: u16) -> bool {
    for i in 0..bytes.len() {
        if bytes[i] != (i % 251) as u8 {
            return false;
        }
    }
    bytes.len() == len as usize
}

// Whether a UE has printed items of these lengths, each as `fill` makes it.
fn are_filled<V: Evict>(ue: &Ue<'_, V>, lens: &[u16]) -> bool {
    if ue.items() != lens.len() {
        return false;
    }
    for i in 0..lens.len() {
        if !is_filled(ue.item(i).bytes(), lens[i]) {
            return false;
        }
    }
    true
}

/// A rank that shows whether it has finished, with messages of these lengths, each as `fill` makes it.
trait Finishes {
    fn has_finished(&self, lens: &[u16]) -> bool;
}

impl<'s, V: Evict + Drop> Finishes for Runner<'s, V> {
    fn has_finished(&self, lens: &[u16]) -> bool {
        is_at(&self.ue, &End::Finished) && are_filled(&self.ue, lens)
    }
}

// Whether two ranks have finished, the second with a message of this length.
fn have_finished<M: Player + Finishes + Drop>(ranks: &[Apart<M>], len: u16) -> bool {
    match ranks {
        [sender, receiver] => {
            sender.player.has_finished(&[]) && receiver.player.has_finished(&[len])
        }
        _ => false,
    }
}

// Whether the two ranks of a new chip finish, the second with a message of this length. In each round one of the two can move, even if
// there are no threads and they take their turns one after the other.
fn both_finish<M: Player + Finishes + Drop + Send, R: Threads + Sync>(
    rt: &R,
    alloc: Global,
    chip: &mut Chip,
    first: M,
    second: M,
    len: u16,
) -> Result<bool, AllocError>
    requires new { IsNew (about_in chip.old) chip.old }
    requires ranks { 2 ≤ (about_in chip.old).nue }
    requires first { M.stands first (about_in chip.old) 0 [] }
    requires second { M.stands second (about_in chip.old) 1 [] }
{
    let sender = chip.spread(Rank::of(0));
    let receiver = chip.spread(Rank::of(1));
    let words = chip.words();
    let mut ranks = Vec::new(alloc);
    ranks.push(Apart {
        token: Some(sender),
        player: first,
    })?;
    ranks.push(Apart {
        token: Some(receiver),
        player: second,
    })?;
    let count = 2 * (len as usize / 32) + 60;
    rounds(rt, words, ranks.as_mut_slice(), count);
    Ok(have_finished(ranks.as_slice(), len))
}

// Whether two ranks finish so, if there was memory for both.
fn arrives_with<M: Player + Finishes + Drop + Send, R: Threads + Sync>(
    rt: &R,
    alloc: Global,
    chip: &mut Chip,
    first: Result<M, AllocError>,
    second: Result<M, AllocError>,
    len: u16,
) -> Result<bool, AllocError>
    requires new { IsNew (about_in chip.old) chip.old }
    requires ranks { 2 ≤ (about_in chip.old).nue }
    requires first { IfOk first (λ m. M.stands m (about_in chip.old) 0 []) }
    requires second { IfOk second (λ m. M.stands m (about_in chip.old) 1 []) }
{
    both_finish(rt, alloc, chip, first?, second?, len)
}

// Whether a message of this length arrives by a script for two, on a new chip with this setup.
fn arrives_on<V: Evict + Default + Drop + Send, R: Threads + Sync>(
    rt: &R,
    alloc: Global,
    chip: &mut Chip,
    scripts: &Scripts,
    setup: &Setup,
    len: u16,
) -> Result<bool, AllocError>
    requires new { IsNew setup.now chip.old }
    requires two { setup.now.nue ≡ 2 }
    requires ranks { setup.now.nue ≡ scripts.now.nue }
    requires communicators { setup.now.comms ≡ rules_of scripts.now.items }
{
    let first = runner_of::<V>(alloc, scripts, setup, 0);
    let second = runner_of::<V>(alloc, scripts, setup, 1);
    arrives_with(rt, alloc, chip, first, second, len)
}

// Whether it arrives in this layout.
fn arrives_in<R: Threads + Sync>(
    rt: &R,
    alloc: Global,
    scripts: &Scripts,
    layout: Layout,
    len: u16,
) -> bool
    requires two { scripts.now.nue ≡ 2 }
{
    let Some(setup) = setup_of(scripts, layout, true) else {
        return false;
    };
    match chip_with(alloc, &setup) {
        Ok(mut chip) => matches!(
            arrives_on::<Never, R>(rt, alloc, &mut chip, scripts, &setup, len),
            Ok(true)
        ),
        Err(_) => false,
    }
}

// Whether it arrives in both layouts.
fn arrives<R: Threads + Sync>(rt: &R, alloc: Global, text: &[u8], len: u16) -> bool {
    let Ok(scripts) = read_script(alloc, text, 2) else {
        return false;
    };
    arrives_in(rt, alloc, &scripts, Layout::LineFlags, len)
        && arrives_in(rt, alloc, &scripts, Layout::BitFlags, len)
}

// A message that is sent or posted, and its length.
const MESSAGES: &[(&[u8], u16)] = &[
    (
        b"ue 0\nfill x 0 0\nsend 1 x\nue 1\nrecv 0 y 0\nprint y\n",
        0,
    ),
    (
        b"ue 0\nfill x 33 0\nsend 1 x\nue 1\nrecv 0 y 33\nprint y\n",
        33,
    ),
    (
        b"ue 0\nfill x 3585 0\nsend 1 x\nue 1\nrecv 0 y 3585\nprint y\n",
        3_585,
    ),
    (
        b"ue 0\nfill x 6625 0\nsend 1 x\nue 1\nrecv 0 y 6625\nprint y\n",
        6_625,
    ),
    (
        b"ue 0\nfill x 3584 0\npost 1 x\nue 1\nrecv 0 y 3584\nprint y\n",
        3_584,
    ),
];

#[test]
fn messages_arrive_between_threads(rt: HostRuntime) {
    for (text, len) in MESSAGES {
        assert!(rt; arrives(&rt, rt.alloc(), text, *len));
    }
}
