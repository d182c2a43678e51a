//! Messages between the two ranks of a chip with one seat.

ghost use Rattle.std.specs.Prelude.{◌≡◌, ◌≤◌, ℕ, true, [], length, IfOk, SomeIff};
ghost use Rattle.scc_base.specs.Heads.{most_message, most_post, plain_head};
ghost use Rattle.scc_base.specs.Setups.{SetupView};
ghost use Rattle.scc_proto.specs.Words.{are_peers};
ghost use Rattle.scc_mesh.specs.Scenes.{IsNew, about_in};
ghost use Rattle.chip_teams.specs.Teams.{sight_alone};
ghost use Rattle.scc_rows.specs.Talkers.{IsTalking};

use crate::fixtures::{LAYOUTS, as_named};
use crate::steps::{Step, takes};
use chip_teams::{Player, Team, opened};
use line_cache::{Always, Evict, Never};
use put_get::Core;
use scc_base::{CommRule, Head, Layout, PostHead, Rank, Turn};
use scc_mesh::Chip;
use scc_proto::Port;
use send_recv::{RecvOp, RecvTurn, SendOp, Slot};
use std::alloc::Global;
use std::test::Fail;

/// What a rank does with a message.
#[derive(Clone, Copy)]
pub(crate) enum Deed {
    Send,
    Post,
    Receive,
}

/// A message that is not sent or received yet.
#[derive(Drop)]
pub(crate) struct Task {
    deed: Deed,
    // The bytes of the call.
    bytes: Vec<u8>,
    // The bytes that a receive must find.
    wanted: Vec<u8>,
}

/// The head of a message of these bytes.
pub(crate) fn head_of(bytes: &[u8]) -> Option<Head>
    ensures gives { SomeIff result (length bytes.now ≤ most_message) (plain_head (length bytes.now)) }
{
    if bytes.len() > Head::MOST as usize {
        return None;
    }
    Head::plain(bytes.len() as u32)
}

/// The head of a posted message of these bytes.
pub(crate) fn post_head_of(bytes: &[u8]) -> Option<PostHead>
    ensures gives { SomeIff result (length bytes.now ≤ most_post) (plain_head (length bytes.now)) }
{
    if bytes.len() > PostHead::MOST as usize {
        return None;
    }
    PostHead::plain(bytes.len() as u32)
}

// One if these are the bytes that the receive must find, and else 0.
fn arrivals(bytes: &[u8], wanted: &[u8]) -> u32 {
    (bytes == wanted) as u32
}

/// A rank that has messages with one other, one after the other.
#[derive(Drop)]
pub(crate) struct Talker<V: Evict + Drop> {
    core: Core<V>,
    slot: Slot,
    peer: Rank,
    // The bytes of the unfinished call, and those that a receive must find.
    bytes: Vec<u8>,
    wanted: Vec<u8>,
    // The unfinished call, if there is one.
    sending: Option<SendOp>,
    receiving: Option<RecvOp>,
    // The messages not begun yet, the next one last.
    tasks: Vec<Task>,
    // How many messages were received with the right bytes.
    pub arrived: u32,
    // The head that a receive met instead of the expected one, and how many bytes it asked for.
    pub met: Option<Head>,
    pub asked: usize,
}

impl<V: Evict + Drop> Talker<V> {
    ghost use Rattle.std.specs.Prelude.{◌≡◌, ℕ, List, [], true, None};
    ghost use Rattle.scc_base.specs.Setups.{SetupView};
    ghost use Rattle.scc_base.specs.declared.events.Event.{Event};
    ghost use Rattle.scc_proto.specs.Words.{are_peers};
    ghost use Rattle.scc_proto.specs.Ports.{Sight, Did, record_in};
    ghost use Rattle.send_recv.specs.Receiving.{RecvStands};
    ghost use Rattle.send_recv.specs.Sending.{SendStands, SlotStands};
    ghost use Rattle.chip_teams.specs.Teams.{sight_alone};
    ghost use Rattle.scc_rows.specs.Talkers.{IsTalking};

    pub(crate) fn new(alloc: Global, peer: Rank, evict: V, tasks: Vec<Task>) -> Talker<V>
        ensures ready { (s : SetupView) (r : ℕ) → are_peers s r peer ≡ true
            → IsTalking (sight_alone s r []) result.core result.slot result.peer result.bytes.items result.sending result.receiving }
    {
        Talker {
            core: Core::new(evict),
            slot: Slot::new(),
            peer,
            bytes: Vec::new(alloc),
            wanted: Vec::new(alloc),
            sending: None,
            receiving: None,
            tasks,
            arrived: 0,
            met: None,
            asked: 0,
        }
    }

    // Begins the call of a task.
    fn begin(&mut self, task: Task)
        requires not_sending { self.old.sending ≡ None }
        requires not_receiving { self.old.receiving ≡ None }
        ensures begins { (s : Sight) → IsTalking s self.old.core self.old.slot self.old.peer self.old.bytes.items None None
            → IsTalking s self.new.core self.new.slot self.new.peer self.new.bytes.items self.new.sending self.new.receiving }
    {
        self.bytes = task.bytes;
        self.wanted = task.wanted;
        match task.deed {
            Deed::Send => {
                if let Some(head) = head_of(&self.bytes) {
                    self.sending = Some(SendOp::new(self.peer, head));
                }
            }
            Deed::Post => {
                if let Some(head) = post_head_of(&self.bytes) {
                    self.sending = Some(SendOp::post(self.peer, head));
                }
            }
            Deed::Receive => {
                if let Some(head) = head_of(&self.bytes) {
                    self.receiving = Some(RecvOp::new(self.peer, head));
                }
            }
        }
    }

    // One turn of a send or of a post.
    fn send_turn<P: Port>(&mut self, port: &mut P, mut op: SendOp) -> Turn
        requires peers { are_peers (P.sight port.old).seat.setup (P.sight port.old).seat.rank self.old.peer ≡ true }
        requires stands { SendStands (P.sight port.old) self.old.core op self.old.slot self.old.bytes.items }
        requires not_sending { self.old.sending ≡ None }
        requires not_receiving { self.old.receiving ≡ None }
        ensures talks { IsTalking (P.sight port.new) self.new.core self.new.slot self.new.peer self.new.bytes.items self.new.sending
            self.new.receiving }
        ensures did { (events : List Event) × Did (P.sight port.old) events (P.sight port.new) }
    {
        match op.turn(&mut self.core, port, &mut self.slot, &self.bytes) {
            Turn::Done => Turn::Moved,
            Turn::Moved => {
                self.sending = Some(op);
                Turn::Moved
            }
            Turn::Waiting(spot) => {
                self.sending = Some(op);
                Turn::Waiting(spot)
            }
        }
    }

    // One turn of a receive.
    fn receive_turn<P: Port>(&mut self, port: &mut P, mut op: RecvOp) -> Turn
        requires peers { are_peers (P.sight port.old).seat.setup (P.sight port.old).seat.rank self.old.peer ≡ true }
        requires stands { RecvStands (P.sight port.old) self.old.core op self.old.bytes.items }
        requires slot_stands { SlotStands (P.sight port.old).seat (record_in (P.sight port.old)) self.old.slot }
        requires not_sending { self.old.sending ≡ None }
        requires not_receiving { self.old.receiving ≡ None }
        ensures talks { IsTalking (P.sight port.new) self.new.core self.new.slot self.new.peer self.new.bytes.items self.new.sending
            self.new.receiving }
        ensures did { (events : List Event) × Did (P.sight port.old) events (P.sight port.new) }
    {
        match op.turn(&mut self.core, port, &mut self.bytes) {
            RecvTurn::Done => {
                self.arrived = self
                    .arrived
                    .saturating_add(arrivals(&self.bytes, &self.wanted));
                Turn::Moved
            }
            RecvTurn::Mismatch(sent) => {
                self.met = Some(sent);
                self.asked = self.bytes.len();
                Turn::Moved
            }
            RecvTurn::Moved => {
                self.receiving = Some(op);
                Turn::Moved
            }
            RecvTurn::Waiting(spot) => {
                self.receiving = Some(op);
                Turn::Waiting(spot)
            }
        }
    }
}

impl<V: Evict + Drop> Player for Talker<V> {
    ghost use Rattle.chip_teams.specs.Teams.{sight_alone};
    ghost use Rattle.scc_rows.specs.Talkers.{IsTalking};

    ghost stands = { λ m s r events. IsTalking (sight_alone s r events) m.core m.slot m.peer m.bytes.items m.sending m.receiving };

    fn turn<P: Port>(&mut self, port: &mut P) -> Turn {
        let sending = self.sending.take();
        let receiving = self.receiving.take();
        if let Some(op) = sending {
            return self.send_turn(port, op);
        }
        if let Some(op) = receiving {
            return self.receive_turn(port, op);
        }
        let Some(task) = self.tasks.pop() else {
            return self.slot.turn(&mut self.core, port);
        };
        self.begin(task);
        Turn::Moved
    }
}

/// `len` bytes that count up from `first`, and from it again after 251 of them.
pub(crate) fn bytes_from(alloc: Global, first: u8, len: usize) -> Result<Vec<u8>, Fail> {
    let mut bytes = Vec::new(alloc);
    for k in 0..len {
        bytes.push(first.wrapping_add((k % 251) as u8))?;
    }
    Ok(bytes)
}

/// `len` bytes that are 0.
pub(crate) fn zeros(alloc: Global, len: usize) -> Result<Vec<u8>, Fail> {
    Ok(vec![in alloc; 0; len]?)
}

// A deed with a message of `len` bytes, of which `first` is the first.
fn task_of(alloc: Global, first: u8, deed: Deed, len: usize) -> Result<Task, Fail> {
    let wanted = bytes_from(alloc, first, len)?;
    let bytes = match deed {
        Deed::Receive => zeros(alloc, len)?,
        Deed::Send | Deed::Post => bytes_from(alloc, first, len)?,
    };
    Ok(Task {
        deed,
        bytes,
        wanted,
    })
}

// These deeds, in this order, each with the length of its message. Messages of two ranks differ by their place from the end.
fn tasks_of(alloc: Global, deeds: &[(Deed, usize)]) -> Result<Vec<Task>, Fail> {
    let mut tasks = Vec::new(alloc);
    for k in 0..deeds.len() {
        let (deed, len) = deeds[deeds.len() - 1 - k];
        tasks.push(task_of(alloc, (k % 2) as u8, deed, len)?)?;
    }
    Ok(tasks)
}

// A team of two ranks, on a new chip.
pub(crate) fn team_of_two<M: Player + Drop>(
    alloc: Global,
    chip: Chip,
    first: M,
    second: M,
) -> Result<Team<M>, Fail>
    requires new { IsNew (about_in chip) chip }
    requires two { (about_in chip).nue ≡ 2 }
    requires first { (s : SetupView) (r : ℕ) → are_peers s r 1 ≡ true → M.stands first s r [] }
    requires second { (s : SetupView) (r : ℕ) → are_peers s r 0 ≡ true → M.stands second s r [] }
{
    let mut team = Team::new(alloc, chip);
    team.join(first)?;
    team.join(second)?;
    Ok(team)
}

// A rank that does these deeds with its peer.
fn rank_with_tasks<V: Evict + Default + Drop>(
    alloc: Global,
    peer: Rank,
    deeds: &[(Deed, usize)],
) -> Result<Talker<V>, Fail>
    ensures ready { IfOk result (λ t. (s : SetupView) (r : ℕ) → are_peers s r peer ≡ true
        → IsTalking (sight_alone s r []) t.core t.slot t.peer t.bytes.items t.sending t.receiving) }
{
    let tasks = tasks_of(alloc, deeds)?;
    Ok(Talker::new(alloc, peer, V::default(), tasks))
}

// A pair of ranks. Rank 0 does the first deeds and rank 1 the others.
pub(crate) fn talking<V: Evict + Default + Drop>(
    alloc: Global,
    layout: Layout,
    first: &[(Deed, usize)],
    second: &[(Deed, usize)],
) -> Result<Team<Talker<V>>, Fail> {
    let first = rank_with_tasks(alloc, Rank::of(1), first)?;
    let second = rank_with_tasks(alloc, Rank::of(0), second)?;
    let chip = opened(alloc, 2, layout, CommRule::Absent)?;
    team_of_two(alloc, chip, first, second)
}

// How many messages of rank 1 arrived with the right bytes.
fn arrived_in<V: Evict + Drop>(team: &Team<Talker<V>>) -> u32 {
    team.player(1).map_or(0, |talker| talker.arrived)
}

// Whether `arrived` messages of rank 1 have arrived after the ranks have taken these steps.
pub(crate) fn arrive_by<V: Evict + Drop>(
    team: &mut Team<Talker<V>>,
    steps: &[Step],
    arrived: u32,
) -> bool {
    takes(team, steps) && arrived_in(team) == arrived
}

// Shows that rank 0 does the first deeds and rank 1 the others by these steps, and that `arrived` messages arrive.
pub(crate) fn shows_exchange<V: Evict + Default + Drop>(
    alloc: Global,
    layout: Layout,
    first: &[(Deed, usize)],
    second: &[(Deed, usize)],
    steps: &[Step],
    arrived: u32,
) -> Result<(), Fail> {
    let mut team = talking::<V>(alloc, layout, first, second)?;
    as_named(arrive_by(&mut team, steps, arrived))
}

/// In turn, until all are done.
pub(crate) const IN_TURN: &[Step] = &[Step::Rounds(&[0, 1], 6_000, true)];

/// No byte, one byte, one chunk and one byte more, in the chunks of either layout, and the longest message; and two
/// messages of one length in order, sent and posted.
const EXCHANGES: &[(&[(Deed, usize)], &[(Deed, usize)], u32)] = &[
    (&[(Deed::Send, 0)], &[(Deed::Receive, 0)], 1),
    (&[(Deed::Send, 1)], &[(Deed::Receive, 1)], 1),
    (&[(Deed::Send, 3_584)], &[(Deed::Receive, 3_584)], 1),
    (&[(Deed::Send, 3_585)], &[(Deed::Receive, 3_585)], 1),
    (&[(Deed::Send, 6_624)], &[(Deed::Receive, 6_624)], 1),
    (&[(Deed::Send, 6_625)], &[(Deed::Receive, 6_625)], 1),
    (&[(Deed::Send, 65_536)], &[(Deed::Receive, 65_536)], 1),
    (
        &[(Deed::Send, 33), (Deed::Send, 33)],
        &[(Deed::Receive, 33), (Deed::Receive, 33)],
        2,
    ),
    (
        &[(Deed::Post, 33), (Deed::Post, 33)],
        &[(Deed::Receive, 33), (Deed::Receive, 33)],
        2,
    ),
];

fn shows_exchanges(alloc: Global, layout: Layout) -> Result<(), Fail> {
    for &(first, second, arrived) in EXCHANGES {
        shows_exchange::<Never>(alloc, layout, first, second, IN_TURN, arrived)?;
    }
    Ok(())
}

const SENT_AND_POSTED: &[(Deed, usize)] = &[(Deed::Send, 6_625), (Deed::Post, 40)];

const BOTH_RECEIVED: &[(Deed, usize)] = &[(Deed::Receive, 6_625), (Deed::Receive, 40)];

// Shows that messages sent and posted arrive, although each fill of either rank evicts a line.
fn shows_evictions(alloc: Global, layout: Layout) -> Result<(), Fail> {
    shows_exchange::<Always>(alloc, layout, SENT_AND_POSTED, BOTH_RECEIVED, IN_TURN, 2)
}

#[test]
fn messages_arrive_whole_and_in_order(rt: HostRuntime) -> Result<(), Fail> {
    for layout in LAYOUTS {
        shows_exchanges(rt.alloc(), *layout)?;
        shows_evictions(rt.alloc(), *layout)?;
    }
    Ok(())
}
