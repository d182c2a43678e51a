//! Three ranks, each in a thread of its own, make the same collective calls.

ghost use Rattle.std.specs.Prelude.{◌≡◌, [], IfOk, IsTrue};
ghost use Rattle.groups.specs.Collectives.{IsCallable};
ghost use Rattle.groups.specs.declared.collectives.Coll.TheVariants.{Allreduce, Bcast, Reduce};
ghost use Rattle.scc_proto.specs.Ports.{Sight};
ghost use Rattle.scc_mesh.specs.Scenes.{IsNew, IsOpen, table_in};
ghost use Rattle.station.specs.Groups.{GroupStart, IsInGroup, held_in, in_group_call, op_in};
ghost use Rattle.station.specs.Stations.{NoCallOpen};
ghost use Rattle.scc_base.specs.Worlds.{world_setup};

use groups::{Coll, Op, Ty};
use line_cache::Never;
use scc_base::{Rank, world_of};
use scc_mesh::{Chip, SeatPort, Token};
use scc_proto::Port;
use station::{Folding, GroupStop, Station, Stop};
use std::test::Fail;
use std::thread;
use std::thread::Threads;

/// How often a call that stalled goes on.
const PATIENCE: u32 = 1_000_000;

/// Before its calls a rank has got nothing.
const NOTHING: Got = Got {
    told: [0; 5],
    sum: [0; 8],
    least: [0; 8],
};

/// What a rank has got.
#[derive(Clone, Copy)]
struct Got {
    told: [u8; 5],
    sum: [u8; 8],
    least: [u8; 8],
}

/// Goes on with a call that stopped.
fn go_on<P: Port>(
    station: &mut Station<Never>,
    port: &mut P,
    stopped: GroupStop,
    input: &[u8],
    output: &mut [u8],
    work: &mut [u8],
) -> Result<(), GroupStop>
    requires open { (start : GroupStart)
        × IsInGroup start (in_group_call (P.sight port.old) station.old (op_in stopped) input.now (held_in output.old work.old)) }
    ensures free { IfOk result (λ done. NoCallOpen (P.sight port.new) station.new) }
    ensures seat { (P.sight port.new).seat ≡ (P.sight port.old).seat }
{
    let mut stop = stopped;
    'rounds: for _ in 0..PATIENCE {
        let stall = match stop {
            GroupStop::Stalled(stall) => stall,
            other => return Err(other),
        };
        thread::yield_now();
        match station.group_on(port, stall, input, output, work) {
            Ok(()) => return Ok(()),
            Err(later) => stop = later,
        }
    }
    Err(stop)
}

/// The bytes of rank 1 come to each rank.
fn tell<P: Port>(
    station: &mut Station<Never>,
    port: &mut P,
    told: &mut [u8; 5],
) -> Result<(), GroupStop>
    requires free { NoCallOpen (P.sight port.old) station.old }
    requires callable { IsCallable (P.sight port.old).seat.setup (P.sight port.old).seat.rank (Bcast 0 1 5) }
    ensures free { IfOk result (λ done. NoCallOpen (P.sight port.new) station.new) }
    ensures seat { (P.sight port.new).seat ≡ (P.sight port.old).seat }
{
    match station.bcast(port, told, 1, 0) {
        Ok(()) => Ok(()),
        Err(stop) => go_on(station, port, stop, &[], told, &mut []),
    }
}

/// The sums of all ranks' two numbers come to rank 2.
fn add<P: Port>(
    station: &mut Station<Never>,
    port: &mut P,
    numbers: &[u8; 8],
    sums: &mut [u8; 8],
) -> Result<(), GroupStop>
    requires free { NoCallOpen (P.sight port.old) station.old }
    requires callable { IsCallable (P.sight port.old).seat.setup (P.sight port.old).seat.rank (Reduce 0 2 8) }
    ensures free { IfOk result (λ done. NoCallOpen (P.sight port.new) station.new) }
    ensures seat { (P.sight port.new).seat ≡ (P.sight port.old).seat }
{
    let mut work = [0; 8];
    let how = Folding {
        op: Op::Sum,
        ty: Ty::Int,
    };
    match station.reduce(port, numbers, sums, &mut work, how, 2, 0) {
        Ok(()) => Ok(()),
        Err(stop) => go_on(station, port, stop, numbers, sums, &mut work),
    }
}

/// The least of all ranks' numbers comes to each rank.
fn compare<P: Port>(
    station: &mut Station<Never>,
    port: &mut P,
    number: &[u8; 8],
    least: &mut [u8; 8],
) -> Result<(), GroupStop>
    requires free { NoCallOpen (P.sight port.old) station.old }
    requires callable { IsCallable (P.sight port.old).seat.setup (P.sight port.old).seat.rank (Allreduce 0 8) }
    ensures free { IfOk result (λ done. NoCallOpen (P.sight port.new) station.new) }
    ensures seat { (P.sight port.new).seat ≡ (P.sight port.old).seat }
{
    let mut work = [0; 8];
    let how = Folding {
        op: Op::Min,
        ty: Ty::Long,
    };
    match station.allreduce(port, number, least, &mut work, how, 0) {
        Ok(()) => Ok(()),
        Err(stop) => go_on(station, port, stop, number, least, &mut work),
    }
}

/// What a rank hands in.
#[derive(Drop)]
struct Given {
    told: [u8; 5],
    numbers: [u8; 8],
    number: [u8; 8],
}

/// What this rank hands in: rank 1 a word, each rank r the ints r + 1 and 100, and the long 5 - r.
fn given_by(rank: u8) -> Given {
    let told = if rank == 1 { *b"hello" } else { [0; 5] };
    Given {
        told,
        numbers: [rank, 0, 0, 0, 100, 0, 0, 0],
        number: if rank == 2 {
            [255; 8]
        } else {
            [rank, 0, 0, 0, 0, 0, 0, 0]
        },
    }
}

/// Whether a rank of the port's run may make all three calls.
fn is_member<P: Port>(port: &P) -> bool
    ensures tell { IsTrue result → IsCallable (P.sight port.now).seat.setup (P.sight port.now).seat.rank (Bcast 0 1 5) }
    ensures add { IsTrue result → IsCallable (P.sight port.now).seat.setup (P.sight port.now).seat.rank (Reduce 0 2 8) }
    ensures compare { IsTrue result → IsCallable (P.sight port.now).seat.setup (P.sight port.now).seat.rank (Allreduce 0 8) }
{
    let told = Coll::Bcast {
        comm: 0,
        root: 1,
        len: 5,
    };
    let added = Coll::Reduce {
        comm: 0,
        root: 2,
        len: 8,
    };
    let compared = Coll::Allreduce { comm: 0, len: 8 };
    told.is_callable(port.setup(), port.rank())
        && added.is_callable(port.setup(), port.rank())
        && compared.is_callable(port.setup(), port.rank())
}

/// A rank's three calls.
fn meet<P: Port>(station: &mut Station<Never>, port: &mut P, got: &mut Got) -> Result<(), Stop>
    requires free { NoCallOpen (P.sight port.old) station.old }
    ensures seat { (P.sight port.new).seat ≡ (P.sight port.old).seat }
{
    if !is_member(port) {
        return Ok(());
    }
    let given = given_by(port.rank().number());
    let mut told = given.told;
    let mut sum = [0; 8];
    let mut least = [0; 8];
    tell(station, port, &mut told)?;
    add(station, port, &given.numbers, &mut sum)?;
    compare(station, port, &given.number, &mut least)?;
    *got = Got { told, sum, least };
    Ok(())
}

/// Those of a rank in its thread.
fn meet_at(station: &mut Station<Never>, port: &mut SeatPort<'_>, got: &mut Got)
    requires free { (s : Sight) → s.events ≡ [] → NoCallOpen s station.old }
    requires fresh { port.old.ticket.events ≡ [] }
{
    let _ = meet(station, port, got);
}

/// Ranks 1 and 2 at once.
fn meet_two<R: Threads + Sync>(
    rt: &R,
    one: &mut Station<Never>,
    at_one: &mut SeatPort<'_>,
    got_one: &mut Got,
    two: &mut Station<Never>,
    at_two: &mut SeatPort<'_>,
    got_two: &mut Got,
)
    requires one { (s : Sight) → s.events ≡ [] → NoCallOpen s one.old }
    requires two { (s : Sight) → s.events ≡ [] → NoCallOpen s two.old }
    requires at_one { at_one.old.ticket.events ≡ [] }
    requires at_two { at_two.old.ticket.events ≡ [] }
{
    thread::join_mut(
        rt,
        &mut || meet_at(one, at_one, got_one),
        &mut || meet_at(two, at_two, got_two),
    );
}

/// Hands out all three ranks.
fn spread_three(chip: &mut Chip) -> (Token, Token, Token)
    requires new { IsNew (world_setup 3) chip.old }
    ensures open { IsOpen chip.new }
    ensures tables { (result.0.table ≡ table_in chip.new) × (result.1.table ≡ table_in chip.new) × (result.2.table ≡ table_in chip.new) }
    ensures fresh { (result.0.events ≡ []) × (result.1.events ≡ []) × (result.2.events ≡ []) }
{
    let zero = chip.spread(Rank::of(0));
    let one = chip.spread(Rank::of(1));
    let two = chip.spread(Rank::of(2));
    (zero, one, two)
}

/// What each of the three ranks has got, each in a thread of its own.
fn meet_all<R: Threads + Sync>(rt: &R, chip: &mut Chip) -> [Got; 3]
    requires new { IsNew (world_setup 3) chip.old }
{
    let (zero, one, two) = spread_three(chip);
    let words = chip.words();
    let mut at_zero = words.port(zero);
    let mut at_one = words.port(one);
    let mut at_two = words.port(two);
    let mut first = Station::new(Never);
    let mut second = Station::new(Never);
    let mut third = Station::new(Never);
    let mut got_zero = NOTHING;
    let mut got_one = NOTHING;
    let mut got_two = NOTHING;
    thread::join_mut(
        rt,
        &mut || meet_at(&mut first, &mut at_zero, &mut got_zero),
        &mut ||
            requires one { (s : Sight) → s.events ≡ [] → NoCallOpen s second }
            requires two { (s : Sight) → s.events ≡ [] → NoCallOpen s third }
            requires at_one { at_one.ticket.events ≡ [] }
            requires at_two { at_two.ticket.events ≡ [] }
        {
            meet_two(
                rt,
                &mut second,
                &mut at_one,
                &mut got_one,
                &mut third,
                &mut at_two,
                &mut got_two,
            )
        },
    );
    [got_zero, got_one, got_two]
}

#[test]
fn three_ranks_get_a_word_a_sum_and_the_least(rt: HostRuntime) -> Result<(), Fail> {
    let setup = world_of(3).ok_or("a setup")?;
    let mut chip = Chip::blank();
    chip.open(rt.alloc(), setup)?;
    let got = meet_all(&rt, &mut chip);
    let sum = [3, 0, 0, 0, 44, 1, 0, 0];
    let told = got.iter().all(|rank| rank.told == *b"hello");
    let added = got[0].sum == [0; 8] && got[1].sum == [0; 8] && got[2].sum == sum;
    let compared = got.iter().all(|rank| rank.least == [255; 8]);
    if told && added && compared {
        return Ok(());
    }
    Err("another word, sum or least".into())
}
