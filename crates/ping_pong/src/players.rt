//! The two players.

ghost use Rattle.std.specs.Prelude.{◌≡◌, [], ◌∷◌, ◌++◌, true, length, IfErr, IfOk};
ghost use Rattle.scc_base.specs.Calls.{Recv, Send};
ghost use Rattle.scc_base.specs.Heads.{plain_head};
ghost use Rattle.scc_proto.specs.Ports.{record_in};
ghost use Rattle.scc_proto.specs.Words.{are_peers};
ghost use Rattle.send_recv.specs.Calling.{SendStalled};
ghost use Rattle.station.specs.Calls.{at_receive, at_send, after_receive, in_send};
ghost use Rattle.station.specs.Patience.{AfterStalls, SaysWhyAfter, SendStalls};
ghost use Rattle.station.specs.Stations.{NoCallOpen};
ghost use Rattle.ping_pong.specs.GivingUp.{HitStops, ServeStops, patience};
ghost use Rattle.ping_pong.specs.Rallies.{hits, serves};

use crate::rallies::Ball;
use line_cache::Never;
use scc_base::Rank;
use scc_proto::Port;
use station::{RecvStop, SendStall, Station, Stop};
use std::thread;

/// How often a call that stalled goes on.
const PATIENCE: u32 = 1_000;

/// Sends a ball.
fn give<P: Port>(
    station: &mut Station<Never>,
    port: &mut P,
    to: Rank,
    ball: &Ball,
) -> Result<(), SendStall>
    requires free { NoCallOpen (P.sight port.old) station.old }
    requires peers { are_peers (P.sight port.old).seat.setup (P.sight port.old).seat.rank to ≡ true }
    ensures free { IfOk result (λ done. NoCallOpen (P.sight port.new) station.new) }
    ensures calls { IfOk result (λ done. (record_in (P.sight port.new)).calls
        ≡ (record_in (P.sight port.old)).calls ++ Send to (plain_head 4) ball.now ∷ []) }
    ensures stalled { IfErr result (λ stall. AfterStalls (SendStalls station.old.polls) (at_send (P.sight port.old) station.old to ball.now)
        patience (λ last. SendStalled last station.old.polls (in_send (P.sight port.new) station.new stall.op ball.now) stall.spot)) }
    ensures seat { (P.sight port.new).seat ≡ (P.sight port.old).seat }
    ensures same { station.new.polls ≡ station.old.polls }
{
    station.send_patiently(port, to, ball, PATIENCE)
}

/// Receives a ball. This is the loop around a stall: the other thread runs, and the receive goes on where it stands.
fn get<P: Port>(
    station: &mut Station<Never>,
    port: &mut P,
    from: Rank,
    ball: &mut Ball,
) -> Result<(), RecvStop>
    requires free { NoCallOpen (P.sight port.old) station.old }
    requires peers { are_peers (P.sight port.old).seat.setup (P.sight port.old).seat.rank from ≡ true }
    ensures free { IfOk result (λ done. NoCallOpen (P.sight port.new) station.new) }
    ensures calls { IfOk result (λ done. (record_in (P.sight port.new)).calls
        ≡ (record_in (P.sight port.old)).calls ++ Recv from (plain_head 4) ball.new ∷ []) }
    ensures why { IfErr result (λ stop. SaysWhyAfter (at_receive (P.sight port.old) station.old from ball.old) patience station.old.polls
        (after_receive (P.sight port.new) station.new ball.new) stop) }
    ensures seat { (P.sight port.new).seat ≡ (P.sight port.old).seat }
    ensures same { station.new.polls ≡ station.old.polls }
{
    let mut stall = match station.recv(port, from, ball) {
        Ok(()) => return Ok(()),
        Err(stop) => match stop {
            RecvStop::Stalled(stall) => stall,
            other => return Err(other),
        },
    };
    'rounds: for round in 0..PATIENCE {
        thread::yield_now();
        match station.recv_on(port, stall, ball) {
            Ok(()) => return Ok(()),
            Err(stop) => match stop {
                RecvStop::Stalled(later) => stall = later,
                other => return Err(other),
            },
        }
    }
    Err(RecvStop::Stalled(stall))
}

/// Serves each ball, and keeps what came back.
pub(crate) fn serve<P: Port>(
    station: &mut Station<Never>,
    port: &mut P,
    balls: &[Ball],
    back: &mut [Ball],
) -> Result<(), Stop>
    requires free { NoCallOpen (P.sight port.old) station.old }
    requires peers { are_peers (P.sight port.old).seat.setup (P.sight port.old).seat.rank 1 ≡ true }
    requires as_many { length back.old ≡ length balls.now }
    ensures calls { IfOk result (λ done. (record_in (P.sight port.new)).calls
        ≡ (record_in (P.sight port.old)).calls ++ serves balls.now back.new) }
    ensures stopped { IfErr result (λ stop. ServeStops station.old.polls (record_in (P.sight port.old)).calls balls.now back.new
        (P.sight port.new) stop) }
    ensures as_many { length back.new ≡ length balls.now }
    ensures seat { (P.sight port.new).seat ≡ (P.sight port.old).seat }
{
    let other = Rank::of(1);
    'rounds: for round in 0..balls.len() {
        give(station, port, other, &balls[round])?;
        get(station, port, other, &mut back[round])?;
    }
    Ok(())
}

/// Hits back each ball that comes, and keeps it.
pub(crate) fn hit<P: Port>(
    station: &mut Station<Never>,
    port: &mut P,
    seen: &mut [Ball],
) -> Result<(), Stop>
    requires free { NoCallOpen (P.sight port.old) station.old }
    requires peers { are_peers (P.sight port.old).seat.setup (P.sight port.old).seat.rank 0 ≡ true }
    ensures calls { IfOk result (λ done. (record_in (P.sight port.new)).calls ≡ (record_in (P.sight port.old)).calls ++ hits seen.new) }
    ensures stopped { IfErr result (λ stop. HitStops station.old.polls (record_in (P.sight port.old)).calls seen.new
        (P.sight port.new) stop) }
    ensures as_many { length seen.new ≡ length seen.old }
    ensures seat { (P.sight port.new).seat ≡ (P.sight port.old).seat }
{
    let other = Rank::of(0);
    'rounds: for round in 0..seen.len() {
        get(station, port, other, &mut seen[round])?;
        give(station, port, other, &seen[round])?;
    }
    Ok(())
}
