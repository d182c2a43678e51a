//! A rank of a collective call is a worker.

use crate::members::Member;
use chip_run::Worker;
use line_cache::Evict;
use scc_base::Turn;
use scc_proto::Port;
use send_recv::RecvTurn;

impl<V: Evict + Drop> Member<V> {
    ghost use Rattle.std.specs.Prelude.{[]};
    ghost use Rattle.coll_more.specs.Ops.{taking_part};
    ghost use Rattle.coll_more.specs.Standing.{MoreStands};
    ghost use Rattle.coll_run.specs.Workers.{HasGoneOn, IsTied, member_behaviour};
    ghost use Rattle.chip_run.specs.Turns.{Turned};

    // One turn of its call.
    fn go_on<P: Port>(&mut self, port: &mut P) -> RecvTurn
        requires stands { MoreStands [] (taking_part (P.sight port.old) self.old.core self.old.op self.old.slot self.old.src self.old.dst) }
        ensures goes { HasGoneOn P.stepped self.old (P.sight port.old) self.new (P.sight port.new) result }
    {
        self.op.turn(
            &mut self.core,
            port,
            &mut self.slot,
            &self.src,
            &mut self.dst,
        )
    }

    // One turn of its call, as a turn of a worker: one that meets another head moves a last time.
    fn turn_on<P: Port>(&mut self, port: &mut P) -> Turn
        requires ties { IsTied self.old (P.sight port.old).seat.setup (P.sight port.old).seat.rank (P.sight port.old).events }
        ensures ties { IsTied self.new (P.sight port.new).seat.setup (P.sight port.new).seat.rank (P.sight port.new).events }
        ensures turned { Turned member_behaviour (P.stepped (P.sight port.old).seat) self.old (P.sight port.old) self.new
            (P.sight port.new) result }
    {
        if self.met {
            return Turn::Done;
        }
        match self.go_on(port) {
            RecvTurn::Moved => Turn::Moved,
            RecvTurn::Waiting(spot) => Turn::Waiting(spot),
            RecvTurn::Done => Turn::Done,
            RecvTurn::Mismatch(_) => {
                self.met = true;
                Turn::Moved
            }
        }
    }
}

impl<V: Evict + Drop> Worker for Member<V> {
    ghost use Rattle.coll_run.specs.Workers.{member_behaviour};

    ghost behaviour = { member_behaviour };

    fn turn<P: Port>(&mut self, port: P) -> (Turn, P) {
        let mut port = port;
        let answer = self.turn_on(&mut port);
        (answer, port)
    }

    fn batch<P: Port>(&mut self, port: P) -> (Turn, P) {
        self.turn(port)
    }

    fn is_stopped(&self) -> bool {
        self.met
    }

    ghost hands = { λ m s rank events ties. ties.stands.hands };
}
