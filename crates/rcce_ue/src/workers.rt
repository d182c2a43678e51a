//! A UE is a worker: what its turns say of the chip is what a run needs of them.

use crate::ues::Ue;
use chip_run::Worker;
use line_cache::Evict;
use scc_base::Turn;
use scc_proto::Port;

impl<'s, V: Evict> Worker for Ue<'s, V> {
    ghost use Rattle.rcce_ue.specs.Workers.{ue_behaviour};

    ghost behaviour = { ue_behaviour };

    fn turn<P: Port>(&mut self, port: P) -> (Turn, P) {
        let mut port = port;
        let answer = Ue::turn(self, &mut port);
        (answer, port)
    }

    #[inline(always)]
    fn batch<P: Port>(&mut self, port: P) -> (Turn, P) {
        let mut port = port;
        if self.move_lines(&mut port) {
            self.go_on(&mut port);
            return (Turn::Moved, port);
        }
        match Ue::turn(self, &mut port) {
            Turn::Moved => {
                self.go_on(&mut port);
                (Turn::Moved, port)
            }
            Turn::Waiting(spot) => (Turn::Waiting(spot), port),
            Turn::Done => (Turn::Done, port),
        }
    }

    fn is_stopped(&self) -> bool {
        Ue::is_stopped(self)
    }

    ghost hands = { λ x s rank events stands. stands.hands };
}
