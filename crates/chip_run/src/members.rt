//! The members of a run.

use crate::workers::Worker;
use scc_base::Turn;
use scc_mesh::Token;
use scc_proto::Port;

/// A worker with a place for its rank's token, which is empty before and after a run.
#[derive(Drop)]
pub struct Member<W: Worker> {
    pub worker: W,
    pub token: Option<Token>,
    /// How many turns in a row it has waited, of a row that is taken a stretch at a time.
    pub failed: usize,
}

impl<W: Worker> Member<W> {
    ghost use Rattle.std.specs.Prelude.{◌≡◌, None};

    /// A member whose rank is at home.
    pub fn new(worker: W) -> Member<W>
        ensures worker { result.worker ≡ worker }
        ensures empty { result.token ≡ None }
    {
        Member {
            worker,
            token: None,
            failed: 0,
        }
    }

    /// Its worker. A member of a run of scripts is a rank's unit of execution (UE).
    pub fn ue(&self) -> &W
        ensures shows { result.now ≡ self.now.worker }
    {
        &self.worker
    }
}

impl<W: Worker> Worker for Member<W> {
    ghost use Rattle.chip_run.specs.Away.{behaviour_of_members};

    ghost behaviour = { behaviour_of_members W.behaviour };

    fn turn<P: Port>(&mut self, port: P) -> (Turn, P) {
        self.worker.turn(port)
    }

    fn batch<P: Port>(&mut self, port: P) -> (Turn, P) {
        self.worker.batch(port)
    }

    fn is_stopped(&self) -> bool {
        self.worker.is_stopped()
    }

    ghost hands = { λ m s rank events home. W.hands m.worker s rank events home.ties };
}
