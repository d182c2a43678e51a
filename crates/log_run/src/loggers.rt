//! A worker whose calls are kept.

use call_tap::{Tap, Tapped};
use chip_run::Worker;
use scc_base::Turn;
use scc_proto::Port;

/// A worker with the tap on its rank's port. The tap is away only while a turn lasts.
#[derive(Drop)]
pub struct Logger<W: Worker> {
    pub worker: W,
    pub tap: Option<Tap>,
}

impl<W: Worker> Logger<W> {
    ghost use Rattle.std.specs.Prelude.{◌≡◌, Some};

    /// A worker with this tap.
    pub fn new(worker: W, tap: Tap) -> Logger<W>
        ensures worker { result.worker ≡ worker }
        ensures tap { result.tap ≡ Some tap }
    {
        Logger {
            worker,
            tap: Some(tap),
        }
    }
}

// A turn goes through the worker's port with the tap on it.
impl<W: Worker> Worker for Logger<W> {
    ghost use Rattle.log_run.specs.Loggers.{loggers_of};

    ghost behaviour = { loggers_of W.behaviour };

    fn turn<P: Port>(&mut self, port: P) -> (Turn, P) {
        let Some(tap) = self.tap.take() else {
            unreachable!()
        };
        let (answer, tapped) = self.worker.turn(Tapped::new(tap, port));
        let (tap, port) = tapped.apart();
        self.tap = Some(tap);
        (answer, port)
    }

    fn batch<P: Port>(&mut self, port: P) -> (Turn, P) {
        self.turn(port)
    }

    fn is_stopped(&self) -> bool {
        self.worker.is_stopped()
    }

    ghost hands = { λ l s rank events logging. W.hands l.worker s rank events logging.ties };
}
