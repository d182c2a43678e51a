//! A tap: it stands before a port, reads each access, and keeps the rank's finished calls.

use crate::kept::Kept;
use rank_monitor::RankMonitor;
use scc_base::{Event, Rank, Setup};
use std::alloc::{AllocError, Global};

/// A tap on the port of a rank. It tells from the rank's accesses, one after the other, the calls that the rank has finished,
/// with their bytes. All its memory is taken in `new`.
#[derive(Drop)]
pub struct Tap {
    pub monitor: RankMonitor,
    pub kept: Kept,
}

impl Tap {
    ghost use Rattle.std.specs.Prelude.{◌<◌, ◌∷◌, ◌++◌, ℕ, List, [], IfOk};
    ghost use Rattle.scc_base.specs.Setups.{SetupView};
    ghost use Rattle.scc_base.specs.declared.events.Event.{Event};
    ghost use Rattle.call_tap.specs.Taps.{HasRead};

    /// The tap of a rank that has made no access, with room for 10,000 calls with 262,144 bytes together.
    pub fn new(alloc: Global, setup: Setup, rank: Rank) -> Result<Tap, AllocError>
        requires below { rank < setup.nue }
        ensures read { IfOk result (λ tap. HasRead tap setup rank []) }
    {
        let monitor = RankMonitor::new(alloc, setup, rank)?;
        let kept = Kept::new(alloc)?;
        Ok(Tap { monitor, kept })
    }

    /// One access more of the rank. An access that its record does not permit changes nothing.
    pub(crate) fn read(&mut self, event: &Event)
        ensures reads { (s : SetupView) (rank : ℕ) (events : List Event) → HasRead self.old s rank events
            → HasRead self.new s rank (events ++ event.now ∷ []) }
    {
        match self.monitor.take(event) {
            Ok(Some(call)) => self.kept.note(call, self.monitor.bytes()),
            Ok(None) => {}
            Err(_) => {}
        }
    }
}
