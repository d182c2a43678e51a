//! The moves of the two signals: those of `sent` are a sender's raise and a receiver's look and lowering, those of `ready` the other
//! way round.

use crate::looks::Look;
use crate::works::Work;
use scc_base::{Call, Rank, Signal};

impl Work {
    ghost use Rattle.std.specs.Prelude.{◌≡◌, None};
    ghost use Rattle.scc_proto.specs.Moves.{LookSignal, LowerSignal, RaiseSignal};
    ghost use Rattle.rank_monitor.specs.Following.{Decides, MovesOn};
    ghost use Rattle.rank_monitor.specs.Steps.{look_of};

    /// Whether a signal may be raised at a rank.
    pub(crate) fn permits_raise(&self, signal: Signal, to: Rank) -> bool
        ensures decides { Decides self.now (RaiseSignal signal to) result }
    {
        match signal {
            Signal::Sent => self.may_raise(to),
            Signal::Ready => self.has_taken(to),
        }
    }

    /// Whether a signal may be lowered that a rank raised.
    pub(crate) fn permits_lower(&self, signal: Signal, by: Rank) -> bool
        ensures decides { Decides self.now (LowerSignal signal by) result }
    {
        match signal {
            Signal::Sent => self.may_take(by),
            Signal::Ready => self.may_go_on(by),
        }
    }

    /// A signal is raised at a rank: the call that is finished by it.
    pub(crate) fn raise(&mut self, signal: Signal, to: Rank) -> Option<Call>
        ensures size { self.new.size ≡ self.old.size }
        ensures moves { MovesOn self.old self.new (RaiseSignal signal to) result }
    {
        match signal {
            Signal::Sent => self.raise_sent(to),
            Signal::Ready => self.raise_ready(),
        }
    }

    /// The own flags of a signal are looked at.
    pub(crate) fn look(&mut self, signal: Signal, look: &Look)
        ensures size { self.new.size ≡ self.old.size }
        ensures moves { MovesOn self.old self.new (LookSignal signal (look_of look.now)) None }
    {
        match signal {
            Signal::Sent => self.look_sent(look),
            Signal::Ready => self.look_ready(look),
        }
    }

    /// A signal is lowered that a rank raised: the call that is finished by it.
    pub(crate) fn lower(&mut self, signal: Signal, by: Rank) -> Option<Call>
        ensures size { self.new.size ≡ self.old.size }
        ensures moves { MovesOn self.old self.new (LowerSignal signal by) result }
    {
        match signal {
            Signal::Sent => {
                self.lower_sent(by);
                None
            }
            Signal::Ready => self.lower_ready(),
        }
    }
}
