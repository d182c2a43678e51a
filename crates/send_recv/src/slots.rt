//! The slot of a posted message.

use crate::flags::{changes_at_once, look_for, lower};
use crate::places::{known, layout_of};
use line_cache::Evict;
use put_get::Core;
use scc_base::{Rank, Signal, Turn};
use scc_proto::Port;
use std::marker::Model;

/// The posted message of a rank that is on its way, if any: its target, and whether it was seen that the
/// target has taken it.
#[derive(Drop)]
pub struct Slot {
    to: Option<Rank>,
    seen: bool,
}

impl Model for Slot {
    ghost use Rattle.send_recv.specs.Ops.{SlotAt};

    ghost Value = { SlotAt };

    ghost view = { λ a. record { to = a.to; seen = a.seen } };
}

impl Slot {
    ghost use Rattle.std.specs.Prelude.{◌≡◌, None, Some, true, false, is_none};
    ghost use Rattle.sync_flags.specs.Turns.{waits_at};
    ghost use Rattle.scc_base.specs.declared.events.Spot.{Spot};
    ghost use Rattle.scc_proto.specs.Ports.{record_in};
    ghost use Rattle.put_get.specs.Cores.{MadeSteps};
    ghost use Rattle.send_recv.specs.Ops.{empty_slot};
    ghost use Rattle.send_recv.specs.Sending.{SlotStands, SlotTurned, slot_spot};
    ghost use Rattle.scc_base.specs.declared.signals.Signal.TheVariants.{Ready};
    ghost use Rattle.send_recv.specs.Sights.{LooksFor, Lowers, MayLower, signal_spot, own_register};
    ghost use Rattle.send_recv.specs.Steps.{moves_on, moved_or_waits, slot_seen, slot_lowered};
    ghost use Rattle.send_recv.specs.Turns.{HoldsNone};
    ghost use Rattle.send_recv.specs.Ranks.{holding_slot};

    /// No message is on its way.
    pub fn new() -> Slot
        ensures empty { result ≡ empty_slot }
    {
        Slot {
            to: None,
            seen: false,
        }
    }

    /// The peer of the message on its way, and None where there is none.
    pub fn holds(&self) -> Option<Rank>
        ensures gives { result ≡ self.now.to }
    {
        self.to
    }

    /// Whether the next turn makes no try, so that it does not wait.
    pub(crate) fn is_sure<P: Port>(&self, port: &P) -> bool
        ensures tells { result ≡ is_none (slot_spot (P.sight port.now).seat self.now) }
    {
        match self.to {
            None => true,
            Some(_) => self.seen && changes_at_once(layout_of(port)),
        }
    }

    // Fills the slot with a message to this rank.
    pub(crate) fn fill(&mut self, to: Rank)
        ensures fills { self.new ≡ record { to = Some to; seen = false } }
    {
        self.to = Some(to);
        self.seen = false;
    }

    // Looks whether the message was taken.
    fn look_ready<V: Evict, P: Port>(&mut self, core: &mut Core<V>, port: &mut P, to: Rank) -> Turn
        requires empty { core.old.out ≡ None }
        ensures looks { LooksFor Ready (P.sight port.old) core.old to (moves_on result) (P.sight port.new) core.new }
        ensures next { self.new ≡ slot_seen (moves_on result) self.old }
        ensures answers { result ≡ moved_or_waits (moves_on result) (signal_spot Ready (P.sight port.old) to) }
        ensures steps { MadeSteps P.stepped (P.sight port.old) (P.sight port.new) }
    {
        if let Some(spot) = look_for(core, port, Signal::Ready, to) {
            return Turn::Waiting(spot);
        }
        self.seen = true;
        Turn::Moved
    }

    // Lowers the flag by which the message was answered.
    fn lower_ready<V: Evict, P: Port>(&mut self, core: &mut Core<V>, port: &mut P, to: Rank) -> Turn
        requires may { MayLower Ready (P.sight port.old) core.old to }
        ensures changes { Lowers Ready (P.sight port.old) core.old to (moves_on result) (P.sight port.new) core.new }
        ensures next { self.new ≡ slot_lowered (moves_on result) self.old }
        ensures answers { result ≡ moved_or_waits (moves_on result) (own_register (P.sight port.old)) }
        ensures steps { moves_on result ≡ false → MadeSteps P.stepped (P.sight port.old) (P.sight port.new) }
    {
        if let Some(spot) = lower(core, port, Signal::Ready, to) {
            return Turn::Waiting(spot);
        }
        self.to = None;
        self.seen = false;
        Turn::Moved
    }

    /// Goes on by one turn: it looks once whether the message was taken, or lowers the flag that said so.
    pub fn turn<V: Evict, P: Port>(&mut self, core: &mut Core<V>, port: &mut P) -> Turn
        requires stands { SlotStands (P.sight port.old).seat (record_in (P.sight port.old)) self.old }
        requires empty { core.old.out ≡ None }
        requires hands { HoldsNone (P.sight port.old).seat.setup.layout (record_in (P.sight port.old)) }
        ensures stands { SlotStands (P.sight port.new).seat (record_in (P.sight port.new)) self.new }
        ensures turned { SlotTurned (holding_slot (P.sight port.old) core.old self.old)
            (holding_slot (P.sight port.new) core.new self.new) result }
        ensures steps { (spot : Spot) → waits_at result ≡ Some spot → MadeSteps P.stepped (P.sight port.old) (P.sight port.new) }
    {
        known(port);
        match self.to {
            None => Turn::Done,
            Some(to) => {
                if self.seen {
                    self.lower_ready(core, port, to)
                } else {
                    self.look_ready(core, port, to)
                }
            }
        }
    }
}
