//! One barrier, one turn at a time.

use crate::flags::{gather_flag, known, member, release_flag};
use crate::parities::Parity;
use crate::stages::{BarStage, stage_after_flip, stage_after_release, stage_after_seen};
use line_cache::Evict;
use put_get::Core;
use scc_base::{Place, Spot, Turn};
use scc_proto::Port;
use std::marker::Model;
use sync_flags::{look_word, store_word};

/// A barrier of the own group of a communicator, as far as it has come.
///
/// It is seen as its communicator and what it does next.
#[derive(Drop)]
pub struct BarOp {
    comm: u8,
    stage: BarStage,
}

impl Model for BarOp {
    ghost use Rattle.barrier.specs.Stages.{BarAt};

    ghost Value = { BarAt };

    ghost view = { λ a. record { comm = a.comm; stage = a.stage } };
}

impl BarOp {
    ghost use Rattle.std.specs.Prelude.{◌≡◌, ◌≢◌, ◌+◌, ◌<◌, ℕ, List, Bool, true, false, None, Some, ◌==◌, if◌then◌else◌, slice_index};
    ghost use Rattle.scc_base.specs.Events.{store_of};
    ghost use Rattle.scc_base.specs.Communicators.{rule_of};
    ghost use Rattle.scc_base.specs.Setups.{IsSetup, IsMemberAt};
    ghost use Rattle.scc_base.specs.declared.communicators.CommRule.TheVariants.{Absent};
    ghost use Rattle.scc_base.specs.declared.events.Spot.{Spot};
    ghost use Rattle.scc_base.specs.declared.events.Spot.TheVariants.{Flag};
    ghost use Rattle.scc_base.specs.declared.events.Turn.TheVariants as turn;
    ghost use Rattle.scc_proto.specs.Ports.{MayMake, record_in};
    ghost use Rattle.put_get.specs.Cores.{MadeSteps};
    ghost use Rattle.barrier.specs.declared.stages.BarStage.TheVariants.{Flip, Gather, Release, Await, Finished};
    ghost use Rattle.sync_flags.specs.Flags.{flag_value};
    ghost use Rattle.sync_flags.specs.Turns.{waits_at};
    ghost use Rattle.barrier.specs.Flags.{value_at, gather_word, release_word, member_at};
    ghost use Rattle.barrier.specs.Stages.{BarStands, new_barrier, group_size, own_place, after_flip, after_member_seen, after_release, meeting};
    ghost use Rattle.barrier.specs.Turns.{BarTurned};

    /// A barrier that is not yet entered.
    pub fn new(comm: u8) -> BarOp
        ensures starts { result ≡ new_barrier comm }
    {
        BarOp {
            comm,
            stage: BarStage::Flip,
        }
    }

    // Enters the barrier by a flip of the own gather flag.
    fn flip<V: Evict, P: Port>(
        &mut self,
        core: &mut Core<V>,
        port: &mut P,
        parity: &mut Parity,
    ) -> Turn
        requires stage { self.old.stage ≡ Flip }
        requires stands { BarStands (P.sight port.old) core.old self.old parity.old }
        ensures stands { BarStands (P.sight port.new) core.new self.new parity.new }
        ensures turned { BarTurned (meeting (P.sight port.old) core.old self.old parity.old)
            (meeting (P.sight port.new) core.new self.new parity.new) result }
        ensures goes_on { waits_at result ≡ None }
    {
        let own = port.rank();
        let size = port.setup().group_size(self.comm, own);
        let place = port.setup().place(self.comm, own);
        let flag = gather_flag(port, self.comm, own);
        parity.flip(self.comm);
        let value = parity.value(self.comm);
        known(port);
        store_word(core, port, flag, value);
        self.stage = stage_after_flip(size, place);
        if size == 1 {
            return Turn::Done;
        }
        Turn::Moved
    }

    // Looks whether the next member has entered the barrier.
    fn look_gather<V: Evict, P: Port>(
        &mut self,
        core: &mut Core<V>,
        port: &mut P,
        parity: &Parity,
        seen: u8,
    ) -> Turn
        requires stage { self.old.stage ≡ Gather seen }
        requires stands { BarStands (P.sight port.old) core.old self.old parity.now }
        ensures stands { BarStands (P.sight port.new) core.new self.new parity.now }
        ensures turned { BarTurned (meeting (P.sight port.old) core.old self.old parity.now)
            (meeting (P.sight port.new) core.new self.new parity.now) result }
        ensures steps { MadeSteps P.stepped (P.sight port.old) (P.sight port.new) }
    {
        let own = port.rank();
        let size = port.setup().group_size(self.comm, own);
        let next = member(port, self.comm, seen + 1);
        let flag = gather_flag(port, self.comm, next);
        let value = parity.value(self.comm);
        known(port);
        if look_word(core, port, flag) != value {
            return Turn::Waiting(Spot::Flag {
                place: flag,
                bit: 0,
            });
        }
        self.stage = stage_after_seen(size, seen);
        Turn::Moved
    }

    // Releases the next member.
    fn release<V: Evict, P: Port>(
        &mut self,
        core: &mut Core<V>,
        port: &mut P,
        parity: &Parity,
        released: u8,
    ) -> Turn
        requires stage { self.old.stage ≡ Release released }
        requires stands { BarStands (P.sight port.old) core.old self.old parity.now }
        ensures stands { BarStands (P.sight port.new) core.new self.new parity.now }
        ensures turned { BarTurned (meeting (P.sight port.old) core.old self.old parity.now)
            (meeting (P.sight port.new) core.new self.new parity.now) result }
        ensures goes_on { waits_at result ≡ None }
    {
        let own = port.rank();
        let size = port.setup().group_size(self.comm, own);
        let next = member(port, self.comm, released + 1);
        let flag = release_flag(port, self.comm, next);
        let value = parity.value(self.comm);
        known(port);
        store_word(core, port, flag, value);
        self.stage = stage_after_release(size, released);
        if size - released == 2 {
            return Turn::Done;
        }
        Turn::Moved
    }

    // Looks whether the root has released this rank.
    fn look_release<V: Evict, P: Port>(
        &mut self,
        core: &mut Core<V>,
        port: &mut P,
        parity: &Parity,
    ) -> Turn
        requires stage { self.old.stage ≡ Await }
        requires stands { BarStands (P.sight port.old) core.old self.old parity.now }
        ensures stands { BarStands (P.sight port.new) core.new self.new parity.now }
        ensures turned { BarTurned (meeting (P.sight port.old) core.old self.old parity.now)
            (meeting (P.sight port.new) core.new self.new parity.now) result }
        ensures steps { MadeSteps P.stepped (P.sight port.old) (P.sight port.new) }
    {
        let own = port.rank();
        let flag = release_flag(port, self.comm, own);
        let value = parity.value(self.comm);
        known(port);
        if look_word(core, port, flag) != value {
            return Turn::Waiting(Spot::Flag {
                place: flag,
                bit: 0,
            });
        }
        self.stage = BarStage::Finished;
        Turn::Done
    }

    /// Goes on by one turn: it writes one flag, or looks at one.
    pub fn turn<V: Evict, P: Port>(
        &mut self,
        core: &mut Core<V>,
        port: &mut P,
        parity: &mut Parity,
    ) -> Turn
        requires stands { BarStands (P.sight port.old) core.old self.old parity.old }
        ensures stands { BarStands (P.sight port.new) core.new self.new parity.new }
        ensures turned { BarTurned (meeting (P.sight port.old) core.old self.old parity.old)
            (meeting (P.sight port.new) core.new self.new parity.new) result }
        ensures steps { (spot : Spot) → waits_at result ≡ Some spot → MadeSteps P.stepped (P.sight port.old) (P.sight port.new) }
    {
        match self.stage {
            BarStage::Flip => self.flip(core, port, parity),
            BarStage::Gather(seen) => self.look_gather(core, port, parity, seen),
            BarStage::Release(released) => self.release(core, port, parity, released),
            BarStage::Await => self.look_release(core, port, parity),
            BarStage::Finished => Turn::Done,
        }
    }
}
