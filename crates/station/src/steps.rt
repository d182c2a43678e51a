//! Collective calls over a communicator, one step at a time.

ghost use Rattle.std.specs.Prelude.{◌≡◌, ◌==◌};
ghost use Rattle.scc_base.specs.Setups.{place_of};
ghost use Rattle.groups.specs.Collectives.{IsCallable, comm_of, root_place};
ghost use Rattle.station.specs.Groups.{FoldFits, group_stop_of, step_stop_of};
ghost use Rattle.station.specs.Steps.{begun_receive, begun_send, one_of, folded_output};
ghost use Rattle.station.specs.declared.steps.Hand.TheVariants.{Sending};
ghost use Rattle.station.specs.declared.steps.StepStop.TheVariants.{Stalled};

use crate::stations::Station;
use crate::stops::{GroupStall, GroupStop, RecvStop, SendStall};
use groups::{Coll, Op, Step, Ty, fold_into, step, steps};
use line_cache::Evict;
use scc_base::{Head, Rank, Spot};
use scc_proto::Port;
use send_recv::{RecvOp, SendOp};

/// How values are folded: their type, and the operation.
#[derive(Clone, Copy)]
pub struct Folding {
    pub op: Op,
    pub ty: Ty,
}

/// What a collective call over a communicator is in the midst of.
#[derive(Drop)]
pub enum Hand {
    /// No message: the next step is yet to begin.
    Between,
    /// This send is in hand.
    Sending(SendOp),
    /// This receive is in hand.
    Receiving(RecvOp),
}

/// A broadcast or a reduction of one rank, as far as it has come.
#[derive(Drop)]
pub struct GroupOp {
    /// Which call it is.
    pub coll: Coll,
    /// How its values are folded, where they are.
    pub folding: Option<Folding>,
    /// How many of its steps have ended.
    pub at: u32,
    /// What it is in the midst of.
    pub hand: Hand,
}

// Why a step stopped.
#[derive(Drop)]
pub(crate) enum StepStop {
    // Its message gave up.
    Stalled { hand: Hand, spot: Spot, polls: u32 },
    // Another message was sent. It stays untaken.
    Mismatch { sent: Head, asked: Head },
}

// The communicator of a collective call.
fn comm_in(coll: Coll) -> u8
    ensures gives { result ≡ comm_of coll }
{
    match coll {
        Coll::Bcast { comm, .. } => comm,
        Coll::Reduce { comm, .. } => comm,
        Coll::Allreduce { comm, .. } => comm,
    }
}

// The place of the root in its group.
fn root_in(coll: Coll) -> u8
    ensures gives { result ≡ root_place coll }
{
    match coll {
        Coll::Bcast { root, .. } => root,
        Coll::Reduce { root, .. } => root,
        Coll::Allreduce { .. } => 0,
    }
}

// Whether the port's rank is the root of a collective call.
fn is_root<P: Port>(port: &P, coll: Coll) -> bool
    requires callable { IsCallable (P.sight port.now).seat.setup (P.sight port.now).seat.rank coll }
    ensures tells { result ≡ (place_of (P.sight port.now).seat.setup (comm_of coll) (P.sight port.now).seat.rank == root_place coll) }
{
    port.setup().place(comm_in(coll), port.rank()) == root_in(coll)
}

// The send of a step: that in hand, or a new one.
fn send_of(hand: Hand, to: Rank, head: Head) -> SendOp
    ensures gives { result ≡ begun_send hand to head }
{
    match hand {
        Hand::Sending(op) => op,
        Hand::Between => SendOp::new(to, head),
        Hand::Receiving(_) => SendOp::new(to, head),
    }
}

// The receive of a step: that in hand, or a new one.
fn receive_of(hand: Hand, from: Rank, head: Head) -> RecvOp
    ensures gives { result ≡ begun_receive hand from head }
{
    match hand {
        Hand::Receiving(op) => op,
        Hand::Between => RecvOp::new(from, head),
        Hand::Sending(_) => RecvOp::new(from, head),
    }
}

// One of two slices.
fn either<'a>(first: bool, one: &'a [u8], other: &'a [u8]) -> &'a [u8]
    ensures gives { result.now ≡ one_of first one.now other.now }
{
    if first { one } else { other }
}

// Folds what was received into the output, where the call folds.
fn fold(folding: Option<Folding>, output: &mut [u8], work: &[u8])
    requires fits { FoldFits folding output.old work.now }
    ensures folds { output.new ≡ folded_output folding output.old work.now }
{
    let Some(how) = folding else {
        return;
    };
    let Ok(()) = fold_into(how.op, how.ty, output, work) else {
        unreachable!()
    };
}

// What stopped a send, as a step's stop.
fn send_stopped(stall: SendStall) -> StepStop
    ensures gives { result ≡ Stalled (Sending stall.op) stall.spot stall.polls }
{
    StepStop::Stalled {
        hand: Hand::Sending(stall.op),
        spot: stall.spot,
        polls: stall.polls,
    }
}

// What stopped a receive, as a step's stop.
fn receive_stopped(stop: RecvStop) -> StepStop
    ensures gives { result ≡ step_stop_of stop }
{
    match stop {
        RecvStop::Stalled(stall) => StepStop::Stalled {
            hand: Hand::Receiving(stall.op),
            spot: stall.spot,
            polls: stall.polls,
        },
        RecvStop::Mismatch { sent, asked } => StepStop::Mismatch { sent, asked },
    }
}

// What stopped a step, as a call's stop.
fn group_stopped(coll: Coll, folding: Option<Folding>, at: u32, stop: StepStop) -> GroupStop
    ensures gives { result ≡ group_stop_of coll folding at stop }
{
    match stop {
        StepStop::Stalled { hand, spot, polls } => GroupStop::Stalled(GroupStall {
            op: GroupOp {
                coll,
                folding,
                at,
                hand,
            },
            spot,
            polls,
        }),
        StepStop::Mismatch { sent, asked } => GroupStop::Mismatch {
            op: GroupOp {
                coll,
                folding,
                at,
                hand: Hand::Between,
            },
            sent,
            asked,
        },
    }
}

impl<V: Evict> Station<V> {
    ghost use Rattle.std.specs.Prelude.{◌≡◌, ◌<◌, Some, IfOk, IfErr};
    ghost use Rattle.scc_proto.specs.Ports.{record_in};
    ghost use Rattle.groups.specs.Peers.{IsWithPeer};
    ghost use Rattle.groups.specs.declared.collectives.Step.TheVariants.{Recv};
    ghost use Rattle.station.specs.Calls.{OnlyMessages};
    ghost use Rattle.station.specs.Groups.{GroupStart, HasStepped, HasRunGroup, IsInStepReceive, IsInGroup, IsSameCall, SaysWhyGroup, SaysWhyStep, StandsInStep, StepFits, StepLeaves, held_in, in_group_call, in_step, op_in};
    ghost use Rattle.station.specs.Stations.{KeepsHeap};
    ghost use Rattle.station.specs.Steps.{Held, GroupPart, part_by};

    // Goes on with a receive into the work buffer, or into the output.
    fn receive_into<P: Port>(
        &mut self,
        port: &mut P,
        op: RecvOp,
        root: bool,
        output: &mut [u8],
        work: &mut [u8],
    ) -> Result<(), StepStop>
        requires open { (part : GroupPart) × (before : Held) × (part.is_root ≡ root)
            × IsInStepReceive before (in_step (P.sight port.old) self.old part (held_in output.old work.old)) (Some
            (Recv op.from op.head)) op }
        ensures done { IfOk result (λ d. (part : GroupPart) (before : Held) → part.is_root ≡ root
            → IsInStepReceive before (in_step (P.sight port.old) self.old part (held_in output.old work.old)) (Some
            (Recv op.from op.head)) op
            → HasStepped before (Recv op.from op.head) (P.sight port.old) (in_step (P.sight port.new) self.new part
            (held_in output.new work.new))) }
        ensures leaves { IfErr result (λ stop. (part : GroupPart) (before : Held) → part.is_root ≡ root
            → IsInStepReceive before (in_step (P.sight port.old) self.old part (held_in output.old work.old)) (Some
            (Recv op.from op.head)) op
            → StepLeaves before (Some (Recv op.from op.head)) (in_step (P.sight port.new) self.new part
            (held_in output.new work.new)) stop) }
        ensures none { IfErr result (λ stop. (record_in (P.sight port.new)).calls ≡ (record_in (P.sight port.old)).calls) }
        ensures why { IfErr result (λ stop. (part : GroupPart) → SaysWhyStep (Some (Recv op.from op.head)) (P.sight port.old) self.old.polls
            (in_step (P.sight port.new) self.new part (held_in output.new work.new)) stop) }
        ensures only { OnlyMessages (P.sight port.old) (P.sight port.new) }
        ensures seat { (P.sight port.new).seat ≡ (P.sight port.old).seat }
        ensures same { KeepsHeap self.old self.new }
    {
        if root {
            match self.finish_receive(port, op, work) {
                Ok(()) => Ok(()),
                Err(stop) => Err(receive_stopped(stop)),
            }
        } else {
            match self.finish_receive(port, op, output) {
                Ok(()) => Ok(()),
                Err(stop) => Err(receive_stopped(stop)),
            }
        }
    }

    // Does a step, of which this much is done.
    fn do_step<P: Port>(
        &mut self,
        port: &mut P,
        next: Step,
        hand: Hand,
        root: bool,
        folding: Option<Folding>,
        input: &[u8],
        output: &mut [u8],
        work: &mut [u8],
    ) -> Result<(), StepStop>
        requires open { (before : Held)
            × StandsInStep before (in_step (P.sight port.old) self.old (part_by root folding input.now) (held_in output.old work.old))
            (Some next) hand }
        requires below { (P.sight port.old).seat.rank < (P.sight port.old).seat.setup.nue }
        requires peer { IsWithPeer (P.sight port.old).seat.setup (P.sight port.old).seat.rank next }
        requires fits { StepFits (part_by root folding input.now) (held_in output.old work.old) next }
        ensures done { IfOk result (λ d. (before : Held)
            → StandsInStep before (in_step (P.sight port.old) self.old (part_by root folding input.now) (held_in output.old work.old))
            (Some next) hand
            → HasStepped before next (P.sight port.old) (in_step (P.sight port.new) self.new (part_by root folding input.now)
            (held_in output.new work.new))) }
        ensures leaves { IfErr result (λ stop. (before : Held)
            → StandsInStep before (in_step (P.sight port.old) self.old (part_by root folding input.now) (held_in output.old work.old))
            (Some next) hand
            → StepLeaves before (Some next) (in_step (P.sight port.new) self.new (part_by root folding input.now)
            (held_in output.new work.new)) stop) }
        ensures none { IfErr result (λ stop. (record_in (P.sight port.new)).calls ≡ (record_in (P.sight port.old)).calls) }
        ensures why { IfErr result (λ stop. SaysWhyStep (Some next) (P.sight port.old) self.old.polls
            (in_step (P.sight port.new) self.new (part_by root folding input.now) (held_in output.new work.new)) stop) }
        ensures only { OnlyMessages (P.sight port.old) (P.sight port.new) }
        ensures seat { (P.sight port.new).seat ≡ (P.sight port.old).seat }
        ensures same { KeepsHeap self.old self.new }
    {
        match next {
            Step::Begin => {
                output.copy_from_slice(input);
                Ok(())
            }
            Step::Send { to, head } => {
                let op = send_of(hand, to, head);
                match self.finish_send(port, op, either(root, output, input)) {
                    Ok(()) => Ok(()),
                    Err(stall) => Err(send_stopped(stall)),
                }
            }
            Step::Recv { from, head } => {
                let op = receive_of(hand, from, head);
                self.receive_into(port, op, root, output, work)
            }
            Step::Fold => {
                fold(folding, output, work);
                Ok(())
            }
            Step::Accept => Ok(()),
            Step::Finish => Ok(()),
        }
    }

    // Goes on with a collective call, step by step.
    pub(crate) fn run_steps<P: Port>(
        &mut self,
        port: &mut P,
        op: GroupOp,
        input: &[u8],
        output: &mut [u8],
        work: &mut [u8],
    ) -> Result<(), GroupStop>
        requires open { (start : GroupStart) × IsInGroup start (in_group_call (P.sight port.old) self.old op input.now
            (held_in output.old work.old)) }
        ensures ended { IfOk result (λ done. (start : GroupStart)
            → IsInGroup start (in_group_call (P.sight port.old) self.old op input.now (held_in output.old work.old))
            → HasRunGroup start (in_group_call (P.sight port.new) self.new op input.now (held_in output.new work.new))) }
        ensures open { IfErr result (λ stop. (start : GroupStart)
            → IsInGroup start (in_group_call (P.sight port.old) self.old op input.now (held_in output.old work.old))
            → IsInGroup start (in_group_call (P.sight port.new) self.new (op_in stop) input.now (held_in output.new work.new))) }
        ensures call { IfErr result (λ stop. IsSameCall op (op_in stop)) }
        ensures why { IfErr result (λ stop. SaysWhyGroup (P.sight port.old) self.old.polls
            (in_group_call (P.sight port.new) self.new (op_in stop) input.now (held_in output.new work.new)) stop) }
        ensures only { OnlyMessages (P.sight port.old) (P.sight port.new) }
        ensures seat { (P.sight port.new).seat ≡ (P.sight port.old).seat }
        ensures same { KeepsHeap self.old self.new }
    {
        let coll = op.coll;
        let folding = op.folding;
        let root = is_root(port, coll);
        let count = steps(port.setup(), port.rank(), coll);
        let mut at = op.at;
        let mut hand = op.hand;
        'walk: while at < count {
            let next = step(port.setup(), port.rank(), coll, at);
            match self.do_step(port, next, hand, root, folding, input, output, work) {
                Ok(()) => {
                    hand = Hand::Between;
                    at += 1;
                }
                Err(stop) => return Err(group_stopped(coll, folding, at, stop)),
            }
        }
        Ok(())
    }
}
