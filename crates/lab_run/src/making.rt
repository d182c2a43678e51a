//! The steps that the cores of a lab make.

ghost use Rattle.std.specs.Prelude.{◌≡◌, ◌<◌, IfOk};
ghost use Rattle.lab_plain.specs.Meaning.{core_done, step_done};
ghost use Rattle.lab_run.specs.Benches.{StandsOnBench, IsNewBench, BenchStands, bench_stand};
ghost use Rattle.lab_run.specs.Stands.{AreNew};

use crate::acting::act;
use crate::bench::Bench;
use crate::evictor::Named;
use crate::setup::lab_setup;
use chip_memory::TurnChip;
use lab_plain::{Said, Stopped};
use lab_reader::{Action, Step};
use put_get::Core;
use scc_base::{CoreId, Rank};
use std::alloc::{AllocError, Global};
use texts::Bytes;

/// 48 cores that hold nothing.
fn new_cores(alloc: Global) -> Result<Vec<Core<Named>>, AllocError>
    ensures { IfOk result (λ cores. AreNew cores.items) }
{
    let mut cores = Vec::new(alloc);
    for _core in 0..48u8 {
        cores.push(Core::new(Named::new(None)))?;
    }
    Ok(cores)
}

impl Bench {
    /// A chip and its cores before the first step.
    pub(crate) fn new(alloc: Global) -> Result<Bench, AllocError>
        ensures { IfOk result IsNewBench }
    {
        let chip = TurnChip::new(alloc, lab_setup(), Rank::of(0))?;
        let cores = new_cores(alloc)?;
        Ok(Bench {
            chip,
            cores,
            holders: [None; 48],
            said: Vec::new(alloc),
        })
    }

    /// Makes a step. Returns why the lab stops there, if it does.
    pub(crate) fn make(&mut self, alloc: Global, step: &Step) -> Result<Option<Stopped>, AllocError>
        requires stands { BenchStands self.old }
        ensures { IfOk result (λ stopped. StandsOnBench (step_done step.now (bench_stand self.old)) stopped self.new) }
    {
        let text = Bytes::from_slice(alloc, step.text.as_slice())?;
        self.said.push(Said::Begins {
            line: step.line,
            text,
        })?;
        self.chip.turn_to(Rank::of(step.core.number()));
        match &step.action {
            Action::Take { register, expect } => {
                self.take(step.line, step.core, *register, *expect)
            }
            Action::Free { register } => self.free(step.line, step.core, *register),
            Action::WriteWord { .. }
            | Action::WriteLine { .. }
            | Action::ReadWord { .. }
            | Action::ReadLine { .. }
            | Action::Flush
            | Action::Invalidate
            | Action::Put { .. }
            | Action::Get { .. }
            | Action::Load { .. }
            | Action::Store { .. }
            | Action::Print => self.act(step.line, step.core, &step.action),
        }
    }

    /// The core that runs does an action. (`take` and `free` read registers.)
    fn act(
        &mut self,
        line: u32,
        own: CoreId,
        action: &Action,
    ) -> Result<Option<Stopped>, AllocError>
        requires stands { BenchStands self.old }
        requires turn { self.old.chip.rank ≡ own }
        requires below { own < 48 }
        ensures { IfOk result (λ stopped. StandsOnBench (core_done line own action.now (bench_stand self.old)) stopped self.new) }
    {
        let core = &mut self.cores[own.number() as usize];
        act(core, &mut self.chip, &mut self.said, line, action)
    }
}
