//! The run of a lab.

ghost use Rattle.std.specs.Prelude.{IfOk};
ghost use Rattle.lab_plain.specs.Meaning.{lab_done};
ghost use Rattle.lab_run.specs.Benches.{BenchStands, bench_stand};
ghost use Rattle.lab_run.specs.Stands.{HasDoneLab};

use crate::bench::Bench;
use crate::evictor::Named;
use chip_memory::TurnChip;
use lab_plain::{Said, Stopped};
use lab_reader::Step;
use put_get::Core;
use std::alloc::{AllocError, Global};

/// What a lab leaves: its chip, with all events that its cores made in order, and its cores.
#[derive(Drop)]
pub struct LabLeft {
    pub chip: TurnChip,
    pub cores: Vec<Core<Named>>,
}

/// What a lab printed, why it stopped, if it did, and what it leaves.
#[derive(Drop)]
pub struct LabRun {
    pub said: Vec<Said>,
    pub stopped: Option<Stopped>,
    pub left: LabLeft,
}

impl Bench {
    /// The run that ends in this bench.
    fn into_run(self, stopped: Option<Stopped>) -> LabRun
        requires stands { BenchStands self }
        ensures { HasDoneLab (record { stand = bench_stand self; stop = stopped }) result }
    {
        self.chip.tells();
        LabRun {
            said: self.said,
            stopped,
            left: LabLeft {
                chip: self.chip,
                cores: self.cores,
            },
        }
    }
}

/// Runs the steps of a lab one after the other, until one stops it.
pub fn run_lab(alloc: Global, steps: &[Step]) -> Result<LabRun, AllocError>
    // What was printed and why it stopped equal the lab's meaning, and the chip made each access that was printed.
    ensures { IfOk result (HasDoneLab (lab_done steps.now)) }
{
    let mut bench = Bench::new(alloc)?;
    for step in steps {
        let stopped = bench.make(alloc, step)?;
        if stopped.is_some() {
            return Ok(bench.into_run(stopped));
        }
    }
    Ok(bench.into_run(None))
}
