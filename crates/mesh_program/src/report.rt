//! The load of the mesh by a script, and its lines.

ghost use Rattle.std.specs.Prelude.{IfOk};
ghost use Rattle.script_plain.specs.Matches.{plain_matches};
ghost use Rattle.mesh_program.specs.Reports.{IsReportOf};

use crate::lines::write_mesh;
use mesh_load::{Load, load};
use rcce_io::{Sink, WriteFault, write_all};
use scc_base::CoreId;
use script_plain::{have_finished, plain_history};
use script_rules::Scripts;
use std::alloc::{AllocError, Global};

/// Whether each rank has finished, and how many lines each link carries.
#[derive(Drop)]
pub struct Report {
    pub finished: bool,
    pub load: Load,
}

impl outcomes::Report for Report {
    ghost use Rattle.mesh_program.specs.Reports.{mesh_report_ran};

    ghost ran = { mesh_report_ran };

    fn is_finished(&self) -> bool {
        self.finished
    }

    fn write_out<S: Sink>(&self, sink: &mut S) -> Result<(), WriteFault> {
        write_mesh(sink, &self.load)
    }

    fn write_err<S: Sink>(&self, sink: &mut S) -> Result<(), WriteFault> {
        if self.finished {
            return Ok(());
        }
        write_all(sink, b"rccemesh: not finished\n")
    }
}

/// What the messages of a script come to, with the core of each rank.
pub fn report_of(alloc: Global, at: &[CoreId; 48], script: &Scripts) -> Result<Report, AllocError>
    ensures { IfOk result (λ report. IsReportOf at.now script.now report) }
{
    let history = plain_history(alloc, script)?;
    Ok(Report {
        finished: have_finished(&history.end, script),
        load: load(&history.matches, at),
    })
}
