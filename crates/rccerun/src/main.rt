//! `rccerun`: runs a script of messages between units of execution, and prints what they print.
#![tactic(auto)]

use chip_run::Open;
use rcce_io::{HostFiles, StdSink};
use rcce_words::arguments;
use run_program::rccerun;
use scc_mesh::Chip;
use std::process::ExitCode;

fn main(rt: HostRuntime) -> ExitCode {
    let words = arguments(&rt);
    let mut files = HostFiles::new(rt);
    let mut out = StdSink::out(&rt);
    let mut err = StdSink::err(&rt);
    let mut chip = Chip::blank();
    let status = rccerun(
        &rt,
        rt.alloc(),
        words.as_slice(),
        &mut files,
        &mut out,
        &mut err,
        &mut chip,
        &Open,
    );
    ExitCode::from(status.number())
}
