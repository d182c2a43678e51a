//! `rcceaudit`: tells whether the calls of a log are legal, and writes the log of a run.
#![tactic(auto)]

use audit_program::rcceaudit;
use rcce_io::{HostFiles, StdSink};
use rcce_words::arguments;
use scc_mesh::Chip;
use std::process::ExitCode;

fn main(rt: HostRuntime) -> ExitCode {
    let words = arguments(&rt);
    let mut files = HostFiles::new(rt);
    let mut out = StdSink::out(&rt);
    let mut err = StdSink::err(&rt);
    let mut chip = Chip::blank();
    let status = rcceaudit(
        rt.alloc(),
        words.as_slice(),
        &mut files,
        &mut out,
        &mut err,
        &mut chip,
    );
    ExitCode::from(status.number())
}
