//! `rccetrace`: tells whether a trace of accesses to shared words is legal, or runs a script and writes its trace.
#![tactic(auto)]

use rcce_io::{HostFiles, StdSink};
use rcce_words::arguments;
use scc_mesh::Chip;
use std::process::ExitCode;
use trace_commands::rccetrace;

fn main(rt: HostRuntime) -> ExitCode {
    let words = arguments(&rt);
    let mut files = HostFiles::new(rt);
    let mut out = StdSink::out(&rt);
    let mut err = StdSink::err(&rt);
    let mut chip = Chip::blank();
    let end = rccetrace(
        rt.alloc(),
        words.as_slice(),
        &mut files,
        &mut out,
        &mut err,
        &mut chip,
    );
    ExitCode::from(end.number())
}
