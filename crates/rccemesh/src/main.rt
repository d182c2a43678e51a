//! `rccemesh`: says how many lines each link of the mesh carries for the messages of a script.
#![tactic(auto)]

use mesh_program::rccemesh;
use rcce_io::{HostFiles, StdSink};
use rcce_words::arguments;
use std::process::ExitCode;

fn main(rt: HostRuntime) -> ExitCode {
    let words = arguments(&rt);
    let mut files = HostFiles::new(rt);
    let mut out = StdSink::out(&rt);
    let mut err = StdSink::err(&rt);
    let status = rccemesh(rt.alloc(), words.as_slice(), &mut files, &mut out, &mut err);
    ExitCode::from(status.number())
}
