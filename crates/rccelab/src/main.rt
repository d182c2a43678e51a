//! `rccelab`: runs the steps of a lab, raw accesses of several cores, in the order of its file.
#![tactic(auto)]

use lab_program::rccelab;
use rcce_io::{HostFiles, StdSink};
use rcce_words::arguments;
use std::process::ExitCode;

fn main(rt: HostRuntime) -> ExitCode {
    let words = arguments(&rt);
    let mut files = HostFiles::new(rt);
    let mut out = StdSink::out(&rt);
    let mut err = StdSink::err(&rt);
    let mut left = None;
    let status = rccelab(
        rt.alloc(),
        words.as_slice(),
        &mut files,
        &mut out,
        &mut err,
        &mut left,
    );
    ExitCode::from(status.number())
}
