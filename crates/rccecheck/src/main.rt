//! `rccecheck`: says which messages of a script come, and who waits for whom where it does not finish.
#![tactic(auto)]

use check_program::rccecheck;
use rcce_io::{HostFiles, StdSink};
use rcce_words::arguments;
use std::process::ExitCode;

fn main(rt: HostRuntime) -> ExitCode {
    let words = arguments(&rt);
    let mut files = HostFiles::new(rt);
    let mut out = StdSink::out(&rt);
    let mut err = StdSink::err(&rt);
    let status = rccecheck(rt.alloc(), words.as_slice(), &mut files, &mut out, &mut err);
    ExitCode::from(status.number())
}
