//! `rccecoll`: runs one gather, scatter, allgather or alltoall over the chip.
#![tactic(auto)]

use coll_program::rccecoll;
use rcce_io::StdSink;
use rcce_words::arguments;
use scc_mesh::Chip;
use std::process::ExitCode;

fn main(rt: HostRuntime) -> ExitCode {
    let words = arguments(&rt);
    let mut out = StdSink::out(&rt);
    let mut err = StdSink::err(&rt);
    let mut chip = Chip::blank();
    let status = rccecoll(rt.alloc(), words.as_slice(), &mut out, &mut err, &mut chip);
    ExitCode::from(status.number())
}
