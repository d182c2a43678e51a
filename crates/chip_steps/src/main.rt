//! `chip_steps KIND COUNT` makes COUNT accesses to the shared words and prints their number. KIND is table-load, table-store, port-load,
//! port-store, seat-load or seat-store.
#![tactic(auto)]

use std::{env, io};
use steps_program::{job_of, make};

fn main(rt: HostRuntime) -> io::Result<()> {
    let words = match env::args(&rt) {
        Ok(args) => args
            .skip(1)
            .collect(rt.alloc())
            .unwrap_or(Vec::new(rt.alloc())),
        Err(_) => Vec::new(rt.alloc()),
    };
    match job_of(words.as_slice()) {
        None => println!(rt; "chip_steps KIND COUNT")?,
        Some(job) => match make(rt.alloc(), &job) {
            Ok(_) => println!(rt; "{}", job.count)?,
            Err(_) => println!(rt; "no memory")?,
        },
    }
    Ok(())
}
