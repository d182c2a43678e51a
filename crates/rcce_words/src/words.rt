//! The words behind a program's name, as the system has them.

use std::alloc::AllocGlobal;
use std::env::{self, Env};

/// The words behind the program's name. Where one of them cannot be read as text, or there is no memory for them, there are no
/// words at all.
pub fn arguments<R: Env + AllocGlobal>(rt: &R) -> Vec<String> {
    match env::args(rt) {
        Ok(args) => args
            .skip(1)
            .collect(rt.alloc())
            .unwrap_or(Vec::new(rt.alloc())),
        Err(_) => Vec::new(rt.alloc()),
    }
}
