//! The six programs by one trait, so that what all of them need is stated once.

ghost use Rattle.std.specs.Thread.{IsSync};

use audit_program::rcceaudit;
use check_program::rccecheck;
use chip_run::Open;
use coll_program::rccecoll;
use lab_program::rccelab;
use mesh_program::rccemesh;
use outcomes::Status;
use rcce_io::{Files, Sink};
use run_program::rccerun;
use scc_mesh::Chip;
use std::alloc::Global;
use std::thread::Threads;

/// A program by its top call, on a new chip if it needs one.
pub trait Program {
    fn run<R: Threads + Sync, F: Files, O: Sink, E: Sink>(
        &self,
        rt: &R,
        alloc: Global,
        words: &[String],
        files: &mut F,
        out: &mut O,
        err: &mut E,
    ) -> Status
        requires { IsSync R.row };
}

/// `rccerun`, whose ranks pass their gate at once.
#[derive(Drop)]
pub struct Launcher;

impl Program for Launcher {
    fn run<R: Threads + Sync, F: Files, O: Sink, E: Sink>(
        &self,
        rt: &R,
        alloc: Global,
        words: &[String],
        files: &mut F,
        out: &mut O,
        err: &mut E,
    ) -> Status {
        let mut chip = Chip::blank();
        rccerun(rt, alloc, words, files, out, err, &mut chip, &Open)
    }
}

/// `rcceaudit`.
#[derive(Drop)]
pub struct Audit;

impl Program for Audit {
    fn run<R: Threads + Sync, F: Files, O: Sink, E: Sink>(
        &self,
        rt: &R,
        alloc: Global,
        words: &[String],
        files: &mut F,
        out: &mut O,
        err: &mut E,
    ) -> Status {
        let _ = rt;
        let mut chip = Chip::blank();
        rcceaudit(alloc, words, files, out, err, &mut chip)
    }
}

/// `rccecoll`, which reads no file.
#[derive(Drop)]
pub struct Collectives;

impl Program for Collectives {
    fn run<R: Threads + Sync, F: Files, O: Sink, E: Sink>(
        &self,
        rt: &R,
        alloc: Global,
        words: &[String],
        files: &mut F,
        out: &mut O,
        err: &mut E,
    ) -> Status {
        let _ = rt;
        let _ = files;
        let mut chip = Chip::blank();
        rccecoll(alloc, words, out, err, &mut chip)
    }
}

/// `rccemesh`.
#[derive(Drop)]
pub struct MeshLoad;

impl Program for MeshLoad {
    fn run<R: Threads + Sync, F: Files, O: Sink, E: Sink>(
        &self,
        rt: &R,
        alloc: Global,
        words: &[String],
        files: &mut F,
        out: &mut O,
        err: &mut E,
    ) -> Status {
        let _ = rt;
        rccemesh(alloc, words, files, out, err)
    }
}

/// `rccecheck`.
#[derive(Drop)]
pub struct WaitCheck;

impl Program for WaitCheck {
    fn run<R: Threads + Sync, F: Files, O: Sink, E: Sink>(
        &self,
        rt: &R,
        alloc: Global,
        words: &[String],
        files: &mut F,
        out: &mut O,
        err: &mut E,
    ) -> Status {
        let _ = rt;
        rccecheck(alloc, words, files, out, err)
    }
}

/// `rccelab`.
#[derive(Drop)]
pub struct Laboratory;

impl Program for Laboratory {
    fn run<R: Threads + Sync, F: Files, O: Sink, E: Sink>(
        &self,
        rt: &R,
        alloc: Global,
        words: &[String],
        files: &mut F,
        out: &mut O,
        err: &mut E,
    ) -> Status {
        let _ = rt;
        let mut left = None;
        rccelab(alloc, words, files, out, err, &mut left)
    }
}
