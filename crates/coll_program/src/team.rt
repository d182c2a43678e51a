//! The ranks of a run before their first turns, and the setup of its chip.

ghost use Rattle.std.specs.Prelude.{◌≡◌, ◌≤◌, ◌<◌, ◌^◌, IfOk};
ghost use Rattle.coll_program.specs.Jobs.{handed_byte, coll_setup_of, src_of};
ghost use Rattle.coll_program.specs.Runs.{IsTeamOf};

use crate::command::Job;
use coll_more::{More, src_len};
use coll_run::{Member, join};
use line_cache::Never;
use rcce_words::default_hosts;
use scc_base::{Layout, Rank, Setup, world_alone};
use std::alloc::{AllocError, Global};

/// Byte i of what a rank hands in.
fn byte_of(more: More, rank: Rank, len: u32, i: usize) -> u8
    requires some { 1 ≤ len }
    requires few { i < 2 ^ 32 }
    ensures gives { result ≡ handed_byte more rank len i }
{
    let rank = rank.number() as usize;
    let len = len as usize;
    match more {
        More::Gather | More::Allgather => ((rank + i) % 251) as u8,
        More::Scatter => (i % 251) as u8,
        More::Alltoall => ((7 * rank + 3 * (i / len) + i % len) % 251) as u8,
    }
}

/// What a rank hands in.
fn src_of(alloc: Global, job: &Job, rank: Rank) -> Result<Vec<u8>, AllocError>
    requires few { job.now.nue ≤ 48 }
    requires short { job.now.len ≤ 1024 }
    ensures gives { IfOk result (λ src. src.items ≡ src_of job.now rank) }
{
    let given = src_len(job.more, rank, job.nue, job.len);
    let mut src = Vec::with_capacity(alloc, given)?;
    for i in 0..given {
        src.push(byte_of(job.more, rank, job.len, i))?;
    }
    Ok(src)
}

/// The ranks of a run before their first turns, with their bytes.
pub fn team_of(alloc: Global, job: &Job) -> Result<Vec<Member<Never>>, AllocError>
    requires few { job.now.nue ≤ 48 }
    requires short { job.now.len ≤ 1024 }
    ensures gives { IfOk result (λ team. IsTeamOf job.now team.items) }
{
    let mut team = Vec::with_capacity(alloc, job.nue as usize)?;
    for number in 0..job.nue {
        let src = src_of(alloc, job, Rank::of(number))?;
        join(alloc, &mut team, job.nue, Never, job.more, job.len, src)?;
    }
    Ok(team)
}

/// The setup of a run: rank r on core r, with line flags.
pub fn setup_of(nue: u8) -> Setup
    requires some { 1 ≤ nue }
    requires most { nue ≤ 48 }
    ensures gives { result ≡ coll_setup_of nue }
{
    let Some(setup) = Setup::new(nue, Layout::lines(), default_hosts(), world_alone()) else {
        unreachable!()
    };
    setup
}
