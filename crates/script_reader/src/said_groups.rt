//! Statements on a communicator, by their words.

ghost use Rattle.std.specs.Prelude.{◌≡◌, map};
ghost use Rattle.script_reader.specs.Said.{allreduce_words, reduce_words, bcast_words, allreduce_said, barrier_said, bcast_said, parent_split_said, reduce_said, split_said, world_split_said};

use crate::said::{Collective, Said};
use crate::words::{
    colour_said, name_said, number_said, of_said, operation_said, parts_said, type_said,
};
use script_rules::{FaultKind, Version};

pub(crate) fn barrier_said(words: &[&[u8]]) -> Result<Said, FaultKind>
    ensures { result ≡ barrier_said (map (λ word. word.now) words.now) }
{
    match words {
        [] => Ok(Said::Collective(Collective::Barrier { comm: 0 })),
        [comm] => {
            let comm = number_said(comm)?;
            Ok(Said::Collective(Collective::Barrier { comm }))
        }
        _ => Err(FaultKind::WrongCount),
    }
}

fn world_split_said(comm: &[u8], how: &[u8], parts: &[u8]) -> Result<Said, FaultKind>
    ensures { result ≡ world_split_said comm.now how.now parts.now }
{
    let colour = colour_said(how)?;
    let comm = number_said(comm)?;
    let parts = parts_said(parts)?;
    Ok(Said::Collective(Collective::Split {
        comm,
        parent: 0,
        colour,
        parts,
    }))
}

fn parent_split_said(
    comm: &[u8],
    of: &[u8],
    parent: &[u8],
    how: &[u8],
    parts: &[u8],
) -> Result<Said, FaultKind>
    ensures { result ≡ parent_split_said comm.now of.now parent.now how.now parts.now }
{
    of_said(of)?;
    let colour = colour_said(how)?;
    let comm = number_said(comm)?;
    let parent = number_said(parent)?;
    let parts = parts_said(parts)?;
    Ok(Said::Collective(Collective::Split {
        comm,
        parent,
        colour,
        parts,
    }))
}

pub(crate) fn split_said(version: Version, words: &[&[u8]]) -> Result<Said, FaultKind>
    ensures { result ≡ split_said version (map (λ word. word.now) words.now) }
{
    match words {
        [comm, how, parts] => world_split_said(comm, how, parts),
        [comm, of, parent, how, parts] => match version {
            Version::One => Err(FaultKind::WrongCount),
            Version::Two => parent_split_said(comm, of, parent, how, parts),
        },
        _ => Err(FaultKind::WrongCount),
    }
}

fn bcast_words(comm: &[u8], root: &[u8], name: &[u8], len: &[u8]) -> Result<Said, FaultKind>
    ensures { result ≡ bcast_words comm.now root.now name.now len.now }
{
    let comm = number_said(comm)?;
    let root = number_said(root)?;
    let len = number_said(len)?;
    let name = name_said(name)?;
    Ok(Said::Collective(Collective::Bcast {
        comm,
        root,
        name,
        len,
    }))
}

pub(crate) fn bcast_said(words: &[&[u8]]) -> Result<Said, FaultKind>
    ensures { result ≡ bcast_said (map (λ word. word.now) words.now) }
{
    match words {
        [comm, root, name, len] => bcast_words(comm, root, name, len),
        _ => Err(FaultKind::WrongCount),
    }
}

fn reduce_words(
    comm: &[u8],
    root: &[u8],
    op: &[u8],
    ty: &[u8],
    dst: &[u8],
    src: &[u8],
) -> Result<Said, FaultKind>
    ensures { result ≡ reduce_words comm.now root.now op.now ty.now dst.now src.now }
{
    let op = operation_said(op)?;
    let ty = type_said(ty)?;
    let comm = number_said(comm)?;
    let root = number_said(root)?;
    let dst = name_said(dst)?;
    let src = name_said(src)?;
    Ok(Said::Collective(Collective::Reduce {
        comm,
        root,
        op,
        ty,
        dst,
        src,
    }))
}

pub(crate) fn reduce_said(words: &[&[u8]]) -> Result<Said, FaultKind>
    ensures { result ≡ reduce_said (map (λ word. word.now) words.now) }
{
    match words {
        [comm, root, op, ty, dst, src] => reduce_words(comm, root, op, ty, dst, src),
        _ => Err(FaultKind::WrongCount),
    }
}

fn allreduce_words(
    comm: &[u8],
    op: &[u8],
    ty: &[u8],
    dst: &[u8],
    src: &[u8],
) -> Result<Said, FaultKind>
    ensures { result ≡ allreduce_words comm.now op.now ty.now dst.now src.now }
{
    let op = operation_said(op)?;
    let ty = type_said(ty)?;
    let comm = number_said(comm)?;
    let dst = name_said(dst)?;
    let src = name_said(src)?;
    Ok(Said::Collective(Collective::Allreduce {
        comm,
        op,
        ty,
        dst,
        src,
    }))
}

pub(crate) fn allreduce_said(words: &[&[u8]]) -> Result<Said, FaultKind>
    ensures { result ≡ allreduce_said (map (λ word. word.now) words.now) }
{
    match words {
        [comm, op, ty, dst, src] => allreduce_words(comm, op, ty, dst, src),
        _ => Err(FaultKind::WrongCount),
    }
}
