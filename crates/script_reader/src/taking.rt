//! What a line adds to the lines before it.

ghost use Rattle.std.specs.Prelude.{◌≡◌, ◌<◌, ◌≤◌, IfOk, MatchResult, length, OnOk};
ghost use Rattle.script_reader.specs.Faults.{LineGives};
ghost use Rattle.script_reader.specs.Progress.{after_script_line, after_group, after_local, after_message, after_section, peer_in, rank_said, rule_said, small};
ghost use Rattle.script_reader.specs.Kept.{IsUpTo};
ghost use Rattle.script_rules.specs.Tally.{IsParted, IsPeerWithin};
ghost use Rattle.script_reader.specs.declared.said.Collective.TheVariants.{Allreduce, Bcast, Reduce, Split};
ghost use Rattle.script_reader.specs.declared.said.Section.TheVariants.{Span};
ghost use Rattle.script_rules.specs.Limits.{most_names};

use crate::fault::LineStop;
use crate::reader::{Pair, Reader};
use crate::said::{Collective, Colour, Local, Message, PeerSaid, Said, Section};
use crate::words::Parts;
use groups::{Op, Ty};
use scc_base::{CommRule, Rank};
use script_rules::{FaultKind, Name, OwnStmt, Peer, Stmt, Who};

/// A number as a rank of the run.
fn rank_said(nue: u8, number: u32) -> Result<Rank, FaultKind>
    requires { nue ≤ 48 }
    ensures same { result ≡ rank_said nue number }
    ensures within { IfOk result (λ rank. rank < nue) }
{
    if number >= nue as u32 {
        return Err(FaultKind::RankRange);
    }
    Ok(Rank::of(number as u8))
}

/// The peer that a word names, which must be a rank of the run.
fn peer_in(nue: u8, peer: PeerSaid) -> Result<Peer, FaultKind>
    requires { nue ≤ 48 }
    ensures same { result ≡ peer_in nue peer }
    ensures within { IfOk result (IsPeerWithin nue) }
{
    match peer {
        PeerSaid::Abs(rank) => Ok(Peer::Abs(rank_said(nue, rank)?)),
        PeerSaid::Plus(up) => Ok(Peer::Plus(up)),
        PeerSaid::Minus(down) => Ok(Peer::Minus(down)),
    }
}

/// The number of a communicator, or of a place in a group. Each number above 255 is stored as 255.
fn small(number: u32) -> u8
    ensures { result ≡ small number }
{
    number.min(255) as u8
}

fn rule_said(colour: Colour, parent: u8, parts: Parts) -> CommRule
    ensures same { result ≡ rule_said colour parent parts }
    ensures parted { IsParted result }
{
    let k = parts.count();
    match colour {
        Colour::Mod => CommRule::Mod { parent, k },
        Colour::Div => CommRule::Div { parent, k },
    }
}

/// A section line from one rank to another.
fn take_span(reader: &mut Reader, first: u32, last: u32) -> Result<(), FaultKind>
    ensures gives { MatchResult result (λ _. after_section reader.old (Span first last)
        ≡ Ok reader.new) (λ kind. after_section reader.old (Span first last) ≡ Err kind) }
    ensures names { OnOk result (reader.new.names ≡ reader.old.names) }
    ensures items { OnOk result (reader.new.items ≡ reader.old.items) }
    ensures version { OnOk result (reader.new.version ≡ reader.old.version) }
{
    let first = rank_said(reader.nue(), first)?;
    let last = rank_said(reader.nue(), last)?;
    if last.number() < first.number() {
        return Err(FaultKind::RankRange);
    }
    reader.open_section(Who::Span(first, last))
}

fn take_section(reader: &mut Reader, section: Section) -> Result<(), FaultKind>
    ensures gives { MatchResult result (λ _. after_section reader.old section ≡ Ok reader.new) (λ kind. after_section reader.old section
        ≡ Err kind) }
    ensures names { OnOk result (reader.new.names ≡ reader.old.names) }
    ensures items { OnOk result (reader.new.items ≡ reader.old.items) }
    ensures version { OnOk result (reader.new.version ≡ reader.old.version) }
{
    match section {
        Section::All => reader.open_section(Who::All),
        Section::Even => reader.open_section(Who::Even),
        Section::Odd => reader.open_section(Who::Odd),
        Section::Span { first, last } => take_span(reader, first, last),
    }
}

fn take_local(reader: &mut Reader, line: u32, local: Local) -> Result<(), LineStop>
    requires few { length reader.old.names ≤ most_names }
    requires counted { length reader.old.items < line }
    ensures gives { LineGives (λ _. reader.new) result (after_local line reader.old local) }
    ensures kept { OnOk result (IsUpTo reader.old.version line reader.new) }
{
    match local {
        Local::Bytes { name, bytes } => {
            let reg = reader.register(name)?;
            reader.place(line, Stmt::Bytes { reg, bytes })
        }
        Local::Fill { name, len, start } => {
            let reg = reader.register(name)?;
            reader.place(line, Stmt::Fill { reg, len, start })
        }
        Local::RankOf { name, ty } => {
            let reg = reader.register(name)?;
            reader.place(line, Stmt::RankOf { reg, ty })
        }
        Local::Apply { op, ty, dst, src } => {
            let Pair { dst, src } = reader.registers(dst, src)?;
            reader.place(line, Stmt::Own(OwnStmt::Apply { op, ty, dst, src }))
        }
        Local::Print { name, form } => {
            let reg = reader.register(name)?;
            reader.place(line, Stmt::Own(OwnStmt::Print { reg, form }))
        }
    }
}

fn take_message(reader: &mut Reader, line: u32, message: Message) -> Result<(), LineStop>
    requires few { length reader.old.names ≤ most_names }
    requires counted { length reader.old.items < line }
    ensures gives { LineGives (λ _. reader.new) result (after_message line reader.old message) }
    ensures kept { OnOk result (IsUpTo reader.old.version line reader.new) }
{
    match message {
        Message::Send { peer, name } => {
            let peer = peer_in(reader.nue(), peer)?;
            let reg = reader.register(name)?;
            reader.place(line, Stmt::Send { peer, reg })
        }
        Message::Post { peer, name } => {
            let peer = peer_in(reader.nue(), peer)?;
            let reg = reader.register(name)?;
            reader.place(line, Stmt::Post { peer, reg })
        }
        Message::Recv { peer, name, len } => {
            let peer = peer_in(reader.nue(), peer)?;
            let reg = reader.register(name)?;
            reader.place(line, Stmt::Recv { peer, reg, len })
        }
    }
}

fn take_reduce(
    reader: &mut Reader,
    line: u32,
    comm: u32,
    root: u32,
    op: Op,
    ty: Ty,
    dst: Name,
    src: Name,
) -> Result<(), LineStop>
    requires few { length reader.old.names ≤ most_names }
    requires counted { length reader.old.items < line }
    ensures gives { LineGives (λ _. reader.new) result (after_group line reader.old (Reduce comm root op ty dst src)) }
    ensures kept { OnOk result (IsUpTo reader.old.version line reader.new) }
{
    let comm = small(comm);
    let root = small(root);
    let Pair { dst, src } = reader.registers(dst, src)?;
    reader.place(
        line,
        Stmt::Reduce {
            comm,
            root,
            op,
            ty,
            dst,
            src,
        },
    )
}

fn take_allreduce(
    reader: &mut Reader,
    line: u32,
    comm: u32,
    op: Op,
    ty: Ty,
    dst: Name,
    src: Name,
) -> Result<(), LineStop>
    requires few { length reader.old.names ≤ most_names }
    requires counted { length reader.old.items < line }
    ensures gives { LineGives (λ _. reader.new) result (after_group line reader.old (Allreduce comm op ty dst src)) }
    ensures kept { OnOk result (IsUpTo reader.old.version line reader.new) }
{
    let comm = small(comm);
    let Pair { dst, src } = reader.registers(dst, src)?;
    reader.place(
        line,
        Stmt::Allreduce {
            comm,
            op,
            ty,
            dst,
            src,
        },
    )
}

fn take_bcast(
    reader: &mut Reader,
    line: u32,
    comm: u32,
    root: u32,
    name: Name,
    len: u32,
) -> Result<(), LineStop>
    requires few { length reader.old.names ≤ most_names }
    requires counted { length reader.old.items < line }
    ensures gives { LineGives (λ _. reader.new) result (after_group line reader.old (Bcast comm root name len)) }
    ensures kept { OnOk result (IsUpTo reader.old.version line reader.new) }
{
    let comm = small(comm);
    let root = small(root);
    let reg = reader.register(name)?;
    reader.place(
        line,
        Stmt::Bcast {
            comm,
            root,
            reg,
            len,
        },
    )
}

fn take_split(
    reader: &mut Reader,
    line: u32,
    comm: u32,
    parent: u32,
    colour: Colour,
    parts: Parts,
) -> Result<(), LineStop>
    requires few { length reader.old.names ≤ most_names }
    requires counted { length reader.old.items < line }
    ensures gives { LineGives (λ _. reader.new) result (after_group line reader.old (Split comm parent colour parts)) }
    ensures kept { OnOk result (IsUpTo reader.old.version line reader.new) }
{
    let comm = small(comm);
    let rule = rule_said(colour, small(parent), parts);
    reader.place(line, Stmt::Split { comm, rule })
}

fn take_group(reader: &mut Reader, line: u32, group: Collective) -> Result<(), LineStop>
    requires few { length reader.old.names ≤ most_names }
    requires counted { length reader.old.items < line }
    ensures gives { LineGives (λ _. reader.new) result (after_group line reader.old group) }
    ensures kept { OnOk result (IsUpTo reader.old.version line reader.new) }
{
    match group {
        Collective::Barrier { comm } => {
            let comm = small(comm);
            reader.place(line, Stmt::Barrier { comm })
        }
        Collective::Split {
            comm,
            parent,
            colour,
            parts,
        } => take_split(reader, line, comm, parent, colour, parts),
        Collective::Bcast {
            comm,
            root,
            name,
            len,
        } => take_bcast(reader, line, comm, root, name, len),
        Collective::Reduce {
            comm,
            root,
            op,
            ty,
            dst,
            src,
        } => take_reduce(reader, line, comm, root, op, ty, dst, src),
        Collective::Allreduce {
            comm,
            op,
            ty,
            dst,
            src,
        } => take_allreduce(reader, line, comm, op, ty, dst, src),
    }
}

/// Adds what a line means to what was read.
pub(crate) fn take(reader: &mut Reader, line: u32, said: Said) -> Result<(), LineStop>
    requires few { length reader.old.names ≤ most_names }
    requires counted { length reader.old.items < line }
    ensures gives { LineGives (λ _. reader.new) result (after_script_line line reader.old said) }
    ensures kept { OnOk result (IsUpTo reader.old.version line reader.new) }
{
    match said {
        Said::Version => Ok(()),
        Said::Section(section) => Ok(take_section(reader, section)?),
        Said::Local(local) => take_local(reader, line, local),
        Said::Message(message) => take_message(reader, line, message),
        Said::Collective(group) => take_group(reader, line, group),
        Said::Repeat { times } => reader.place(line, Stmt::Repeat { times, end: 0 }),
        Said::End => {
            let start = reader.innermost();
            reader.place(line, Stmt::End { start })
        }
    }
}
