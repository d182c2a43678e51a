//! The lines of a log, each by its words.

ghost use Rattle.std.specs.Prelude.{◌≡◌, ◌<◌, ◌≤◌, IfOk, IfSome, length, map, option_map};
ghost use Rattle.scc_proto.specs.Words.{is_present_rule};
ghost use Rattle.rcce_audit.specs.Grammar.{begins_comm, log_bytes_said, call_named, call_said, log_barrier_said, comm_said, ends_said, log_head_said, long_said, message_said, nue_of, log_rank_said, rule_named, short_said, log_split_said};
ghost use Rattle.rcce_audit.specs.Views.{data_of, ranked_of};

use crate::logs::LogCall;
use crate::words::{hex_said, kind_said, range_said};
use scc_base::{CommRule, Head, PostHead, Rank};
use std::alloc::{AllocError, Global};
use texts::Bytes;

/// A call with its rank.
#[derive(Drop)]
pub(crate) struct RankCall {
    pub(crate) rank: Rank,
    pub(crate) call: LogCall,
}

/// A communicator that is a split, with its rule.
#[derive(Clone, Copy)]
pub struct CommSplit {
    pub comm: u8,
    pub rule: CommRule,
}

/// The two ranks of a message: the caller's and its peer's.
#[derive(Clone, Copy)]
pub(crate) struct EndRanks {
    pub(crate) rank: Rank,
    pub(crate) peer: Rank,
}

/// A rank of the run.
pub fn rank_said(word: &[u8], nue: u8) -> Option<Rank>
    requires some { 1 ≤ nue }
    requires most { nue ≤ 48 }
    ensures { result ≡ log_rank_said nue word.now }
{
    match range_said(word, 0, nue as u32 - 1) {
        Some(n) => Some(Rank::of(n as u8)),
        None => None,
    }
}

fn ends_said(nue: u8, rank: &[u8], peer: &[u8]) -> Option<EndRanks>
    requires some { 1 ≤ nue }
    requires most { nue ≤ 48 }
    ensures { result ≡ ends_said nue rank.now peer.now }
{
    let rank = rank_said(rank, nue)?;
    let peer = rank_said(peer, nue)?;
    if rank == peer {
        None
    } else {
        Some(EndRanks { rank, peer })
    }
}

fn head_said(kind: &[u8], comm: &[u8], len: &[u8]) -> Option<Head>
    ensures { result ≡ log_head_said kind.now comm.now len.now }
{
    let kind = kind_said(kind)?;
    let comm = range_said(comm, 0, 15)?;
    let len = range_said(len, 0, Head::MOST)?;
    Head::new(kind, comm as u8, len)
}

fn bytes_said(alloc: Global, len: u32, word: &[u8]) -> Result<Option<Bytes>, AllocError>
    ensures { IfOk result (λ said. said ≡ log_bytes_said len word.now) }
{
    match hex_said(alloc, word)? {
        Some(bytes) => {
            if bytes.as_slice().len() == len as usize {
                Ok(Some(bytes))
            } else {
                Ok(None)
            }
        }
        None => Ok(None),
    }
}

fn call_named(verb: &[u8], peer: Rank, head: Head, bytes: Bytes) -> Option<LogCall>
    ensures { option_map data_of result ≡ call_named verb.now peer head bytes }
{
    if verb == b"send".as_slice() {
        Some(LogCall::Send {
            to: peer,
            head,
            bytes,
        })
    } else if verb == b"recv".as_slice() {
        Some(LogCall::Recv {
            from: peer,
            head,
            bytes,
        })
    } else if verb == b"post".as_slice() {
        match PostHead::new(head) {
            Some(head) => Some(LogCall::Post {
                to: peer,
                head,
                bytes,
            }),
            None => None,
        }
    } else {
        None
    }
}

fn message_said(
    alloc: Global,
    ends: EndRanks,
    head: Head,
    verb: &[u8],
    hex: &[u8],
) -> Result<Option<RankCall>, AllocError>
    ensures { IfOk result (λ said. option_map ranked_of said ≡ message_said ends head verb.now hex.now) }
{
    let Some(bytes) = bytes_said(alloc, head.len(), hex)? else {
        return Ok(None);
    };
    match call_named(verb, ends.peer, head, bytes) {
        Some(call) => Ok(Some(RankCall {
            rank: ends.rank,
            call,
        })),
        None => Ok(None),
    }
}

fn is_present(rule: CommRule) -> bool
    ensures { result ≡ is_present_rule rule }
{
    rule != CommRule::Absent
}

fn barrier_said(
    nue: u8,
    comms: &[CommRule; 16],
    rank: &[u8],
    verb: &[u8],
    comm: &[u8],
) -> Option<RankCall>
    requires some { 1 ≤ nue }
    requires most { nue ≤ 48 }
    ensures { option_map ranked_of result ≡ log_barrier_said nue comms.now rank.now verb.now comm.now }
{
    let rank = rank_said(rank, nue)?;
    let comm = range_said(comm, 0, 15)?;
    if verb == b"bar".as_slice() && is_present(comms[comm as usize]) {
        let comm = comm as u8;
        Some(RankCall {
            rank,
            call: LogCall::Bar { comm },
        })
    } else {
        None
    }
}

fn short_said(nue: u8, comms: &[CommRule; 16], words: &[&[u8]]) -> Option<RankCall>
    requires some { 1 ≤ nue }
    requires most { nue ≤ 48 }
    ensures { option_map ranked_of result ≡ short_said nue comms.now (map (λ word. word.now) words.now) }
{
    match words {
        [rank, verb, comm] => barrier_said(nue, comms, rank, verb, comm),
        _ => None,
    }
}

fn long_said(alloc: Global, nue: u8, words: &[&[u8]]) -> Result<Option<RankCall>, AllocError>
    requires seven { length words.now ≡ 7 }
    requires some { 1 ≤ nue }
    requires most { nue ≤ 48 }
    ensures { IfOk result (λ said. option_map ranked_of said ≡ long_said nue (map (λ word. word.now) words.now)) }
{
    match words {
        [rank, verb, peer, kind, comm, len, hex] => {
            let Some(ends) = ends_said(nue, rank, peer) else {
                return Ok(None);
            };
            let Some(head) = head_said(kind, comm, len) else {
                return Ok(None);
            };
            message_said(alloc, ends, head, verb, hex)
        }
        _ => unreachable!(),
    }
}

/// The call of a line, by its words.
pub(crate) fn call_said(
    alloc: Global,
    nue: u8,
    comms: &[CommRule; 16],
    words: &[&[u8]],
) -> Result<Option<RankCall>, AllocError>
    requires some { 1 ≤ nue }
    requires most { nue ≤ 48 }
    ensures { IfOk result (λ said. option_map ranked_of said ≡ call_said nue comms.now (map (λ word. word.now) words.now)) }
{
    if words.len() == 7 {
        long_said(alloc, nue, words)
    } else {
        Ok(short_said(nue, comms, words))
    }
}

fn rule_named(how: &[u8], parent: u8, k: u8) -> Option<CommRule>
    ensures { result ≡ rule_named how.now parent k }
{
    if how == b"mod".as_slice() {
        Some(CommRule::Mod { parent, k })
    } else if how == b"div".as_slice() {
        Some(CommRule::Div { parent, k })
    } else {
        None
    }
}

fn split_said(
    last: u8,
    comms: &[CommRule; 16],
    word: &[u8],
    comm: &[u8],
    parent: &[u8],
    how: &[u8],
    k: &[u8],
) -> Option<CommSplit>
    requires { last < 16 }
    ensures gives { result ≡ log_split_said last comms.now word.now comm.now parent.now how.now k.now }
    ensures below { IfSome result (λ split. split.comm < 16) }
{
    let comm = range_said(comm, last as u32 + 1, 15)?;
    let parent = range_said(parent, 0, 15)?;
    let k = range_said(k, 1, 48)?;
    let rule = rule_named(how, parent as u8, k as u8)?;
    if word == b"comm".as_slice() && is_present(comms[parent as usize]) {
        let comm = comm as u8;
        Some(CommSplit { comm, rule })
    } else {
        None
    }
}

/// The communicator of a line, by its words.
pub fn comm_said(last: u8, comms: &[CommRule; 16], words: &[&[u8]]) -> Option<CommSplit>
    requires { last < 16 }
    ensures gives { result ≡ comm_said last comms.now (map (λ word. word.now) words.now) }
    ensures below { IfSome result (λ split. split.comm < 16) }
{
    match words {
        [word, comm, parent, how, k] => split_said(last, comms, word, comm, parent, how, k),
        _ => None,
    }
}

/// Whether a line begins with `comm`.
pub fn begins_comm(line: &[u8]) -> bool
    ensures { result ≡ begins_comm line.now }
{
    let front = &line[..line.len().min(4)];
    front == b"comm".as_slice()
}

/// The number of ranks, by the words of the first line.
pub(crate) fn nue_of(words: &[&[u8]]) -> Option<u8>
    ensures gives { result ≡ nue_of (map (λ word. word.now) words.now) }
    ensures some { IfSome result (λ nue. 1 ≤ nue) }
    ensures most { IfSome result (λ nue. nue ≤ 48) }
{
    match words {
        [first, second, nue] => {
            let nue = range_said(nue, 1, 48)?;
            if *first == b"rcce".as_slice() && *second == b"log".as_slice() {
                Some(nue as u8)
            } else {
                None
            }
        }
        _ => None,
    }
}
