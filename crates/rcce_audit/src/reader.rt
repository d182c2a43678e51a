//! A reader of the lines of a log.

ghost use Rattle.std.specs.Prelude.{◌≡◌, ◌<◌, ◌≤◌, vec_len};

use crate::lines::{CommSplit, RankCall, begins_comm, call_said, comm_said};
use crate::lists::{no_calls, push_call};
use crate::logs::LogCall;
use crate::words::words;
use scc_base::{CommRule, Rank, world_alone};
use std::alloc::{AllocError, Global};

/// A log of which some lines are read.
#[derive(Drop)]
pub(crate) struct Reader {
    pub(crate) nue: u8,
    pub(crate) comms: [CommRule; 16],
    pub(crate) lists: Vec<Vec<LogCall>>,
    comm: u8,
    rank: Option<Rank>,
    ghost some_ranks: { 1 ≤ nue },
    ghost ranks_within: { nue ≤ 48 },
    ghost comm_below: { comm < 16 },
    ghost ranks: { vec_len lists ≡ 48 },
}

impl Reader {
    ghost use Rattle.std.specs.Prelude.{◌≡◌, IfOk, None, Some, map};
    ghost use Rattle.rcce_audit.specs.Grammar.{TakesLine, add_call, is_in_order, reading_start, take_call, take_comm, with_comm};
    ghost use Rattle.rcce_audit.specs.Reading.{reading_of};
    ghost use Rattle.rcce_audit.specs.Views.{ranked_of};
    ghost use Rattle.std.specs.Bool.{MatchBool};

    /// The first line is read.
    pub(crate) fn new(alloc: Global, nue: u8) -> Result<Reader, AllocError>
        requires some { 1 ≤ nue }
        requires most { nue ≤ 48 }
        ensures { IfOk result (λ reader. reading_of reader ≡ reading_start nue) }
    {
        let lists = no_calls(alloc)?;
        Ok(Reader {
            nue,
            comms: world_alone(),
            lists,
            comm: 0,
            rank: None,
        })
    }

    /// Takes a communicator, if no call stands before it.
    fn add_comm(&mut self, split: CommSplit) -> bool
        requires { split.comm < 16 }
        ensures { MatchBool result
            (with_comm (reading_of self.old) self.old.rank split ≡ Some (reading_of self.new))
            (with_comm (reading_of self.old) self.old.rank split ≡ None) }
    {
        if self.rank.is_some() {
            return false;
        }
        self.comms[split.comm as usize] = split.rule;
        self.comm = split.comm;
        true
    }

    /// Whether a call of this rank stands in rank order.
    fn is_in_order(&self, rank: Rank) -> bool
        ensures { result ≡ is_in_order self.now.rank rank }
    {
        match self.rank {
            Some(last) => last <= rank,
            None => true,
        }
    }

    /// Takes a call, if it stands in rank order.
    fn add_call(&mut self, ranked: RankCall) -> Result<bool, AllocError>
        ensures { IfOk result (λ taken. MatchBool taken
            (add_call (reading_of self.old) (ranked_of ranked) ≡ Some (reading_of self.new))
            (add_call (reading_of self.old) (ranked_of ranked) ≡ None)) }
    {
        if !self.is_in_order(ranked.rank) {
            return Ok(false);
        }
        let RankCall { rank, call } = ranked;
        push_call(&mut self.lists, rank.number() as usize, call)?;
        self.rank = Some(rank);
        Ok(true)
    }

    fn read_comm(&mut self, words: &[&[u8]]) -> bool
        ensures { MatchBool result
            (take_comm (reading_of self.old) (map (λ word. word.now) words.now) ≡ Some (reading_of self.new))
            (take_comm (reading_of self.old) (map (λ word. word.now) words.now) ≡ None) }
    {
        match comm_said(self.comm, &self.comms, words) {
            Some(split) => self.add_comm(split),
            None => false,
        }
    }

    fn read_call(&mut self, alloc: Global, words: &[&[u8]]) -> Result<bool, AllocError>
        ensures { IfOk result (λ taken. MatchBool taken
            (take_call (reading_of self.old) (map (λ word. word.now) words.now) ≡ Some (reading_of self.new))
            (take_call (reading_of self.old) (map (λ word. word.now) words.now) ≡ None)) }
    {
        match call_said(alloc, self.nue, &self.comms, words)? {
            Some(ranked) => self.add_call(ranked),
            None => Ok(false),
        }
    }

    /// Takes a line, if it is of its form and in its place.
    pub(crate) fn read_line(&mut self, alloc: Global, line: &[u8]) -> Result<bool, AllocError>
        ensures { IfOk result (λ taken. TakesLine (reading_of self.old) line.now (reading_of self.new) taken) }
    {
        let words = words(alloc, line)?;
        if begins_comm(line) {
            Ok(self.read_comm(words.as_slice()))
        } else {
            self.read_call(alloc, words.as_slice())
        }
    }
}
