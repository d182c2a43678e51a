//! A reader of the lines of a trace.

ghost use Rattle.std.specs.Prelude.{◌≡◌, ◌<◌, ◌≤◌, ◌==◌, not, ℕ, All, length};
ghost use Rattle.scc_base.specs.Communicators.{AreRules, rule_of};
ghost use Rattle.scc_base.specs.Setups.{AreApart};
ghost use Rattle.scc_base.specs.declared.communicators.CommRule.TheVariants.{Absent};

use crate::hosts::Head;
use crate::lines::event_said;
use crate::traces::TraceEvent;
use rcce_audit::words::words;
use rcce_audit::{begins_comm, comm_said};
use scc_base::{CommRule, CoreId, Layout, Setup, world_alone};
use scc_proto::History;
use std::alloc::{AllocError, Global};

/// The most bytes of a line.
pub(crate) const MOST_LINE_BYTES: usize = 255;

/// What a line comes to.
#[derive(Drop)]
pub(crate) enum LineTaken {
    /// It is not of its form, or not in its place.
    Refused,
    /// A communicator that is a split.
    Split,
    Event(TraceEvent),
}

/// A trace of which some lines are read. Whether it has events it keeps; the events stand in proofs alone.
#[derive(Drop)]
pub(crate) struct TraceReader {
    pub(crate) nue: u8,
    pub(crate) layout: Layout,
    pub(crate) hosts: [CoreId; 48],
    pub(crate) comms: [CommRule; 16],
    comm: u8,
    begun: bool,
    made: History<TraceEvent>,
    ghost some_ranks: { 1 ≤ nue },
    ghost ranks_within: { nue ≤ 48 },
    ghost apart: { AreApart nue hosts },
    ghost comm_below: { comm < 16 },
    ghost rules: { ∥ AreRules comms ∥₁ },
    ghost later: { (c : ℕ) → comm < c → rule_of comms c ≡ Absent },
    ghost begun_where: { begun ≡ not (length made.items == 0) },
}

impl TraceReader {
    ghost use Rattle.std.specs.Prelude.{◌≡◌, ◌<◌, IfOk, None, OnErr, Some, map, option_map};
    ghost use Rattle.std.specs.Bool.{MatchBool};
    ghost use Rattle.trace_text.specs.Grammar.{after_head, event_added, event_said, split_taken};
    ghost use Rattle.trace_text.specs.Heads.{head_view};
    ghost use Rattle.trace_text.specs.Progress.{TakesTraceLine, progress_of};
    ghost use Rattle.trace_text.specs.Views.{rank_event};

    /// The first line is read.
    pub(crate) fn new(head: Head) -> TraceReader
        ensures { progress_of result ≡ after_head (head_view head) }
    {
        let hosts = head.hosts;
        TraceReader {
            nue: head.nue,
            layout: head.layout,
            hosts,
            comms: world_alone(),
            comm: 0,
            begun: false,
            made: History::new(),
        }
    }

    /// The setup that the lines so far say.
    pub(crate) fn setup(&self) -> Setup
        ensures gives { result ≡ (progress_of self.now).trace.setup }
    {
        match Setup::new(self.nue, self.layout, self.hosts, self.comms) {
            Some(setup) => setup,
            None => unreachable!(),
        }
    }

    /// Takes a line of a communicator, by its words.
    fn read_comm(&mut self, words: &[&[u8]]) -> bool
        ensures { MatchBool result
            (split_taken (progress_of self.old) (map (λ word. word.now) words.now) ≡ Some (progress_of self.new))
            (split_taken (progress_of self.old) (map (λ word. word.now) words.now) ≡ None) }
    {
        let Some(split) = comm_said(self.comm, &self.comms, words) else {
            return false;
        };
        if self.begun {
            return false;
        }
        self.comms[split.comm as usize] = split.rule;
        self.comm = split.comm;
        true
    }

    /// Takes an event.
    fn add(&mut self, event: &TraceEvent)
        ensures { progress_of self.new ≡ event_added (progress_of self.old) (rank_event event.now) }
    {
        self.made = self.made.and(event);
        self.begun = true;
    }

    /// Takes a line, if it is of its form and in its place.
    pub(crate) fn read_line(&mut self, alloc: Global, line: &[u8]) -> Result<LineTaken, AllocError>
        ensures takes { IfOk result (λ taken. TakesTraceLine (progress_of self.old) line.now (progress_of self.new) taken) }
        ensures unchanged { OnErr result (self.new ≡ self.old) }
    {
        if line.len() > MOST_LINE_BYTES {
            return Ok(LineTaken::Refused);
        }
        let words = words(alloc, line)?;
        if begins_comm(line) {
            return Ok(if self.read_comm(words.as_slice()) {
                LineTaken::Split
            } else {
                LineTaken::Refused
            });
        }
        match event_said(alloc, self.nue, words.as_slice())? {
            Some(event) => {
                self.add(&event);
                Ok(LineTaken::Event(event))
            }
            None => Ok(LineTaken::Refused),
        }
    }
}
