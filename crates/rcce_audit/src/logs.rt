//! A log of calls.

ghost use Rattle.std.specs.Prelude.{◌≡◌, ◌<◌, ℕ};

use scc_base::{CommRule, Head, Layout, PostHead, Rank, Setup, own_cores};
use std::marker::Model;
use texts::Bytes;

/// A call with the bytes that it moved.
#[derive(Drop)]
pub enum LogCall {
    Send {
        to: Rank,
        head: Head,
        bytes: Bytes,
    },
    Recv {
        from: Rank,
        head: Head,
        bytes: Bytes,
    },
    Post {
        to: Rank,
        head: PostHead,
        bytes: Bytes,
    },
    Bar {
        comm: u8,
    },
}

/// A log that was read: how many ranks a run had, the rules of its communicators, and the calls of each rank.
#[derive(Drop)]
pub struct Log {
    nue: u8,
    comms: [CommRule; 16],
    lists: Vec<Vec<LogCall>>,
}

impl Model for Log {
    ghost use Rattle.rcce_audit.specs.Logs.{LogView};
    ghost use Rattle.rcce_audit.specs.Texts.{IsFileLog};
    ghost use Rattle.rcce_audit.specs.Views.{data_lists};

    ghost Value = { LogView };

    ghost view = { λ l. record { nue = l.nue; comms = l.comms; lists = data_lists l.lists.items } };

    ghost invariant = { λ l. IsFileLog (record { nue = l.nue; comms = l.comms; lists = data_lists l.lists.items }) };
}

impl Log {
    ghost use Rattle.std.specs.Prelude.{◌≡◌, length};
    ghost use Rattle.rcce_audit.specs.Texts.{IsFileLog};
    ghost use Rattle.rcce_audit.specs.Views.{data_lists};

    pub(crate) fn new(nue: u8, comms: [CommRule; 16], lists: Vec<Vec<LogCall>>) -> Log
        requires { IsFileLog (record { nue = nue; comms = comms; lists = data_lists lists.items }) }
        ensures { result ≡ record { nue = nue; comms = comms; lists = data_lists lists.items } }
    {
        Log { nue, comms, lists }
    }

    /// How many ranks the run had.
    pub fn nue(&self) -> u8
        ensures gives { result ≡ self.now.nue }
        ensures valid { IsFileLog self.now }
    {
        self.nue
    }

    /// The rules of the communicators.
    pub fn comms(&self) -> [CommRule; 16]
        ensures gives { result ≡ self.now.comms }
        ensures valid { IsFileLog self.now }
    {
        self.comms
    }

    /// The calls of the ranks 0 to 47.
    pub(crate) fn lists(&self) -> &[Vec<LogCall>]
        ensures gives { data_lists result.now ≡ self.now.lists }
        ensures ranks { length (data_lists result.now) ≡ 48 }
        ensures valid { IsFileLog self.now }
    {
        self.lists.as_slice()
    }

    /// A setup with the log's ranks and communicators.
    pub(crate) fn setup(&self) -> Setup
        ensures nue { result.nue ≡ self.now.nue }
        ensures comms { result.comms ≡ self.now.comms }
    {
        match Setup::new(self.nue, Layout::LineFlags, own_cores(), self.comms) {
            Some(setup) => setup,
            None => unreachable!(),
        }
    }
}
