//! The cores of ranks, and what the first line of a trace says.

ghost use Rattle.std.specs.Prelude.{◌≤◌};
ghost use Rattle.scc_base.specs.Setups.{AreApart};

use rcce_audit::words::range_said;
use scc_base::{CoreId, Layout};

/// The cores of the first ranks, each rank on a core of its own.
#[derive(Clone, Copy)]
pub(crate) struct Hosts {
    pub(crate) count: u8,
    pub(crate) cores: [CoreId; 48],
    ghost within: { count ≤ 48 },
    ghost apart: { AreApart count cores },
}

/// What the first line says: how many ranks, the layout, and the core of each rank.
#[derive(Clone, Copy)]
pub(crate) struct Head {
    pub(crate) nue: u8,
    pub(crate) layout: Layout,
    pub(crate) hosts: [CoreId; 48],
    ghost some_ranks: { 1 ≤ nue },
    ghost ranks_within: { nue ≤ 48 },
    ghost apart: { AreApart nue hosts },
}

impl Hosts {
    ghost use Rattle.std.specs.Prelude.{◌≡◌, ◌<◌, ◌==◌, is_none, map, option_map};
    ghost use Rattle.scc_proto.specs.Words.{rank_below};
    ghost use Rattle.trace_text.specs.Grammar.{host_said, no_hosts};
    ghost use Rattle.trace_text.specs.Heads.{table_view};

    /// No rank has a core yet.
    pub(crate) fn new() -> Hosts
        ensures { table_view result ≡ record { count = 0; hosts = no_hosts } }
    {
        Hosts {
            count: 0,
            cores: [CoreId::of(0); 48],
        }
    }

    /// Whether no rank is on this core yet.
    fn is_free(&self, core: CoreId) -> bool
        ensures { result ≡ is_none (rank_below self.now.count self.now.cores core) }
    {
        for rank in 0..self.count {
            if self.cores[rank as usize] == core {
                return false;
            }
        }
        true
    }

    /// The table with one rank more, on a core of its own.
    pub(crate) fn and(self, word: &[u8]) -> Option<Hosts>
        ensures { option_map table_view result ≡ host_said (table_view self) word.now }
    {
        let core = CoreId::of(range_said(word, 0, 47)? as u8);
        if self.count >= 48 || !self.is_free(core) {
            return None;
        }
        let mut cores = self.cores;
        cores[self.count as usize] = core;
        Some(Hosts {
            count: self.count + 1,
            cores,
        })
    }
}
