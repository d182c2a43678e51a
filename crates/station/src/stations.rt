//! A station: what one rank keeps for itself between its calls, and its heap.

use barrier::Parity;
use line_cache::Evict;
use mpb_alloc::{Heap, MallocFault};
use put_get::Core;
use scc_base::Buf;
use send_recv::Slot;
use std::marker::Model;

/// How many vain tries in a row end a call of a new station.
const POLLS: u32 = 1_000_000;

/// What one rank keeps for itself between its calls: its core, the slot of its posted message, the values of its own gather
/// flags, its heap, and how many vain tries in a row end a call.
///
/// Its calls go through a port that the caller lends. `NoCallOpen` says that any of them can begin; each call asks for
/// that and gives it back, so that nothing is to be proved between one call and the next.
#[derive(Drop)]
pub struct Station<V: Evict> {
    pub(crate) core: Core<V>,
    pub(crate) slot: Slot,
    pub(crate) parity: Parity,
    pub(crate) heap: Heap,
    pub(crate) polls: u32,
}

impl<V: Evict> Model for Station<V> {
    ghost use Rattle.std.specs.Prelude.{◌≤◌};
    ghost use Rattle.station.specs.Stations.{StationAt};

    ghost Value = { StationAt };

    ghost view = { λ a. record { core = a.core; slot = a.slot; parity = a.parity; heap = a.heap; polls = a.polls } };

    ghost invariant = { λ a. 1 ≤ a.polls };
}

impl<V: Evict> Station<V> {
    ghost use Rattle.std.specs.Prelude.{◌≡◌, ◌≤◌, ◌↔◌, ◌++◌, ◌∷◌, [], IsTrue, IfOk, OnErr, OnOk, Contains};
    ghost use Rattle.mpb_alloc.specs.Heaps.{all_free, given_back, lines_for, malloc_answer, without_buffer, run_of_lines, taken_from};
    ghost use Rattle.scc_proto.specs.Ports.{Sight};
    ghost use Rattle.station.specs.Stations.{KeepsAllButHeap, NoCallOpen};

    /// The station of a rank that has made no call, with an evictor for its cache (RCCE_init).
    pub fn new(evict: V) -> Station<V>
        ensures free { (s : Sight) → s.events ≡ [] → NoCallOpen s result }
        ensures heap { result.heap ≡ all_free }
        ensures polls { result.polls ≡ 1000000 }
        ensures evictor { result.core.answers ≡ V.answers evict }
        ensures counts { (result.core.evictions ≡ V.count evict) × (result.core.asked ≡ V.asked evict) }
        ensures empty { result.core.lines ≡ [] }
    {
        Station {
            core: Core::new(evict),
            slot: Slot::new(),
            parity: Parity::new(),
            heap: Heap::new(),
            polls: POLLS,
        }
    }

    /// Sets how many vain tries in a row end a call.
    pub fn set_polls(&mut self, polls: u32)
        requires some { 1 ≤ polls }
        ensures sets { self.new ≡ record self.old { polls = polls } }
    {
        self.polls = polls;
    }

    /// Takes a buffer of `bytes` bytes, in whole lines. Stations that make the same calls get the same buffers (RCCE_malloc).
    pub fn malloc(&mut self, bytes: usize) -> Result<Buf, MallocFault>
        ensures answer { result ≡ malloc_answer self.old.heap bytes }
        ensures free { OnOk result (self.new.heap.free ≡ taken_from (lines_for bytes) self.old.heap.free) }
        ensures out { IfOk result (λ b. self.new.heap.out ≡ self.old.heap.out ++ run_of_lines b ∷ []) }
        ensures unchanged { OnErr result (self.new ≡ self.old) }
        ensures same { KeepsAllButHeap self.old self.new }
    {
        self.heap.malloc(bytes)
    }

    /// Gives a buffer back (RCCE_free).
    pub fn free(&mut self, buffer: Buf)
        requires out { Contains self.old.heap.out (run_of_lines buffer) }
        ensures free { self.new.heap.free ≡ given_back (run_of_lines buffer) self.old.heap.free }
        ensures out { self.new.heap.out ≡ without_buffer (run_of_lines buffer) self.old.heap.out }
        ensures same { KeepsAllButHeap self.old self.new }
    {
        self.heap.free(buffer);
    }

    /// Whether a buffer is out: what `free` asks for.
    pub fn is_out(&self, buffer: Buf) -> bool
        ensures tells { IsTrue result ↔ Contains self.now.heap.out (run_of_lines buffer) }
    {
        self.heap.is_out(buffer)
    }
}
