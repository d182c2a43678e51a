//! Flags in the heap of a station.

use crate::ports::known;
use crate::stations::Station;
use line_cache::Evict;
use mpb_alloc::MallocFault;
use scc_base::{Buf, FlagAt, Rank, Stalled};
use scc_proto::Port;
use sync_flags::{flag_alloc, flag_read, flag_write, wait_until};

impl<V: Evict> Station<V> {
    ghost use Rattle.std.specs.Prelude.{◌≡◌, ◌<◌, ◌≤◌, ◌↔◌, ◌++◌, ◌∷◌, [], List, IfOk, IsErr, OnErr, OnOk};
    ghost use Rattle.mpb_alloc.specs.Heaps.{answer_for, run_of_lines, taken_from};
    ghost use Rattle.scc_base.specs.declared.events.Event.{Event};
    ghost use Rattle.scc_proto.specs.Ports.{Did, record_in};
    ghost use Rattle.sync_flags.specs.Flags.{flag_of};
    ghost use Rattle.sync_flags.specs.Looks.{ReadsFlag, WaitsFor};
    ghost use Rattle.sync_flags.specs.Tries.{AtFlag, AtRegister, TryFailed};
    ghost use Rattle.sync_flags.specs.Writes.{WritesFlag};
    ghost use Rattle.station.specs.Stations.{KeepsAllButHeap, KeepsSlot, NoCallOpen};
    ghost use Rattle.scc_base.specs.Places.{first_heap};

    /// Takes one line of the heap for flags (RCCE_flag_alloc). `free` gives it back (RCCE_flag_free).
    pub fn flag_alloc(&mut self) -> Result<Buf, MallocFault>
        ensures answer { result ≡ answer_for 1 self.old.heap.free }
        ensures line { IfOk result (λ b. b.lines ≡ 1) }
        ensures free { OnOk result (self.new.heap.free ≡ taken_from 1 self.old.heap.free) }
        ensures out { IfOk result (λ b. self.new.heap.out ≡ self.old.heap.out ++ run_of_lines b ∷ []) }
        ensures unchanged { OnErr result (self.new ≡ self.old) }
        ensures same { KeepsAllButHeap self.old self.new }
    {
        flag_alloc(&mut self.heap)
    }

    /// Sets or clears a flag of the heap at a rank (RCCE_flag_write). Only a flag of one bit can stall: at the register of the core
    /// that holds it.
    pub fn set<P: Port>(
        &mut self,
        port: &mut P,
        at: Rank,
        flag: FlagAt,
        value: bool,
    ) -> Result<(), Stalled>
        requires free { NoCallOpen (P.sight port.old) self.old }
        requires below { at < (P.sight port.old).seat.setup.nue }
        requires heap { first_heap ≤ flag.line }
        ensures free { NoCallOpen (P.sight port.new) self.new }
        ensures calls { (record_in (P.sight port.new)).calls ≡ (record_in (P.sight port.old)).calls }
        ensures writes { WritesFlag (P.sight port.old) self.old.core (flag_of (P.sight port.old).seat.setup at flag) flag.bit value
            self.old.polls (P.sight port.new) self.new.core result }
        ensures stalls { (events : List Event) → Did (P.sight port.old) events (P.sight port.new) → (IsErr result
            ↔ TryFailed (AtRegister (flag_of (P.sight port.old).seat.setup at flag).core) self.old.polls events) }
        ensures seat { (P.sight port.new).seat ≡ (P.sight port.old).seat }
        ensures same { KeepsSlot self.old self.new }
    {
        known(port);
        flag_write(&mut self.core, port, at, flag, value, self.polls)
    }

    /// Whether a flag of the heap at a rank is set, by one look (RCCE_flag_read).
    pub fn read<P: Port>(&mut self, port: &mut P, at: Rank, flag: FlagAt) -> bool
        requires free { NoCallOpen (P.sight port.old) self.old }
        requires below { at < (P.sight port.old).seat.setup.nue }
        requires heap { first_heap ≤ flag.line }
        ensures free { NoCallOpen (P.sight port.new) self.new }
        ensures calls { (record_in (P.sight port.new)).calls ≡ (record_in (P.sight port.old)).calls }
        ensures reads { ReadsFlag (P.sight port.old) self.old.core (flag_of (P.sight port.old).seat.setup at flag) flag.bit result
            (P.sight port.new) self.new.core }
        ensures seat { (P.sight port.new).seat ≡ (P.sight port.old).seat }
        ensures same { KeepsSlot self.old self.new }
    {
        known(port);
        flag_read(&mut self.core, port, at, flag)
    }

    /// Waits until a flag of the own heap is as wanted (RCCE_wait_until).
    pub fn wait_until<P: Port>(
        &mut self,
        port: &mut P,
        flag: FlagAt,
        want: bool,
    ) -> Result<(), Stalled>
        requires free { NoCallOpen (P.sight port.old) self.old }
        requires heap { first_heap ≤ flag.line }
        ensures free { NoCallOpen (P.sight port.new) self.new }
        ensures calls { (record_in (P.sight port.new)).calls ≡ (record_in (P.sight port.old)).calls }
        ensures waits { WaitsFor (P.sight port.old) self.old.core
            (flag_of (P.sight port.old).seat.setup (P.sight port.old).seat.rank flag) flag.bit want
            self.old.polls (P.sight port.new) self.new.core result }
        ensures stalls { (events : List Event) → Did (P.sight port.old) events (P.sight port.new) → (IsErr result
            ↔ TryFailed (AtFlag (flag_of (P.sight port.old).seat.setup (P.sight port.old).seat.rank flag) flag.bit want)
            self.old.polls events) }
        ensures seat { (P.sight port.new).seat ≡ (P.sight port.old).seat }
        ensures same { KeepsSlot self.old self.new }
    {
        known(port);
        wait_until(&mut self.core, port, flag, want, self.polls)
    }
}
