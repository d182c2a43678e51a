//! Put and get of a station.

use crate::ports::known;
use crate::stations::Station;
use line_cache::Evict;
use put_get::RangeFault;
use scc_base::{Buf, Rank};
use scc_proto::Port;

impl<V: Evict> Station<V> {
    ghost use Rattle.std.specs.Prelude.{◌≡◌, ◌<◌, ◌≤◌, ◌↔◌, length, IsOk, IfErr, OnErr, OnOk};
    ghost use Rattle.scc_base.specs.Setups.{host_of};
    ghost use Rattle.scc_proto.specs.Ports.{record_in};
    ghost use Rattle.put_get.specs.Transfers.{Gets, Puts};
    ghost use Rattle.station.specs.Stations.{KeepsSlot, NoCallOpen};

    /// Writes lines into a buffer at a rank, from the buffer's first line on (RCCE_put).
    ///
    /// Nothing is said of the order in which another rank sees the words.
    pub fn put<P: Port>(
        &mut self,
        port: &mut P,
        to: Rank,
        at: Buf,
        src: &[[u64; 4]],
    ) -> Result<(), RangeFault>
        requires free { NoCallOpen (P.sight port.old) self.old }
        requires below { to < (P.sight port.old).seat.setup.nue }
        ensures free { NoCallOpen (P.sight port.new) self.new }
        ensures calls { (record_in (P.sight port.new)).calls ≡ (record_in (P.sight port.old)).calls }
        ensures fits { IsOk result ↔ (length src.now ≤ at.lines) }
        ensures range { IfErr result (λ e. e ≡ record { asked = length src.now; len = at.lines }) }
        ensures unchanged { OnErr result ((P.sight port.new ≡ P.sight port.old) × (self.new ≡ self.old)) }
        ensures puts { OnOk result
            (Puts (P.sight port.old) self.old.core (host_of (P.sight port.old).seat.setup.hosts to) at.first src.now
            (P.sight port.new) self.new.core) }
        ensures seat { (P.sight port.new).seat ≡ (P.sight port.old).seat }
        ensures same { KeepsSlot self.old self.new }
    {
        known(port);
        let _first = at.first();
        self.core.put(port, to, at, src)
    }

    /// Reads as many lines as `dst` has from a buffer at a rank, from the buffer's first line on (RCCE_get).
    ///
    /// Nothing is said of the order in which another rank's words are seen.
    pub fn get<P: Port>(
        &mut self,
        port: &mut P,
        from: Rank,
        at: Buf,
        dst: &mut [[u64; 4]],
    ) -> Result<(), RangeFault>
        requires free { NoCallOpen (P.sight port.old) self.old }
        requires below { from < (P.sight port.old).seat.setup.nue }
        ensures free { NoCallOpen (P.sight port.new) self.new }
        ensures calls { (record_in (P.sight port.new)).calls ≡ (record_in (P.sight port.old)).calls }
        ensures fits { IsOk result ↔ (length dst.old ≤ at.lines) }
        ensures range { IfErr result (λ e. e ≡ record { asked = length dst.old; len = at.lines }) }
        ensures unchanged { OnErr result ((P.sight port.new ≡ P.sight port.old) × (self.new ≡ self.old) × (dst.new ≡ dst.old)) }
        ensures gets { OnOk result
            (Gets (P.sight port.old) self.old.core (host_of (P.sight port.old).seat.setup.hosts from) at.first dst.new
            (P.sight port.new) self.new.core) }
        ensures seat { (P.sight port.new).seat ≡ (P.sight port.old).seat }
        ensures same { KeepsSlot self.old self.new }
    {
        known(port);
        let _first = at.first();
        self.core.get(port, from, at, dst)
    }
}
