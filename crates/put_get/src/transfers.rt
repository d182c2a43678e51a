//! Put and get.

use crate::cores::Core;
use line_cache::Evict;
use scc_base::{Buf, Line, Rank};
use scc_proto::Port;
use thiserror::Error;

/// More lines were asked for than the buffer has.
#[derive(Debug, Drop, PartialEq, Eq, Error)]
#[error("asked {asked} lines of a buffer of {len}")]
pub struct RangeFault {
    pub asked: usize,
    pub len: usize,
}

impl<V: Evict> Core<V> {
    ghost use Rattle.std.specs.Prelude.{◌≡◌, ◌<◌, ◌≤◌, ◌↔◌, None, length, IsOk, IfErr, OnErr, OnOk};
    ghost use Rattle.scc_base.specs.Setups.{host_of};
    ghost use Rattle.scc_proto.specs.Ports.{MayMakeAll, record_in};
    ghost use Rattle.put_get.specs.Cores.{MadeSteps};
    ghost use Rattle.put_get.specs.Transfers.{Puts, Gets, put_stores};

    /// Writes lines into a buffer at a rank's core, from the buffer's first line on, and stores them.
    ///
    /// Nothing is said of the order in which another core sees the words.
    pub fn put<P: Port>(
        &mut self,
        port: &mut P,
        to: Rank,
        at: Buf,
        src: &[[u64; 4]],
    ) -> Result<(), RangeFault>
        requires below { to < (P.sight port.old).seat.setup.nue }
        requires empty { self.old.out ≡ None }

        // Each store has to be permitted when it is made.
        requires permitted { length src.now ≤ at.lines →
            MayMakeAll (P.sight port.old).seat (record_in (P.sight port.old))
            (put_stores (host_of (P.sight port.old).seat.setup.hosts to) at.first src.now) }
        ensures fits { IsOk result ↔ (length src.now ≤ at.lines) }
        ensures range { IfErr result (λ e. e ≡ record { asked = length src.now; len = at.lines }) }
        ensures port_unchanged { OnErr result (P.sight port.new ≡ P.sight port.old) }
        ensures core_unchanged { OnErr result (self.new ≡ self.old) }
        ensures puts { OnOk result
            (Puts (P.sight port.old) self.old (host_of (P.sight port.old).seat.setup.hosts to) at.first src.now
            (P.sight port.new) self.new) }
        ensures steps { MadeSteps P.stepped (P.sight port.old) (P.sight port.new) }
    {
        let len = usize::from(at.lines());
        if src.len() > len {
            return Err(RangeFault {
                asked: src.len(),
                len,
            });
        }
        let core = port.setup().core_of(to);
        'lines: for i in 0..src.len() {
            let line = Line::new(core, at.first() + i as u8);
            self.line_write(port, line, &src[i]);
            self.flush(port);
        }
        Ok(())
    }

    /// Drops all cached lines and then reads as many lines as `dst` has from a buffer at a rank's core, from
    /// the buffer's first line on.
    ///
    /// Nothing is said of the order in which another core's words are seen.
    pub fn get<P: Port>(
        &mut self,
        port: &mut P,
        from: Rank,
        at: Buf,
        dst: &mut [[u64; 4]],
    ) -> Result<(), RangeFault>
        requires below { from < (P.sight port.old).seat.setup.nue }
        requires empty { self.old.out ≡ None }
        ensures fits { IsOk result ↔ (length dst.old ≤ at.lines) }
        ensures range { IfErr result (λ e. e ≡ record { asked = length dst.old; len = at.lines }) }
        ensures port_unchanged { OnErr result (P.sight port.new ≡ P.sight port.old) }
        ensures core_unchanged { OnErr result (self.new ≡ self.old) }
        ensures dst_unchanged { OnErr result (dst.new ≡ dst.old) }
        ensures gets { OnOk result
            (Gets (P.sight port.old) self.old (host_of (P.sight port.old).seat.setup.hosts from) at.first dst.new
            (P.sight port.new) self.new) }
        ensures steps { MadeSteps P.stepped (P.sight port.old) (P.sight port.new) }
    {
        let len = usize::from(at.lines());
        if dst.len() > len {
            return Err(RangeFault {
                asked: dst.len(),
                len,
            });
        }
        let core = port.setup().core_of(from);
        self.cl1invmb();
        'lines: for i in 0..dst.len() {
            let line = Line::new(core, at.first() + i as u8);
            dst[i] = self.line_read(port, line);
        }
        Ok(())
    }
}
