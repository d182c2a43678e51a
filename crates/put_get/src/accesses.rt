//! Loads and stores of whole lines over a port.

ghost use Rattle.std.specs.Prelude.{◌≡◌, ◌<◌, List};
ghost use Rattle.scc_base.specs.declared.events.Event.{Event};
ghost use Rattle.scc_proto.specs.Ports.{Did, MayMakeAll, record_in};
ghost use Rattle.put_get.specs.Accesses.{loads_of, store_of_word, stores_of_line, stores_of};
ghost use Rattle.put_get.specs.Cores.{MadeSteps};

use scc_base::Line;
use scc_proto::Port;
use write_combine::Out;

/// Loads the four words of a line, in order.
#[inline(always)]
pub(crate) fn load_line<P: Port>(port: &mut P, line: Line) -> [u64; 4]
    ensures did { Did (P.sight port.old) (loads_of line result) (P.sight port.new) }
    ensures steps { MadeSteps P.stepped (P.sight port.old) (P.sight port.new) }
{
    let first = port.load(line.word(0));
    let second = port.load(line.word(1));
    let third = port.load(line.word(2));
    let fourth = port.load(line.word(3));
    [first, second, third, fourth]
}

/// Stores one word of a line, where it was written.
#[inline(always)]
fn store_word<P: Port>(port: &mut P, out: &Out, word: u8)
    requires below { word < 4 }
    requires permitted { MayMakeAll (P.sight port.old).seat (record_in (P.sight port.old)) (store_of_word out.now word) }
    ensures did { Did (P.sight port.old) (store_of_word out.now word) (P.sight port.new) }
    ensures steps { MadeSteps P.stepped (P.sight port.old) (P.sight port.new) }
{
    let at = usize::from(word);
    if out.mask[at] {
        port.store(out.line.word(word), out.words[at]);
    }
}

/// Stores the words of a line that were written, the last word first.
#[inline]
fn store_line<P: Port>(port: &mut P, out: &Out)
    requires permitted { MayMakeAll (P.sight port.old).seat (record_in (P.sight port.old)) (stores_of_line out.now) }
    ensures did { Did (P.sight port.old) (stores_of_line out.now) (P.sight port.new) }
    ensures steps { MadeSteps P.stepped (P.sight port.old) (P.sight port.new) }
{
    store_word(port, out, 3);
    store_word(port, out, 2);
    store_word(port, out, 1);
    store_word(port, out, 0);
}

/// Stores what left the write-combining buffer.
#[inline]
pub(crate) fn store_out<P: Port>(port: &mut P, out: &Option<Out>)
    requires permitted { MayMakeAll (P.sight port.old).seat (record_in (P.sight port.old)) (stores_of out.now) }
    ensures did { Did (P.sight port.old) (stores_of out.now) (P.sight port.new) }
    ensures steps { MadeSteps P.stepped (P.sight port.old) (P.sight port.new) }
{
    if let Some(out) = out {
        store_line(port, out);
    }
}
