//! Texts that wait in a buffer in front of a sink.

use rcce_io::{Buffer, MemSink, Sink, TextSource, WriteFault, write_all};
use std::alloc::Global;

/// A text that is written at once.
#[derive(Clone, Copy)]
pub struct Line<'a> {
    pub bytes: &'a [u8],
}

impl TextSource for Line<'_> {
    ghost text = { λ l. l.bytes.now };

    fn write_to<S: Sink>(&self, sink: &mut S) -> Result<(), WriteFault> {
        write_all(sink, self.bytes)
    }
}

/// Gathers texts of these lengths, and then writes what waits, if this is asked for.
fn gather_all(
    sink: &mut MemSink,
    long: &[u8],
    lens: &[usize],
    flush: bool,
) -> Result<(), WriteFault> {
    let mut buffer = Buffer::new();
    for len in lens {
        let bytes = &long[..long.len().min(*len)];
        buffer.gather(sink, &Line { bytes })?;
    }
    if flush {
        buffer.flush(sink)?;
    }
    Ok(())
}

/// The lengths of texts, whether what waits is written at the end, the write that fails, if it is not 0, and the result. The result is how
/// many bytes the sink has, by how many writes, and whether none failed.
pub type GatherRow = (&'static [usize], bool, u64, (usize, u64, bool));

/// Whether texts like this one have this result, on a sink that takes all except at the write that fails.
fn is_gathered(sink: &mut MemSink, long: &[u8], row: &'static GatherRow) -> bool {
    let (lens, flush, write, comes) = row;
    sink.fail_at(*write);
    let sent = gather_all(sink, long, lens, *flush).is_ok();
    (sink.bytes().len(), sink.writes_made(), sent) == *comes
}

fn gathers(alloc: Global, long: &[u8], row: &'static GatherRow) -> bool {
    match MemSink::new(alloc, 2_000, 2_000) {
        Ok(mut sink) => is_gathered(&mut sink, long, row),
        Err(_) => false,
    }
}

/// Whether each row holds.
pub fn all_gather(alloc: Global, rows: &'static [GatherRow]) -> bool {
    for row in rows {
        if !gathers(alloc, &[7; 1_025], row) {
            return false;
        }
    }
    true
}
