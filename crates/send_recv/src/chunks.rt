//! The chunks of a message.

ghost use Rattle.std.specs.Prelude.{◌≡◌, ◌≤◌};
ghost use Rattle.scc_base.specs.Layouts.{chunk_size};
ghost use Rattle.send_recv.specs.Chunks.{chunk_start, chunk_lines_of, is_last_chunk};

use scc_base::Layout;

/// The byte at which a chunk starts.
#[inline(always)]
pub(crate) fn start_of(layout: Layout, chunk: u8) -> usize
    ensures gives { result ≡ chunk_start (chunk_size layout) chunk }
    ensures fits { result ≤ 2_000_000 }
{
    layout.chunk_bytes() as usize * chunk as usize
}

/// The number of lines of a chunk of a message.
#[inline(always)]
pub(crate) fn lines_in(layout: Layout, len: u32, chunk: u8) -> u8
    ensures gives { result ≡ chunk_lines_of (chunk_size layout) len chunk }
{
    let size = layout.chunk_bytes();
    let left = len.saturating_sub(size * chunk as u32);
    let in_hand = left.min(size);
    ((in_hand + 31) / 32) as u8
}

/// Whether no chunk comes after this one.
#[inline(always)]
pub(crate) fn is_last(layout: Layout, len: u32, chunk: u8) -> bool
    ensures tells { result ≡ is_last_chunk (chunk_size layout) len chunk }
{
    len <= layout.chunk_bytes() * (chunk as u32 + 1)
}
