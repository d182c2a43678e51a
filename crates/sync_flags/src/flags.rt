//! Flags and their lines of the heap.

ghost use Rattle.std.specs.Prelude.{◌≡◌, ◌<◌, ◌≤◌, ◌++◌, ◌↔◌, [], ◌∷◌, Some, None, IsErr, IfOk, IfSome, OnOk, OnErr, Contains};
ghost use Rattle.mpb_alloc.specs.Heaps.{run_of_lines, answer_for, lines_in_runs, taken_from, given_back, without_buffer, IsHeap};
ghost use Rattle.sync_flags.specs.Flags.{is_set_in, spot_of_flag};

use mpb_alloc::{Heap, MallocFault};
use scc_base::{Buf, Place, Spot};

/// The bytes of the line that a flag takes.
const FLAG_BYTES: usize = 32;

/// What a call waits at that waits for the flag that is this word, or this bit of it.
pub(crate) fn spot_of_flag(place: Place, bit: Option<u8>) -> Spot
    ensures gives { result ≡ spot_of_flag place bit }
{
    Spot::Flag {
        place,
        bit: bit.unwrap_or(0),
    }
}

/// Whether a flag is set in this word: a flag that is the whole word where there is no bit.
#[inline(always)]
pub(crate) fn is_set_in(bit: Option<u8>, word: u64) -> bool
    requires below { IfSome bit (λ b. b < 64) }
    ensures tells { result ≡ is_set_in bit word }
{
    match bit {
        None => word == 1,
        Some(bit) => (word >> bit) % 2 == 1,
    }
}

/// Takes one line of the heap for flags. It is refused where no line is free.
pub fn flag_alloc(heap: &mut Heap) -> Result<Buf, MallocFault>
    ensures answer { result ≡ answer_for 1 heap.old.free }
    ensures full { IsErr result ↔ (lines_in_runs heap.old.free ≡ 0) }
    ensures line { IfOk result (λ b. b.lines ≡ 1) }
    ensures free { OnOk result (heap.new.free ≡ taken_from 1 heap.old.free) }
    ensures out { IfOk result (λ b. heap.new.out ≡ heap.old.out ++ run_of_lines b ∷ []) }
    ensures unchanged { OnErr result (heap.new ≡ heap.old) }
    ensures heap { OnOk result (IsHeap heap.new) }
{
    heap.malloc(FLAG_BYTES)
}

/// Gives a flag's line back.
pub fn flag_free(heap: &mut Heap, buffer: Buf)
    requires { Contains heap.old.out (run_of_lines buffer) }
    ensures free { heap.new.free ≡ given_back (run_of_lines buffer) heap.old.free }
    ensures out { heap.new.out ≡ without_buffer (run_of_lines buffer) heap.old.out }
    ensures heap { IsHeap heap.new }
{
    heap.free(buffer);
}
