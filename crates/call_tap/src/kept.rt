//! The finished calls of a rank, as they are kept.

ghost use Rattle.std.specs.Prelude.{◌≤◌, vec_capacity};

use scc_base::Call;
use std::alloc::{AllocError, Global};

/// The most calls of a rank that are kept.
const MOST_CALLS: usize = 10_000;

/// The most bytes of a rank's calls that are kept.
const MOST_BYTES: usize = 262_144;

/// Calls in their order, and their bytes one after the other. All the memory is taken at the start.
#[derive(Drop)]
pub struct Kept {
    pub calls: Vec<Call>,
    pub bytes: Vec<u8>,
    ghost calls_room: { 10000 ≤ vec_capacity calls },
    ghost bytes_room: { 262144 ≤ vec_capacity bytes },
}

impl Kept {
    ghost use Rattle.std.specs.Prelude.{◌≡◌, ◌∷◌, ◌++◌, List, [], IfOk};
    ghost use Rattle.scc_base.specs.Calls.{DataCall, call_of};
    ghost use Rattle.call_tap.specs.Kept.{AreKeptWithRoom};
    ghost use Rattle.rank_monitor.specs.Following.{moved_by};

    /// No calls, with room for them.
    pub fn new(alloc: Global) -> Result<Kept, AllocError>
        ensures none { IfOk result (λ k. AreKeptWithRoom k []) }
    {
        let calls = Vec::with_capacity(alloc, MOST_CALLS)?;
        let bytes = Vec::with_capacity(alloc, MOST_BYTES)?;
        Ok(Kept { calls, bytes })
    }

    /// One call more, as far as there is room.
    pub(crate) fn note(&mut self, call: Call, bytes: &[u8])
        ensures notes { (calls : List DataCall) (done : DataCall) → call_of done ≡ call → moved_by done ≡ bytes.now
            → AreKeptWithRoom self.old calls
            → AreKeptWithRoom self.new (calls ++ done ∷ []) }
    {
        let left = MOST_BYTES.saturating_sub(self.bytes.len());
        if self.calls.len() < MOST_CALLS && bytes.len() <= left {
            self.calls.push_reserved(call);
            if self.bytes.extend_from_slice(bytes).is_err() {
                unreachable!()
            }
        }
    }
}
