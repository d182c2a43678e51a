//! The finished calls of the ranks, as they are kept while a trace is judged.

ghost use Rattle.std.specs.Prelude.{◌≡◌, IfOk, vec_len};
ghost use Rattle.std.specs.Option.{ForSome};
ghost use Rattle.scc_base.specs.Calls.{DataCall, call_of};
ghost use Rattle.rcce_audit.specs.Views.{data_of};
ghost use Rattle.rank_monitor.specs.Following.{moved_by};

use rcce_audit::{LogCall, no_calls, push_call};
use scc_base::{Call, Rank};
use std::alloc::{AllocError, Global};
use texts::Bytes;

/// How many calls each of the ranks 0 to 47 has finished, and these calls where they are asked for.
#[derive(Drop)]
pub struct FinishedCalls {
    pub counts: [usize; 48],
    pub lists: Option<Vec<Vec<LogCall>>>,
    ghost ranks: { ForSome lists (λ l. vec_len l ≡ 48) },
}

/// A call with a copy of its bytes.
fn with_bytes(alloc: Global, call: Call, bytes: &[u8]) -> Result<LogCall, AllocError>
    ensures { IfOk result (λ made. (done : DataCall) → call_of done ≡ call → moved_by done ≡ bytes.now → data_of made ≡ done) }
{
    let bytes = Bytes::from_vec(Vec::from_slice(alloc, bytes)?);
    Ok(match call {
        Call::Send { to, head } => LogCall::Send { to, head, bytes },
        Call::Recv { from, head } => LogCall::Recv { from, head, bytes },
        Call::Post { to, head } => LogCall::Post { to, head, bytes },
        Call::Bar { comm } => LogCall::Bar { comm },
    })
}

impl FinishedCalls {
    ghost use Rattle.std.specs.Prelude.{◌≡◌, ◌<◌, ◌+◌, ◌^◌, Bool, List, ℕ, IfOk, slice_index};
    ghost use Rattle.rcce_audit.specs.Grammar.{no_calls, with_call};
    ghost use Rattle.scc_base.specs.Calls.{DataCall, call_of};
    ghost use Rattle.rank_monitor.specs.Following.{moved_by};
    ghost use Rattle.trace_program.specs.Hearings.{HoldsFinished};

    /// No rank has finished a call.
    pub(crate) fn new(alloc: Global, asked: bool) -> Result<FinishedCalls, AllocError>
        ensures none { IfOk result (λ finished. HoldsFinished asked finished 0 no_calls) }
    {
        let lists = if asked { Some(no_calls(alloc)?) } else { None };
        Ok(FinishedCalls {
            counts: [0; 48],
            lists,
        })
    }

    /// One call more of a rank, with its bytes.
    pub(crate) fn keep(
        &mut self,
        alloc: Global,
        rank: Rank,
        call: Call,
        bytes: &[u8],
    ) -> Result<(), AllocError>
        requires few { (k : ℕ) → slice_index self.old.counts k + 1 < 2 ^ 64 }
        ensures keeps { IfOk result (λ _. (asked : Bool) (number : ℕ) (calls : List (List DataCall)) (done : DataCall)
            → call_of done ≡ call → moved_by done ≡ bytes.now → HoldsFinished asked self.old number calls
            → HoldsFinished asked self.new (number + 1) (with_call calls (record { rank = rank; call = done }))) }
    {
        let at = rank.number() as usize;
        self.counts[at] += 1;
        if let Some(lists) = &mut self.lists {
            let call = with_bytes(alloc, call, bytes)?;
            push_call(lists, at, call)?;
        }
        Ok(())
    }
}
