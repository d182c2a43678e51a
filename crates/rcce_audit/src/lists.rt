//! The lists of calls of the ranks, as they grow.

ghost use Rattle.std.specs.Prelude.{◌≡◌, ◌<◌, IfOk, OnOk, vec_len};
ghost use Rattle.rcce_audit.specs.Grammar.{no_calls, with_call};
ghost use Rattle.rcce_audit.specs.Views.{data_lists, data_of};

use crate::logs::LogCall;
use std::alloc::{AllocError, Global};

/// A list without calls for each rank.
pub fn no_calls(alloc: Global) -> Result<Vec<Vec<LogCall>>, AllocError>
    ensures gives { IfOk result (λ lists. data_lists lists.items ≡ no_calls) }
    ensures ranks { IfOk result (λ lists. vec_len lists ≡ 48) }
{
    let mut lists = Vec::new(alloc);
    for _rank in 0..48usize {
        lists.push(Vec::new(alloc))?;
    }
    Ok(lists)
}

/// One more call of a rank.
pub fn push_call(
    lists: &mut Vec<Vec<LogCall>>,
    rank: usize,
    call: LogCall,
) -> Result<(), AllocError>
    requires { rank < vec_len lists.old }
    ensures gives { OnOk result (data_lists lists.new.items
        ≡ with_call (data_lists lists.old.items) (record { rank = rank; call = data_of call })) }
    ensures ranks { vec_len lists.new ≡ vec_len lists.old }
{
    let list = &mut lists[rank];
    list.push(call)?;
    Ok(())
}
