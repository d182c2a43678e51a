//! What a core holds, as it is printed.

ghost use Rattle.std.specs.Prelude.{◌≡◌, ◌++◌, OnOk};
ghost use Rattle.lab_plain.specs.Scenes.{say_buffer, say_lines};

use crate::evictor::Named;
use lab_plain::Said;
use line_cache::Entry;
use put_get::Core;
use scc_base::CoreId;
use std::alloc::AllocError;
use write_combine::Out;

fn print_lines(said: &mut Vec<Said>, core: CoreId, lines: &[Entry]) -> Result<(), AllocError>
    ensures { OnOk result (said.new.items ≡ said.old.items ++ say_lines core lines.now) }
{
    if lines.is_empty() {
        said.push(Said::CachesNothing(core))?;
        return Ok(());
    }
    for entry in lines {
        said.push(Said::Caches {
            core,
            line: entry.line,
            words: entry.words,
        })?;
    }
    Ok(())
}

fn print_buffer(said: &mut Vec<Said>, core: CoreId, out: &Option<Out>) -> Result<(), AllocError>
    ensures { OnOk result (said.new.items ≡ said.old.items ++ say_buffer core out.now) }
{
    match out {
        Some(out) => said.push(Said::Buffers {
            core,
            line: out.line,
            words: out.words,
            mask: out.mask,
        })?,
        None => said.push(Said::BuffersNothing(core))?,
    }
    Ok(())
}

/// Adds to `said` what a core holds.
pub(crate) fn print(said: &mut Vec<Said>, own: CoreId, core: &Core<Named>) -> Result<(), AllocError>
    ensures { OnOk result (said.new.items ≡ said.old.items ++ say_lines own core.now.lines ++ say_buffer own core.now.out) }
{
    print_lines(said, own, core.lines())?;
    print_buffer(said, own, core.buffered())
}
