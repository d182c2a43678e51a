//! What the core that runs does to the shared words, its cache and its buffer.

ghost use Rattle.std.specs.Prelude.{◌≡◌, ◌++◌, [], ◌∷◌, true, OnOk, IfOk, Some, None};
ghost use Rattle.line_cache.specs.Lines.{with_filled_line};
ghost use Rattle.write_combine.specs.Combining.{handed_out};
ghost use Rattle.put_get.specs.Accesses.{loads_of};
ghost use Rattle.chip_memory.specs.Chips.{all_events, of_rank_all};
ghost use Rattle.lab_plain.specs.declared.said.Said.TheVariants.{Answers, Stores};
ghost use Rattle.lab_plain.specs.Scenes.{after_flushing, line_got, line_in, line_put, line_stored, line_written, say_got, say_stores, word_written};
ghost use Rattle.lab_run.specs.Turns.{MadeHeapAccesses, MayGoOn, CoreTurned, memory_in, scene_of};

use crate::evictor::Named;
use crate::reads::{Loaded, load_line};
use chip_memory::TurnChip;
use lab_plain::{Said, Source};
use lab_reader::{HeapLine, HeapWord};
use put_get::Core;
use scc_base::{Buf, CoreId, Line, Rank};
use scc_proto::Port;
use std::alloc::AllocError;
use write_combine::Out;

/// The core that runs.
pub(crate) fn own(chip: &TurnChip) -> CoreId
    ensures { result ≡ chip.now.rank }
{
    CoreId::of(chip.rank().number())
}

/// Adds to `said` that the written words of a line are stored.
fn say_stores(said: &mut Vec<Said>, core: CoreId, out: &Out) -> Result<(), AllocError>
    ensures { OnOk result (said.new.items ≡ said.old.items ++ say_stores core (Some out.now)) }
{
    said.push(Said::Stores {
        core,
        line: out.line,
        words: out.words,
        mask: out.mask,
    })?;
    Ok(())
}

/// Adds to `said` what leaves the write-combining buffer at a flush.
fn say_flush(core: &Core<Named>, chip: &TurnChip, said: &mut Vec<Said>) -> Result<(), AllocError>
    ensures { OnOk result (said.new.items ≡ said.old.items ++ say_stores chip.now.rank core.now.out) }
{
    match core.buffered() {
        Some(out) => say_stores(said, own(chip), out),
        None => Ok(()),
    }
}

/// Adds to `said` what leaves the write-combining buffer when a word is written.
fn say_handed_out(
    core: &Core<Named>,
    chip: &TurnChip,
    said: &mut Vec<Said>,
    line: Line,
) -> Result<(), AllocError>
    ensures { OnOk result (said.new.items ≡ said.old.items ++ say_stores chip.now.rank (handed_out core.now.out line)) }
{
    match core.buffered() {
        Some(out) => {
            if out.line.is(line) {
                Ok(())
            } else {
                say_stores(said, own(chip), out)
            }
        }
        None => Ok(()),
    }
}

/// Stores what the write-combining buffer holds.
pub(crate) fn flush(
    core: &mut Core<Named>,
    chip: &mut TurnChip,
    said: &mut Vec<Said>,
) -> Result<(), AllocError>
    requires ready { MayGoOn core.old chip.old }
    ensures turned { OnOk result (CoreTurned (after_flushing chip.old.rank)
        core.old chip.old said.old.items core.new chip.new said.new.items) }
{
    say_flush(core, chip, said)?;
    core.flush(chip);
    Ok(())
}

/// Writes a word.
pub(crate) fn write_word(
    core: &mut Core<Named>,
    chip: &mut TurnChip,
    said: &mut Vec<Said>,
    at: HeapWord,
    value: u64,
) -> Result<(), AllocError>
    requires ready { MayGoOn core.old chip.old }
    ensures turned { OnOk result (CoreTurned (word_written chip.old.rank at value)
        core.old chip.old said.old.items core.new chip.new said.new.items) }
{
    let _word = at.number();
    let place = at.place();
    say_handed_out(core, chip, said, place.line_at())?;
    core.word_write(chip, place, value);
    Ok(())
}

/// Writes the four words of a line, one after the other.
pub(crate) fn write_line(
    core: &mut Core<Named>,
    chip: &mut TurnChip,
    said: &mut Vec<Said>,
    at: HeapLine,
    words: &[u64; 4],
) -> Result<(), AllocError>
    requires ready { MayGoOn core.old chip.old }
    ensures turned { OnOk result (CoreTurned (line_written chip.old.rank at words.now)
        core.old chip.old said.old.items core.new chip.new said.new.items) }
{
    write_word(core, chip, said, at.word(0), words[0])?;
    write_word(core, chip, said, at.word(1), words[1])?;
    write_word(core, chip, said, at.word(2), words[2])?;
    write_word(core, chip, said, at.word(3), words[3])
}

/// Adds to `said` that a whole line is stored.
fn say_line(
    said: &mut Vec<Said>,
    core: CoreId,
    line: Line,
    words: &[u64; 4],
) -> Result<(), AllocError>
    ensures { OnOk result (said.new.items ≡ said.old.items ++ Stores core line words.now (true ∷ true ∷ true ∷ true ∷ []) ∷ []) }
{
    said.push(Said::Stores {
        core,
        line,
        words: *words,
        mask: [true; 4],
    })?;
    Ok(())
}

/// Puts a whole line, if the buffer is empty.
fn store_line(
    core: &mut Core<Named>,
    chip: &mut TurnChip,
    said: &mut Vec<Said>,
    at: HeapLine,
    words: &[u64; 4],
) -> Result<(), AllocError>
    requires ready { MayGoOn core.old chip.old }
    requires empty { core.old.out ≡ None }
    ensures turned { OnOk result (CoreTurned (line_stored chip.old.rank at words.now)
        core.old chip.old said.old.items core.new chip.new said.new.items) }
{
    say_line(said, own(chip), at.line(), words)?;
    match core.put(chip, owner_of(at), buffer_of(at), &[*words]) {
        Ok(()) => Ok(()),
        Err(_) => unreachable!(),
    }
}

/// Puts a whole line.
pub(crate) fn put(
    core: &mut Core<Named>,
    chip: &mut TurnChip,
    said: &mut Vec<Said>,
    at: HeapLine,
    words: &[u64; 4],
) -> Result<(), AllocError>
    requires ready { MayGoOn core.old chip.old }
    ensures turned { OnOk result (CoreTurned (line_put chip.old.rank at words.now)
        core.old chip.old said.old.items core.new chip.new said.new.items) }
{
    flush(core, chip, said)?;
    store_line(core, chip, said, at, words)
}

/// The words of a line that is got, if the buffer is empty. No line is evicted.
fn get_line(core: &mut Core<Named>, chip: &mut TurnChip, at: HeapLine) -> [u64; 4]
    requires ready { MayGoOn core.old chip.old }
    requires empty { core.old.out ≡ None }
    ensures words { result ≡ line_in (memory_in chip.old) at }
    ensures lines { core.new.lines ≡ with_filled_line [] at (line_in (memory_in chip.old) at) }
    ensures memory { memory_in chip.new ≡ memory_in chip.old }
    ensures empty { core.new.out ≡ None }
    ensures ready { MayGoOn core.new chip.new }
    ensures kept { MadeHeapAccesses chip.old chip.new }
    ensures makes { all_events chip.new
        ≡ all_events chip.old ++ of_rank_all chip.old.rank (loads_of at result) }
{
    core.cl1invmb();
    let Loaded { words, left: _ } = load_line(core, chip, at, &None);
    words
}

/// Adds to `said` the words that a get returned.
fn say_got(
    said: &mut Vec<Said>,
    core: CoreId,
    at: HeapLine,
    words: &[u64; 4],
) -> Result<(), AllocError>
    ensures { OnOk result (said.new.items ≡ said.old.items ++ say_got core at words.now) }
{
    said.push(Said::Loads {
        core,
        line: at.line(),
        words: *words,
    })?;
    answer(said, at.word(0), words[0], Source::Words)?;
    answer(said, at.word(1), words[1], Source::Words)?;
    answer(said, at.word(2), words[2], Source::Words)?;
    answer(said, at.word(3), words[3], Source::Words)
}

/// Gets a whole line.
pub(crate) fn get(
    core: &mut Core<Named>,
    chip: &mut TurnChip,
    said: &mut Vec<Said>,
    at: HeapLine,
) -> Result<[u64; 4], AllocError>
    requires ready { MayGoOn core.old chip.old }
    ensures turned { OnOk result (CoreTurned (line_got chip.old.rank at)
        core.old chip.old said.old.items core.new chip.new said.new.items) }
    ensures answers { IfOk result (λ words. words ≡ line_in
        (after_flushing chip.old.rank (scene_of core.old chip.old said.old.items)).memory at) }
{
    flush(core, chip, said)?;
    let words = get_line(core, chip, at);
    say_got(said, own(chip), at, &words)?;
    Ok(words)
}

/// Adds to `said` the value that a read of a word returned.
pub(crate) fn answer(
    said: &mut Vec<Said>,
    at: HeapWord,
    value: u64,
    from: Source,
) -> Result<(), AllocError>
    ensures { OnOk result (said.new.items ≡ said.old.items ++ Answers at value from ∷ []) }
{
    said.push(Said::Answers {
        at: at.place(),
        value,
        from,
    })?;
    Ok(())
}

/// The rank at the core of a line.
fn owner_of(at: HeapLine) -> Rank
    ensures { result ≡ at.core }
{
    Rank::of(at.core().number())
}

/// The line as a buffer of one line.
fn buffer_of(at: HeapLine) -> Buf
    ensures { result ≡ record { first = at.line; lines = 1 } }
{
    match Buf::new(at.line().line(), 1) {
        Some(buffer) => buffer,
        None => unreachable!(),
    }
}
