//! The reads of the core that runs.

ghost use Rattle.std.specs.Prelude.{◌≡◌, ◌==◌, ◌++◌, if◌then◌else◌, drop, ℕ, List, OnOk, IfOk, Some, None, length, slice_index};
ghost use Rattle.std.specs.Option.{unwrap_or};
ghost use Rattle.scc_base.specs.Places.{line_of_word};
ghost use Rattle.line_cache.specs.Lines.{IsPlaceOf, with_filled_line, cached_words};
ghost use Rattle.lab_plain.specs.Scenes.{answer, waiting_word, line_answer, line_in, line_read, say_left, word_fetched, word_loaded, word_read};
ghost use Rattle.lab_run.specs.Evicting.{IsPlaceIn};
ghost use Rattle.lab_run.specs.Loads.{LoadsLine};
ghost use Rattle.lab_run.specs.Turns.{MayGoOn, CoreTurned, memory_in, scene_of};

use crate::evictor::Named;
use crate::moves::{answer, own};
use chip_memory::TurnChip;
use lab_plain::{Said, Source};
use lab_reader::{HeapLine, HeapWord};
use line_cache::Entry;
use put_get::Core;
use scc_base::Line;
use std::alloc::AllocError;

/// The words of a loaded line, and whether the line that the evictor named left.
#[derive(Clone, Copy)]
pub(crate) struct Loaded {
    pub(crate) words: [u64; 4],
    pub(crate) left: bool,
}

/// The most lines that a cache holds.
const MOST_LINES: usize = 512;

/// The word in the write-combining buffer, if it was written there.
fn buffered_word(core: &Core<Named>, at: HeapWord) -> Option<u64>
    ensures { result ≡ waiting_word core.now.out at }
{
    match core.buffered() {
        Some(out) => {
            let word = at.number() as usize;
            if out.line.is(at.line().line()) && out.mask[word] {
                Some(out.words[word])
            } else {
                None
            }
        }
        None => None,
    }
}

/// The place of a line among cached lines.
fn place_of(entries: &[Entry], line: Line) -> Option<usize>
    ensures { IsPlaceOf entries.now line result }
{
    for at in (0..entries.len()).rev() {
        if entries[at].line.is(line) {
            return Some(at);
        }
    }
    None
}

/// The cached lines that stay when another one is brought in: in a full cache all except the first.
fn front_of(entries: &[Entry]) -> &[Entry]
    ensures { result.now ≡ (if length entries.now == 512 then drop 1 entries.now else entries.now) }
{
    if entries.len() == MOST_LINES {
        &entries[1..]
    } else {
        entries
    }
}

/// The place of a line after another one was brought in.
fn place_after(entries: &[Entry], new: Line, line: Line) -> Option<usize>
    ensures { (words : List ℕ) → IsPlaceOf (with_filled_line entries.now new words) line result }
{
    let front = front_of(entries);
    if line.is(new) {
        Some(front.len())
    } else {
        place_of(front, line)
    }
}

/// The place of the line that an evictor names, after this one was brought in.
fn leaving(entries: &[Entry], new: Line, evict: &Option<HeapLine>) -> Option<usize>
    ensures { (words : List ℕ) → IsPlaceIn evict.now (with_filled_line entries.now new words) result }
{
    match evict {
        Some(evict) => place_after(entries, new, evict.line()),
        None => None,
    }
}

/// Loads the words of a line that is not cached. The named line leaves, if it is cached then.
pub(crate) fn load_line(
    core: &mut Core<Named>,
    chip: &mut TurnChip,
    at: HeapLine,
    evict: &Option<HeapLine>,
) -> Loaded
    requires ready { MayGoOn core.old chip.old }
    requires new { cached_words core.old.lines at ≡ None }
    ensures loads { LoadsLine evict.now core.old chip.old at result core.new chip.new }
{
    let leaves = leaving(core.lines(), at.line(), evict);
    let _ = core.evict_by(Named::new(leaves));
    let words = core.fetch(chip, at.line());
    chip.tells();
    Loaded {
        words,
        left: leaves.is_some(),
    }
}

/// Adds to `said` that the named line left the cache, if it did.
fn say_evicted(said: &mut Vec<Said>, evict: &Option<HeapLine>, left: bool) -> Result<(), AllocError>
    ensures { OnOk result (said.new.items ≡ said.old.items ++ say_left evict.now left) }
{
    if let Some(evict) = evict {
        if left {
            said.push(Said::Evicted(evict.line()))?;
        }
    }
    Ok(())
}

/// Reads a word whose line is not cached.
fn load_word(
    core: &mut Core<Named>,
    chip: &mut TurnChip,
    said: &mut Vec<Said>,
    at: HeapWord,
    evict: &Option<HeapLine>,
) -> Result<u64, AllocError>
    requires ready { MayGoOn core.old chip.old }
    requires new { cached_words core.old.lines (line_of_word at) ≡ None }
    ensures turned { OnOk result (CoreTurned (word_loaded chip.old.rank at evict.now)
        core.old chip.old said.old.items core.new chip.new said.new.items) }
    ensures answers { IfOk result (λ v. v ≡ slice_index (line_in (memory_in chip.old) (line_of_word at)) at.word) }
{
    let Loaded { words, left } = load_line(core, chip, at.line(), evict);
    let value = words[at.number() as usize];
    said.push(Said::Loads {
        core: own(chip),
        line: at.line().line(),
        words,
    })?;
    answer(said, at, value, Source::Words)?;
    say_evicted(said, evict, left)?;
    Ok(value)
}

/// Reads a word that is not in the buffer.
fn fetch_word(
    core: &mut Core<Named>,
    chip: &mut TurnChip,
    said: &mut Vec<Said>,
    at: HeapWord,
    evict: &Option<HeapLine>,
) -> Result<u64, AllocError>
    requires ready { MayGoOn core.old chip.old }
    ensures turned { OnOk result (CoreTurned (λ s. word_fetched chip.old.rank at evict.now s (cached_words s.lines (line_of_word at)))
        core.old chip.old said.old.items core.new chip.new said.new.items) }
    ensures answers { IfOk result (λ v. v ≡ slice_index (unwrap_or (cached_words core.old.lines (line_of_word at))
        (line_in (memory_in chip.old) (line_of_word at))) at.word) }
{
    let line = at.line().line();
    if place_of(core.lines(), line).is_none() {
        return load_word(core, chip, said, at, evict);
    }
    let words = core.fetch(chip, line);
    let value = words[at.number() as usize];
    answer(said, at, value, Source::Cache)?;
    Ok(value)
}

/// Reads a word.
pub(crate) fn read_word(
    core: &mut Core<Named>,
    chip: &mut TurnChip,
    said: &mut Vec<Said>,
    at: HeapWord,
    evict: &Option<HeapLine>,
) -> Result<u64, AllocError>
    requires ready { MayGoOn core.old chip.old }
    ensures turned { OnOk result (CoreTurned (word_read chip.old.rank at evict.now)
        core.old chip.old said.old.items core.new chip.new said.new.items) }
    ensures answers { IfOk result (λ v. v ≡ answer at (scene_of core.old chip.old said.old.items)) }
{
    match buffered_word(core, at) {
        Some(value) => {
            answer(said, at, value, Source::BufferLine)?;
            Ok(value)
        }
        None => fetch_word(core, chip, said, at, evict),
    }
}

/// Reads the four words of a line, one after the other.
pub(crate) fn read_line(
    core: &mut Core<Named>,
    chip: &mut TurnChip,
    said: &mut Vec<Said>,
    at: HeapLine,
    evict: &Option<HeapLine>,
) -> Result<[u64; 4], AllocError>
    requires ready { MayGoOn core.old chip.old }
    ensures turned { OnOk result (CoreTurned (line_read chip.old.rank at evict.now)
        core.old chip.old said.old.items core.new chip.new said.new.items) }
    ensures answers { IfOk result (λ words. words ≡ line_answer chip.old.rank at evict.now (scene_of core.old chip.old said.old.items)) }
{
    let first = read_word(core, chip, said, at.word(0), evict)?;
    let second = read_word(core, chip, said, at.word(1), evict)?;
    let third = read_word(core, chip, said, at.word(2), evict)?;
    let fourth = read_word(core, chip, said, at.word(3), evict)?;
    Ok([first, second, third, fourth])
}
