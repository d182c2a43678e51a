//! The lines that a core holds, and evictors, with values from an independent program.

use line_cache::{Always, Cache, Choice, Evict, Never, Seeded};
use scc_base::{CoreId, Line};
use std::process::Abort;

fn line(core: u8, line: u8) -> Line {
    Line::new(CoreId::new(core).unwrap_or(CoreId::of(0)), line)
}

/// Brings a line in, with its number as each word.
fn bring(cache: &mut Cache, at: Line, number: u64) {
    if cache.look(at).is_none() {
        cache.fill(at, [number; 4]);
    }
}

/// Brings each line of a core in; each word of a line has one number, which increases by one from line to line.
fn bring_all(cache: &mut Cache, core: u8, first: u16) {
    for number in 0..=255u8 {
        bring(
            cache,
            line(core, number),
            u64::from(first) + u64::from(number),
        );
    }
}

fn holds(cache: &Cache, at: Line, words: [u64; 4]) -> bool {
    cache.look(at) == Some(words)
}

fn lacks(cache: &Cache, at: Line) -> bool {
    cache.look(at).is_none()
}

#[test]
fn a_full_cache_drops_its_first_entry(rt: HostRuntime) {
    let mut cache = Cache::new();
    bring_all(&mut cache, 0, 0);
    bring_all(&mut cache, 1, 256);
    assert!(rt; cache.len() == 512 && holds(&cache, line(0, 0), [0; 4]));
    bring(&mut cache, line(2, 0), 512);
    assert!(rt; cache.len() == 512 && lacks(&cache, line(0, 0)));
    assert!(rt; holds(&cache, line(0, 1), [1; 4]) && holds(&cache, line(2, 0), [512; 4]));
}

#[test]
fn a_write_changes_a_held_line_and_brings_none_in(rt: HostRuntime) {
    let mut cache = Cache::new();
    bring(&mut cache, line(3, 40), 7);
    bring(&mut cache, line(3, 41), 8);
    cache.note_write(line(3, 41).word(2), 99);
    cache.note_write(line(4, 41).word(2), 99);
    let written = [8, 8, 99, 8];
    assert!(rt; holds(&cache, line(3, 40), [7; 4]) && holds(&cache, line(3, 41), written));
    assert!(rt; lacks(&cache, line(4, 41)) && cache.len() == 2);
    cache.drop_at(0);
    assert!(rt; lacks(&cache, line(3, 40)) && holds(&cache, line(3, 41), written));
    cache.invalidate();
    assert!(rt; cache.is_empty());
}

/// Asks an evictor ten times, with a full cache.
fn ten_answers<V: Evict>(rt: &impl Abort, evict: &mut V, want: [Option<usize>; 10]) {
    for answer in want {
        assert!(rt; evict.drop_one(512) == answer);
    }
}

// A separate program in C, written apart from line_cache, computed the answers. It expands the seed to 16 bytes as the crate rand_core
// does: four steps of a PCG, each word with its lowest byte first. It starts PCG XSH RR 64/32 from these bytes as state and increment. Each
// word that is a multiple of 4 gives the quotient modulo 512, each other word nothing.
#[test]
fn seeded_answers_are_those_of_an_independent_program(rt: HostRuntime) {
    let mut first = Seeded::new(1);
    ten_answers(
        &rt,
        &mut first,
        [
            None,
            None,
            None,
            Some(112),
            None,
            Some(442),
            Some(462),
            Some(368),
            Some(373),
            Some(230),
        ],
    );
    let mut second = Choice::Seeded(Seeded::new(7));
    ten_answers(
        &rt,
        &mut second,
        [
            None,
            None,
            None,
            Some(177),
            Some(239),
            None,
            Some(393),
            Some(328),
            None,
            Some(66),
        ],
    );
}

/// Whether an evictor returns this answer at one held line and at a full cache, and evicts nothing if no line is held.
fn always_answers<V: Evict>(evict: &mut V, want: Option<usize>) -> bool {
    evict.drop_one(0).is_none() && evict.drop_one(1) == want && evict.drop_one(512) == want
}

#[test]
fn evictors_of_one_answer(rt: HostRuntime) {
    assert!(rt; always_answers(&mut Never, None));
    assert!(rt; always_answers(&mut Choice::Never, None));
    assert!(rt; always_answers(&mut Always::new(), Some(0)));
}
