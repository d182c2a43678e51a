//! The write-combining buffer does what a core's writes ask, in a few cases.

use scc_base::{CoreId, Line, Place};
use write_combine::{Combiner, Out};

fn word(core: u8, line: u8, word: u8) -> Place {
    let line = Line::new(CoreId::new(core).unwrap_or(CoreId::of(0)), line);
    line.word(word % 4)
}

fn joins(combiner: &mut Combiner, at: Place, value: u64) -> bool {
    combiner.write(at, value).is_none()
}

fn shows(out: &Option<Out>, line: u8, words: [u64; 4], mask: [bool; 4]) -> bool {
    match out {
        Some(out) => out.line.line() == line && out.words == words && out.mask == mask,
        None => false,
    }
}

const WRITES: &[(u8, u64)] = &[(0, 5), (3, 6), (0, 7)];

#[test]
fn words_of_one_line_join(rt: HostRuntime) {
    let mut combiner = Combiner::new();
    assert!(rt; combiner.is_empty());
    for &(at, value) in WRITES {
        assert!(rt; joins(&mut combiner, word(2, 113, at), value) && !combiner.is_empty());
    }
    let out = combiner.flush();
    assert!(rt; shows(&out, 113, [7, 0, 0, 6], [true, false, false, true]));
    assert!(rt; combiner.is_empty());
}

#[test]
fn another_line_hands_the_first_out(rt: HostRuntime) {
    let mut combiner = Combiner::new();
    assert!(rt; joins(&mut combiner, word(2, 113, 1), 5));
    let first = combiner.write(word(3, 113, 2), 6);
    assert!(rt; shows(&first, 113, [0, 5, 0, 0], [false, true, false, false]));
    let second = combiner.flush();
    assert!(rt; shows(&second, 113, [0, 0, 6, 0], [false, false, true, false]));
}

#[test]
fn a_flush_of_nothing_gives_nothing(rt: HostRuntime) {
    let mut combiner = Combiner::new();
    assert!(rt; combiner.flush().is_none() && combiner.is_empty());
}
