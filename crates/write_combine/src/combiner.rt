//! The one-line buffer.

use scc_base::{Line, Place};
use std::marker::Model;

/// A line on its way out: its words, and which of them were written. A word that was not written is 0 here
/// and is not stored.
#[derive(Drop)]
pub struct Out {
    pub words: [u64; 4],
    pub mask: [bool; 4],
    pub line: Line,
}

impl Out {
    ghost use Rattle.std.specs.Prelude.{◌≡◌};
    ghost use Rattle.write_combine.specs.Combining.{one_word};

    fn new(place: Place, value: u64) -> Out
        ensures { result ≡ one_word place value }
    {
        let word = usize::from(place.word());
        let mut words = [0; 4];
        let mut mask = [false; 4];
        words[word] = value;
        mask[word] = true;
        Out {
            line: place.line_at(),
            words,
            mask,
        }
    }
}

/// The buffer: it holds nothing, or one line of which some word was written.
#[derive(Drop)]
pub struct Combiner {
    held: Option<Out>,
}

impl Model for Combiner {
    ghost use Rattle.std.specs.Prelude.{Option};
    ghost use Rattle.write_combine.specs.declared.combiner.Out.{Out};
    ghost use Rattle.write_combine.specs.Combining.{HoldsWord};

    ghost Value = { Option Out };

    ghost view = { λ c. c.held };

    ghost invariant = { λ c. HoldsWord c.held };
}

impl Combiner {
    ghost use Rattle.std.specs.Prelude.{◌≡◌, Some, None, is_none};
    ghost use Rattle.scc_base.specs.Places.{line_of_word};
    ghost use Rattle.write_combine.specs.Combining.{handed_out, held_after, whole_line, HoldsWord};

    /// It holds nothing.
    pub fn new() -> Combiner
        ensures { result ≡ None }
    {
        Combiner { held: None }
    }

    /// Whether nothing is held.
    #[inline(always)]
    pub fn is_empty(&self) -> bool
        ensures { result ≡ is_none self.now }
    {
        self.held.is_none()
    }

    /// The line that is held.
    pub fn held(&self) -> &Option<Out>
        ensures held { result.now ≡ self.now }
        ensures some_word { HoldsWord self.now }
    {
        &self.held
    }

    /// Notes a word that a core wrote, and hands out the line that was held before if it is another one.
    #[inline]
    pub fn write(&mut self, place: Place, value: u64) -> Option<Out>
        ensures out { result ≡ handed_out self.old (line_of_word place) }
        ensures held { self.new ≡ Some (held_after self.old place value) }
        ensures some_word { HoldsWord self.new }
    {
        if let Some(out) = &mut self.held {
            if out.line.is(place.line_at()) {
                let word = usize::from(place.word());
                out.words[word] = value;
                out.mask[word] = true;
                return None;
            }
        }
        std::mem::replace(&mut self.held, Some(Out::new(place, value)))
    }

    /// Notes the four words of a line that a core wrote, and hands out the line that was held before if it is
    /// another one.
    #[inline]
    pub fn write_line(&mut self, line: Line, words: &[u64; 4]) -> Option<Out>
        ensures out { result ≡ handed_out self.old line }
        ensures held { self.new ≡ Some (whole_line line words.now) }
        ensures some_word { HoldsWord self.new }
    {
        let whole = Out {
            line,
            words: *words,
            mask: [true; 4],
        };
        if let Some(out) = &mut self.held {
            if out.line.is(line) {
                *out = whole;
                return None;
            }
        }
        std::mem::replace(&mut self.held, Some(whole))
    }

    /// Hands out what is held. Nothing is held afterwards.
    #[inline]
    pub fn flush(&mut self) -> Option<Out>
        ensures out { result ≡ self.old }
        ensures held { self.new ≡ None }
        ensures some_word { HoldsWord result }
    {
        if self.held.is_none() {
            return None;
        }
        self.held.take()
    }
}
