//! Lines and words of the heap, as a lab names them.

use scc_base::{Buf, CoreId, Line, Place};
use std::marker::Model;

/// The number of the first heap line in a core's buffer.
const FIRST: u8 = Buf::FIRST;

/// A line of the heap of a core's buffer. Its lines 225 to 255 have the numbers 0 to 30 in a lab.
#[derive(Clone, Copy)]
pub struct HeapLine {
    core: u8,
    line: u8,
}

impl Model for HeapLine {
    ghost use Rattle.scc_base.specs.Places.{LineAt};
    ghost use Rattle.lab_reader.specs.Places.{IsInHeap};

    ghost Value = { LineAt };

    ghost view = { λ a. record { core = a.core; line = a.line } };

    ghost invariant = { λ a. IsInHeap (record { core = a.core; line = a.line }) };

    ghost inverse = { λ v. record { core = v.core; line = v.line } };
}

impl HeapLine {
    ghost use Rattle.std.specs.Prelude.{◌≡◌, ◌<◌, ◌≤◌};
    ghost use Rattle.scc_base.specs.Places.{word_of_line};
    ghost use Rattle.lab_reader.specs.Places.{IsInHeap, heap_line, heap_number};

    /// The heap line of this number, from 0 to 30.
    pub fn new(core: CoreId, number: u8) -> HeapLine
        requires within { number ≤ 30 }
        ensures gives { result ≡ heap_line core number }
    {
        HeapLine {
            core: core.number(),
            line: FIRST + number,
        }
    }

    pub fn core(self) -> CoreId
        ensures gives { result ≡ self.core }
    {
        CoreId::of(self.core)
    }

    /// The number of the line in a lab, from 0 to 30.
    pub fn number(self) -> u8
        ensures gives { result ≡ heap_number self }
        ensures valid { IsInHeap self }
    {
        self.line - FIRST
    }

    /// The line in the core's buffer.
    pub fn line(self) -> Line
        ensures gives { result ≡ self }
        ensures valid { IsInHeap self }
    {
        Line::new(CoreId::of(self.core), self.line)
    }

    /// One of the line's four words.
    pub fn word(self, word: u8) -> HeapWord
        requires below { word < 4 }
        ensures gives { result ≡ word_of_line self word }
    {
        HeapWord { line: self, word }
    }
}

/// A word of a heap line.
#[derive(Clone, Copy)]
pub struct HeapWord {
    line: HeapLine,
    word: u8,
}

impl Model for HeapWord {
    ghost use Rattle.std.specs.Prelude.{◌<◌};
    ghost use Rattle.scc_base.specs.Places.{WordAt, line_of_word, word_of_line};

    ghost Value = { WordAt };

    ghost view = { λ a. word_of_line a.line a.word };

    ghost invariant = { λ a. a.word < 4 };

    ghost inverse = { λ v. record { line = line_of_word v; word = v.word } };
}

impl HeapWord {
    ghost use Rattle.std.specs.Prelude.{◌≡◌, ◌<◌};
    ghost use Rattle.scc_base.specs.Places.{line_of_word};
    ghost use Rattle.lab_reader.specs.Places.{IsInHeap};

    /// The heap line that has the word.
    pub fn line(self) -> HeapLine
        ensures gives { result ≡ line_of_word self }
    {
        self.line
    }

    /// The number of the word in its line, from 0 to 3.
    pub fn number(self) -> u8
        ensures gives { result ≡ self.word }
        ensures valid { IsInHeap (line_of_word self) × (self.word < 4) }
    {
        self.word
    }

    /// The word's place in the core's buffer.
    pub fn place(self) -> Place
        ensures gives { result ≡ self }
    {
        self.line.line().word(self.word)
    }
}
