//! Places in the message passing buffers: lines, words, flags and runs of heap lines.

use crate::names::CoreId;
use std::marker::Model;

/// A line of a core's message passing buffer: 32 bytes, one of 256 (SCC External Architecture Specification).
#[derive(Clone, Copy, PartialEq, Eq)]
pub struct Line {
    core: u8,
    line: u8,
}

impl Model for Line {
    ghost use Rattle.std.specs.Prelude.{◌<◌};
    ghost use Rattle.scc_base.specs.Places.{LineAt};

    ghost Value = { LineAt };

    ghost view = { λ a. record { core = a.core; line = a.line } };

    ghost invariant = { λ a. a.core < 48 };

    ghost inverse = { λ v. record { core = v.core; line = v.line } };
}

impl Line {
    ghost use Rattle.std.specs.Prelude.{◌≡◌, ◌<◌};
    ghost use Rattle.scc_base.specs.Places.{IsLine, same_line, word_of_line};

    pub fn new(core: CoreId, line: u8) -> Line
        ensures gives { result ≡ record { core = core; line = line } }
    {
        Line {
            core: core.number(),
            line,
        }
    }

    pub fn core(self) -> CoreId
        ensures gives { result ≡ self.core }
    {
        CoreId::of(self.core)
    }

    /// The line's number in its core's buffer.
    pub fn line(self) -> u8
        ensures gives { result ≡ self.line }
        ensures valid { IsLine self }
    {
        self.line
    }

    /// Whether this is that line.
    pub fn is(self, other: Line) -> bool
        ensures tells { result ≡ same_line self other }
    {
        self.core == other.core && self.line == other.line
    }

    /// One of the line's four words, each of 8 bytes.
    pub fn word(self, word: u8) -> Place
        requires below { word < 4 }
        ensures gives { result ≡ word_of_line self word }
    {
        Place {
            core: self.core,
            line: self.line,
            word,
        }
    }
}

/// A word of 64 bits of a core's message passing buffer. Word w of a line holds its bytes 8w to 8w + 7,
/// the lowest first. (That a line moves word by word is this project's profile.)
#[derive(Clone, Copy, Debug, PartialEq, Eq)]
pub struct Place {
    core: u8,
    line: u8,
    word: u8,
}

impl Model for Place {
    ghost use Rattle.std.specs.Prelude.{◌<◌};
    ghost use Rattle.scc_base.specs.Places.{WordAt};

    ghost Value = { WordAt };

    ghost view = { λ a. record { core = a.core; line = a.line; word = a.word } };

    ghost invariant = { λ a. (a.core < 48) × (a.word < 4) };

    ghost inverse = { λ v. record { core = v.core; line = v.line; word = v.word } };
}

impl Place {
    ghost use Rattle.std.specs.Prelude.{◌≡◌, ◌<◌};
    ghost use Rattle.scc_base.specs.Places.{IsPlace, line_of_word, register_place};

    pub fn new(core: CoreId, line: u8, word: u8) -> Place
        requires below { word < 4 }
        ensures gives { result ≡ record { core = core; line = line; word = word } }
    {
        Place {
            core: core.number(),
            line,
            word,
        }
    }

    /// The place that stands for a core's test-and-set register in an event.
    pub fn register(core: CoreId) -> Place
        ensures gives { result ≡ register_place core }
    {
        Place::new(core, 0, 0)
    }

    pub fn core(self) -> CoreId
        ensures gives { result ≡ self.core }
    {
        CoreId::of(self.core)
    }

    /// The number of the place's line in its core's buffer.
    pub fn line(self) -> u8
        ensures gives { result ≡ self.line }
        ensures valid { IsPlace self }
    {
        self.line
    }

    /// The number of the word in its line.
    pub fn word(self) -> u8
        ensures gives { result ≡ self.word }
        ensures valid { IsPlace self }
    {
        self.word
    }

    /// The line in which the word lies.
    pub fn line_at(self) -> Line
        ensures gives { result ≡ line_of_word self }
    {
        Line {
            core: self.core,
            line: self.line,
        }
    }
}

/// A flag at any core: a word of a line (a line flag), or one bit of such a word (a bit flag).
#[derive(Clone, Copy, PartialEq, Eq)]
pub struct FlagAt {
    line: u8,
    word: u8,
    bit: Option<u8>,
}

impl Model for FlagAt {
    ghost use Rattle.std.specs.Prelude.{◌<◌, IfSome};
    ghost use Rattle.scc_base.specs.Places.{FlagPlace};

    ghost Value = { FlagPlace };

    ghost view = { λ a. record { line = a.line; word = a.word; bit = a.bit } };

    ghost invariant = { λ a. (a.word < 4) × IfSome a.bit (λ b. b < 64) };

    ghost inverse = { λ v. record { line = v.line; word = v.word; bit = v.bit } };
}

impl FlagAt {
    ghost use Rattle.std.specs.Prelude.{◌≡◌, ◌<◌, ◌≤◌, Some, None, IfSome};
    ghost use Rattle.scc_base.specs.Places.{IsFlagPlace, first_heap, flag_word};

    pub fn new(line: u8, word: u8, bit: Option<u8>) -> FlagAt
        requires word_below { word < 4 }
        requires bit_below { IfSome bit (λ b. b < 64) }
        ensures gives { result ≡ record { line = line; word = word; bit = bit } }
    {
        FlagAt { line, word, bit }
    }

    /// The flag that has the buffer's first line for itself: word 0 of that line.
    pub fn line(buffer: &Buf) -> FlagAt
        ensures gives { result ≡ record { line = buffer.now.first; word = 0; bit = None } }
        ensures heap { first_heap ≤ result.line }
    {
        FlagAt::new(buffer.first(), 0, None)
    }

    /// One of the 64 flags that share word 0 of the buffer's first line.
    pub fn bit(buffer: &Buf, i: u8) -> FlagAt
        requires below { i < 64 }
        ensures gives { result ≡ record { line = buffer.now.first; word = 0; bit = Some i } }
        ensures heap { first_heap ≤ result.line }
    {
        FlagAt::new(buffer.first(), 0, Some(i))
    }

    /// The number of the line in which the flag lies.
    pub fn line_number(self) -> u8
        ensures gives { result ≡ self.line }
        ensures valid { IsFlagPlace self }
    {
        self.line
    }

    /// The number of its word in that line.
    pub fn word(self) -> u8
        ensures gives { result ≡ self.word }
        ensures valid { IsFlagPlace self }
    {
        self.word
    }

    /// The number of its bit in that word; None for a flag that is the whole word.
    pub fn bit_number(self) -> Option<u8>
        ensures gives { result ≡ self.bit }
        ensures below { IfSome result (λ b. b < 64) }
        ensures valid { IsFlagPlace self }
    {
        self.bit
    }

    /// The word that holds this flag at a core.
    #[inline]
    pub fn place(self, core: CoreId) -> Place
        ensures gives { result ≡ flag_word core self }
        ensures below { self.word < 4 }
    {
        Place::new(core, self.line, self.word)
    }
}

/// A run of at least one heap line, at the same numbers on every core (RCCE's symmetric allocation).
#[derive(Clone, Copy, PartialEq, Eq)]
pub struct Buf {
    first: u8,
    lines: u8,
}

impl Model for Buf {
    ghost use Rattle.scc_base.specs.Places.{LineRun, IsBuf};

    ghost Value = { LineRun };

    ghost view = { λ a. record { first = a.first; lines = a.lines } };

    ghost invariant = { λ a. IsBuf (record { first = a.first; lines = a.lines }) };

    ghost inverse = { λ v. record { first = v.first; lines = v.lines } };
}

impl Buf {
    ghost use Rattle.std.specs.Prelude.{◌≡◌, SomeIff};
    ghost use Rattle.scc_base.specs.Places.{IsBuf};

    /// The first heap line.
    pub const FIRST: u8 = 225;

    /// The number of heap lines.
    pub const MOST: u8 = 31;

    pub fn new(first: u8, lines: u8) -> Option<Buf>
        ensures gives { SomeIff result
            (IsBuf (record { first = first; lines = lines }))
            (record { first = first; lines = lines }) }
    {
        if lines >= 1 && first >= Buf::FIRST && first as u16 + lines as u16 <= 256 {
            Some(Buf { first, lines })
        } else {
            None
        }
    }

    /// The number of the run's first line.
    pub fn first(self) -> u8
        ensures gives { result ≡ self.first }
        ensures valid { IsBuf self }
    {
        self.first
    }

    /// The number of lines.
    pub fn lines(self) -> u8
        ensures gives { result ≡ self.lines }
        ensures valid { IsBuf self }
    {
        self.lines
    }
}
