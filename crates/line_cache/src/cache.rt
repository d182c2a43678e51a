//! The cache of message passing lines.

ghost use Rattle.std.specs.Prelude.{◌≡◌};
ghost use Rattle.line_cache.specs.Lines.{IsPlaceOf};

use scc_base::{CoreId, Line, Place};
use std::marker::Model;

/// The number of lines that a cache holds at most.
const MOST_LINES: usize = 512;

/// A line that is held, with its four words.
#[derive(Clone, Copy)]
pub struct Entry {
    pub line: Line,
    pub words: [u64; 4],
}

/// Where a line of some number stood when it was last brought in, and in which pass that was.
#[derive(Clone, Copy)]
struct Mark {
    pass: u32,
    at: u16,
}

/// The lines that a core holds for itself, in the order in which they were brought in.
///
/// Nothing tells it that a held line changed at its core: what it holds may be old.
#[derive(Drop)]
pub struct Cache {
    // The lines stand first, and what stands behind them is of no account.
    entries: [Entry; 512],
    len: usize,
    // The mark of each line, by its number. A line whose mark is of another pass is not held.
    marks: [Mark; 256],
    // How often all lines were dropped. It may wrap: a mark of the same pass is no more than where to look first.
    pass: u32,
}

impl Model for Cache {
    ghost use Rattle.std.specs.Prelude.{List, take};
    ghost use Rattle.line_cache.specs.declared.cache.Entry.{Entry};
    ghost use Rattle.line_cache.specs.Lines.{IsMarked};

    ghost Value = { List Entry };

    ghost view = { λ c. take c.len c.entries };

    ghost invariant = { λ c. IsMarked c.entries c.len c.marks c.pass };
}

impl Cache {
    ghost use Rattle.std.specs.Prelude.{◌≡◌, ◌<◌, ◌==◌, [], None, length, remove};
    ghost use Rattle.line_cache.specs.Lines.{cached_words, with_filled_line, lines_with_word, line_noted, IsCache};

    /// Nothing is held.
    pub fn new() -> Cache
        ensures { result ≡ [] }
    {
        let line = Line::new(CoreId::of(0), 0);
        Cache {
            entries: [Entry {
                line,
                words: [0; 4],
            }; 512],
            len: 0,
            marks: [Mark { pass: 0, at: 0 }; 256],
            pass: 1,
        }
    }

    /// The number of lines held.
    #[inline(always)]
    pub fn len(&self) -> usize
        ensures value { result ≡ length self.now }
        ensures cache { IsCache self.now }
    {
        self.len
    }

    /// The lines that are held, in the order in which they were brought in.
    pub fn entries(&self) -> &[Entry]
        ensures lines { result.now ≡ self.now }
        ensures cache { IsCache self.now }
    {
        &self.entries[..self.len]
    }

    /// Whether nothing is held.
    #[inline(always)]
    pub fn is_empty(&self) -> bool
        ensures { result ≡ (length self.now == 0) }
    {
        self.len == 0
    }

    /// The place of a line, if it is held.
    #[inline(always)]
    fn find(&self, line: Line) -> Option<usize>
        ensures place { IsPlaceOf self.now line result }
        ensures cache { IsCache self.now }
    {
        let mark = self.marks[usize::from(line.line())];
        if mark.pass != self.pass {
            return None;
        }
        let at = usize::from(mark.at);
        if at < self.len && self.entries[at].line.is(line) {
            return Some(at);
        }
        search(&self.entries[..self.len], line)
    }

    /// The words that are held of a line.
    #[inline(always)]
    pub fn look(&self, line: Line) -> Option<[u64; 4]>
        ensures { result ≡ cached_words self.now line }
    {
        match self.find(line) {
            None => None,
            Some(at) => Some(self.entries[at].words),
        }
    }

    /// Brings a line in, behind the others. Where 512 are held the first leaves.
    #[inline]
    pub fn fill(&mut self, line: Line, words: [u64; 4])
        requires { cached_words self.old line ≡ None }
        ensures lines { self.new ≡ with_filled_line self.old line words }
        ensures cache { IsCache self.new }
    {
        if self.len == MOST_LINES {
            self.drop_at(0);
        }
        self.marks[usize::from(line.line())] = Mark {
            pass: self.pass,
            at: self.len as u16,
        };
        self.entries[self.len] = Entry { line, words };
        self.len += 1;
    }

    /// Notes a word that the core wrote, where its line is held.
    #[inline]
    pub fn note_write(&mut self, place: Place, value: u64)
        ensures lines { self.new ≡ lines_with_word self.old place value }
        ensures cache { IsCache self.new }
    {
        if let Some(at) = self.find(place.line_at()) {
            self.entries[at].words[usize::from(place.word())] = value;
        }
    }

    /// Notes the four words of a line that the core wrote, where it is held.
    #[inline]
    pub fn note_line(&mut self, line: Line, words: &[u64; 4])
        ensures lines { self.new ≡ line_noted self.old line words.now }
        ensures cache { IsCache self.new }
    {
        if let Some(_) = self.find(line) {
            self.note_write(line.word(0), words[0]);
            self.note_write(line.word(1), words[1]);
            self.note_write(line.word(2), words[2]);
            self.note_write(line.word(3), words[3]);
        }
    }

    /// Drops the entry at this place.
    #[inline]
    pub fn drop_at(&mut self, at: usize)
        requires { at < length self.old }
        ensures lines { self.new ≡ remove self.old at }
        ensures cache { IsCache self.new }
    {
        self.entries.copy_within(at + 1..self.len, at);
        self.len -= 1;
    }

    /// Drops all lines.
    #[inline]
    pub fn invalidate(&mut self)
        ensures { self.new ≡ [] }
    {
        self.len = 0;
        self.pass = self.pass.wrapping_add(1);
    }
}

/// The place of the entry of a line.
///
/// A core reads the words of a line one after another, so the line is mostly the newest: the search goes from
/// the last entry back.
fn search(entries: &[Entry], line: Line) -> Option<usize>
    ensures { IsPlaceOf entries.now line result }
{
    for i in (0..entries.len()).rev() {
        if entries[i].line.is(line) {
            return Some(i);
        }
    }
    None
}
