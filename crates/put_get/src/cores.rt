//! A core: its cache, its write-combining buffer and its evictor.

use crate::accesses::{load_line, store_out};
use line_cache::{Cache, Entry, Evict};
use scc_base::{Line, Place};
use scc_proto::Port;
use std::marker::Model;
use write_combine::{Combiner, Out};

/// What a core has for itself between it and the shared words.
///
/// It is seen as the lines in its cache, the line in its write-combining buffer, the number of lines that
/// its evictor had dropped, how often its evictor was asked, and what that answers now. Reads go through the cache: what it holds may be old until `cl1invmb`.
/// Writes wait in the buffer until another line is written or `flush`.
#[derive(Drop)]
pub struct Core<V: Evict> {
    cache: Cache,
    combiner: Combiner,
    evict: V,
}

impl<V: Evict> Model for Core<V> {
    ghost use Rattle.put_get.specs.Cores.{Private, IsCore};

    ghost Value = { Private };

    ghost view = { λ s. record {
      lines = s.cache;
      out = s.combiner;
      evictions = V.count s.evict;
      asked = V.asked s.evict;
      answers = V.answers s.evict;
    } };

    ghost invariant = { λ s. IsCore s.cache s.combiner };
}

impl<V: Evict> Core<V> {
    ghost use Rattle.std.specs.Prelude.{◌≡◌, ◌↔◌, ℕ, List, [], ◌∷◌, ◌++◌, Some, None, IsTrue, true};
    ghost use Rattle.scc_base.specs.Places.{line_of_word};
    ghost use Rattle.scc_base.specs.Events.{store_of};
    ghost use Rattle.scc_base.specs.declared.events.Event.{Event};
    ghost use Rattle.scc_proto.specs.Ports.{MayMakeAll, record_in};
    ghost use Rattle.line_cache.specs.Lines.{cached_words};
    ghost use Rattle.write_combine.specs.Combining.{handed_out};
    ghost use Rattle.put_get.specs.Accesses.{stores_of};
    ghost use Rattle.put_get.specs.Cores.{Private, IsCore, Fills, Fetch, ReadsWord, ReadsLine, Writes, WritesThrough, WritesLine, Flushes, MadeSteps};

    /// A core that holds nothing.
    pub fn new(evict: V) -> Core<V>
        ensures { result ≡ record {
          lines = [];
          out = None;
          evictions = V.count evict;
          asked = V.asked evict;
          answers = V.answers evict;
        } }
    {
        Core {
            cache: Cache::new(),
            combiner: Combiner::new(),
            evict,
        }
    }

    /// Whether the write-combining buffer holds nothing, as reads, put and get ask for.
    #[inline(always)]
    pub fn is_flushed(&self) -> bool
        ensures empty { IsTrue result ↔ (self.now.out ≡ None) }
        ensures valid { IsCore self.now.lines self.now.out }
    {
        self.combiner.is_empty()
    }

    /// The lines in the cache, in the order in which they were brought in.
    pub fn lines(&self) -> &[Entry]
        ensures lines { result.now ≡ self.now.lines }
        ensures valid { IsCore self.now.lines self.now.out }
    {
        self.cache.entries()
    }

    /// The line in the write-combining buffer.
    pub fn buffered(&self) -> &Option<Out>
        ensures buffered { result.now ≡ self.now.out }
        ensures valid { IsCore self.now.lines self.now.out }
    {
        self.combiner.held()
    }

    /// Asks this evictor from now on, and hands back the one before.
    pub fn evict_by(&mut self, evict: V) -> V
        ensures asks { self.new ≡ record self.old {
          evictions = V.count evict;
          asked = V.asked evict;
          answers = V.answers evict;
        } }
        ensures back { V.count result ≡ self.old.evictions }
    {
        std::mem::replace(&mut self.evict, evict)
    }

    /// Drops all cached lines, as the instruction CL1INVMB does.
    #[inline(always)]
    pub fn cl1invmb(&mut self)
        ensures { self.new ≡ record self.old { lines = [] } }
    {
        self.cache.invalidate();
    }

    /// Brings a line in. Then the evictor is asked once, and the entry that it names leaves. Whether it named none.
    #[inline(always)]
    fn bring(&mut self, line: Line, words: [u64; 4]) -> bool
        requires { cached_words self.old.lines line ≡ None }
        ensures fills { Fills self.old line words self.new }
        ensures kept { result ≡ true → self.new.evictions ≡ self.old.evictions }
    {
        self.cache.fill(line, words);
        let held = self.cache.len();
        if let Some(at) = self.evict.drop_one(held) {
            self.cache.drop_at(at);
            return false;
        }
        true
    }

    /// The words of a line, from the cache where it is held there. What waits in the write-combining buffer is not looked at.
    #[inline]
    pub fn fetch<P: Port>(&mut self, port: &mut P, line: Line) -> [u64; 4]
        ensures fetch { Fetch (P.sight port.old) self.old line result (P.sight port.new) self.new }
        ensures steps { MadeSteps P.stepped (P.sight port.old) (P.sight port.new) }
    {
        if let Some(words) = self.cache.look(line) {
            return words;
        }
        let words = load_line(port, line);
        self.bring(line, words);
        words
    }

    /// Reads a word.
    #[inline]
    pub fn word_read<P: Port>(&mut self, port: &mut P, place: Place) -> u64
        requires empty { self.old.out ≡ None }
        ensures reads { ReadsWord (P.sight port.old) self.old place result (P.sight port.new) self.new }
        ensures steps { MadeSteps P.stepped (P.sight port.old) (P.sight port.new) }
    {
        let words = self.fetch(port, place.line_at());
        words[usize::from(place.word())]
    }

    /// Drops all cached lines and reads a word. Its line is loaded, with no search for it.
    #[inline(always)]
    pub fn fresh_word<P: Port>(&mut self, port: &mut P, place: Place) -> u64
        requires empty { self.old.out ≡ None }
        ensures reads { ReadsWord (P.sight port.old) (record self.old { lines = [] }) place result (P.sight port.new) self.new }
        ensures steps { MadeSteps P.stepped (P.sight port.old) (P.sight port.new) }
    {
        self.cl1invmb();
        let line = place.line_at();
        let loaded = load_line(port, line);
        self.bring(line, loaded);
        loaded[usize::from(place.word())]
    }

    /// Reads the four words of a line, in order.
    #[inline(always)]
    pub fn line_read<P: Port>(&mut self, port: &mut P, line: Line) -> [u64; 4]
        requires empty { self.old.out ≡ None }
        ensures reads { ReadsLine (P.sight port.old) self.old line result (P.sight port.new) self.new }
        ensures steps { MadeSteps P.stepped (P.sight port.old) (P.sight port.new) }
    {
        if let Some(words) = self.cache.look(line) {
            return words;
        }
        let words = load_line(port, line);
        let kept = self.bring(line, words);
        if kept {
            return words;
        }
        let second = self.word_read(port, line.word(1));
        let third = self.word_read(port, line.word(2));
        let fourth = self.word_read(port, line.word(3));
        [words[0], second, third, fourth]
    }

    /// Writes a word. What the buffer hands out is stored.
    pub fn word_write<P: Port>(&mut self, port: &mut P, place: Place, value: u64)
        requires permitted { MayMakeAll (P.sight port.old).seat (record_in (P.sight port.old))
            (stores_of (handed_out self.old.out (line_of_word place))) }
        ensures writes { Writes (P.sight port.old) self.old place value (P.sight port.new) self.new }
        ensures steps { MadeSteps P.stepped (P.sight port.old) (P.sight port.new) }
    {
        self.cache.note_write(place, value);
        let out = self.combiner.write(place, value);
        store_out(port, &out);
    }

    /// Stores what the buffer holds, and then a word of another line, which is noted in the cache. The buffer holds
    /// nothing afterwards.
    #[inline(always)]
    pub fn word_write_through<P: Port>(&mut self, port: &mut P, place: Place, word: u64)
        requires other { handed_out self.old.out (line_of_word place) ≡ self.old.out }
        requires permitted { MayMakeAll (P.sight port.old).seat (record_in (P.sight port.old)) (stores_of self.old.out
            ++ store_of place word ∷ []) }
        ensures writes { WritesThrough (P.sight port.old) self.old place word (P.sight port.new) self.new }
        ensures steps { MadeSteps P.stepped (P.sight port.old) (P.sight port.new) }
    {
        self.cache.note_write(place, word);
        let before = self.combiner.flush();
        store_out(port, &before);
        port.store(place, word);
    }

    /// Writes the four words of a line that is not the one in the buffer, so that the whole line stands there.
    #[inline]
    pub fn line_write<P: Port>(&mut self, port: &mut P, line: Line, words: &[u64; 4])
        requires other { handed_out self.old.out line ≡ self.old.out }
        requires permitted { MayMakeAll (P.sight port.old).seat (record_in (P.sight port.old)) (stores_of self.old.out) }
        ensures writes { WritesLine (P.sight port.old) self.old line words.now (P.sight port.new) self.new }
        ensures steps { MadeSteps P.stepped (P.sight port.old) (P.sight port.new) }
    {
        self.cache.note_line(line, words);
        let out = self.combiner.write_line(line, words);
        store_out(port, &out);
    }

    /// Stores what the buffer holds. It holds nothing afterwards.
    #[inline]
    pub fn flush<P: Port>(&mut self, port: &mut P)
        requires permitted { MayMakeAll (P.sight port.old).seat (record_in (P.sight port.old)) (stores_of self.old.out) }
        ensures flushes { Flushes (P.sight port.old) self.old (P.sight port.new) self.new }
        ensures steps { MadeSteps P.stepped (P.sight port.old) (P.sight port.new) }
    {
        let out = self.combiner.flush();
        store_out(port, &out);
    }
}
