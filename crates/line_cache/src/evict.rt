//! Evictors: what decides, after a line is brought in, whether a cached line leaves.

ghost use Rattle.std.specs.Prelude.{◌≡◌, ℕ, ◌+◌, ◌<◌, ◌^◌, List, IfSome, None, Option};
ghost use Rattle.rand_pcg.specs.Pcg.{pcg32_of_seed};
ghost use Rattle.rand_core.specs.Pcg32Seed.{pcg32_seed};
ghost use Rattle.line_cache.specs.Eviction.{most_evictions, count_after, asked_after, MayAnswer, answers_of, seeded_answer, seeded_next, always_answer, always_next};

use rand_core::SeedableRng;
use rand_core::utils::NextWord;
use rand_pcg::Pcg32;
use std::marker::Model;

/// What decides whether a line leaves the cache after another came in.
///
/// An evictor counts the lines that it had dropped. The count never falls and fits a `u64`, and an evictor
/// whose count stands at the largest `u64` drops no more. Nothing else is asked of its answers.
pub trait Evict {
    // How many entries it has had dropped.
    ghost count: { Self → ℕ };

    // How often it was asked, and None where it does not count that.
    ghost asked: { Self → Option ℕ };

    // What it answers now, by the number of entries held. To a number beyond the list it may give any answer,
    // so an evictor of whose answers nothing is known has the empty list.
    ghost answers: { Self → List (Option ℕ) };

    /// Names the entry of `held` entries that is to leave, if one is.
    fn drop_one(&mut self, held: usize) -> Option<usize>
        ensures below { IfSome result (λ i. i < held) }
        ensures counted { count self.new ≡ count_after result (count self.old) }
        ensures full { count self.old ≡ most_evictions → result ≡ None }
        ensures fits { count self.new < 2 ^ 64 }
        ensures given { MayAnswer (answers self.old) held result }
        ensures once { asked self.new ≡ asked_after (asked self.old) };
}

/// The evictor that drops nothing.
#[derive(Clone, Copy, Default)]
pub struct Never;

impl Evict for Never {
    ghost count = { λ _. 0 };

    ghost asked = { λ _. None };

    ghost answers = { λ _. answers_of (λ _. None) };

    #[tactic(auto, using(crate::proofs::EvictLemmas::only_answer))]
    fn drop_one(&mut self, held: usize) -> Option<usize>
        ensures below { IfSome result (λ i. i < held) }
        ensures counted { 0 ≡ count_after result 0 }
        ensures full { 0 ≡ most_evictions → result ≡ None }
        ensures fits { 0 < 2 ^ 64 }
        ensures given { MayAnswer (answers_of (λ _. None)) held result }
        ensures once { None ≡ asked_after None }
        ensures never { result ≡ None }
    {
        None
    }
}

/// The evictor that a seed starts: one word of the generator for each question, and on average one line in
/// four leaves.
#[derive(Drop)]
pub struct Seeded {
    generator: Pcg32,
    count: u64,
}

impl Model for Seeded {
    ghost use Rattle.std.specs.Prelude.{◌<◌, ◌^◌};
    ghost use Rattle.line_cache.specs.Eviction.{Seeds};

    ghost Value = { Seeds };

    ghost view = { λ e. record { generator = e.generator; count = e.count } };

    ghost invariant = { λ e. e.count < 2 ^ 64 };
}

impl Seeded {
    /// Starts the generator from a number, which is expanded to a seed.
    pub fn new(seed: u64) -> Seeded
        ensures generator { result.generator ≡ pcg32_of_seed (pcg32_seed 16 seed) }
        ensures count { result.count ≡ 0 }
    {
        Seeded {
            generator: Pcg32::seed_from_u64(seed),
            count: 0,
        }
    }
}

impl Evict for Seeded {
    ghost count = { λ e. e.count };

    ghost asked = { λ _. None };

    ghost answers = { λ e. answers_of (seeded_answer e) };

    #[tactic(auto, using(crate::proofs::EvictLemmas::only_answer))]
    fn drop_one(&mut self, held: usize) -> Option<usize>
        ensures below { IfSome result (λ i. i < held) }
        ensures counted { self.new.count ≡ count_after result self.old.count }
        ensures full { self.old.count ≡ most_evictions → result ≡ None }
        ensures fits { self.new.count < 2 ^ 64 }
        ensures given { MayAnswer (answers_of (seeded_answer self.old)) held result }
        ensures once { None ≡ asked_after None }
        ensures answer { result ≡ seeded_answer self.old held }
        ensures next { self.new ≡ seeded_next self.old held }
    {
        let word = self.generator.next_word();
        if word % 4 != 0 || held == 0 || self.count == u64::MAX {
            return None;
        }
        self.count += 1;
        Some(word as usize / 4 % held)
    }
}

/// Either of the evictors that a run is given.
#[derive(Drop)]
pub enum Choice {
    /// No line is dropped but by a full cache.
    Never,
    /// Lines are dropped as a seed says.
    Seeded(Seeded),
}

impl Evict for Choice {
    ghost use Rattle.line_cache.specs.Choices.{choice_count, choice_answer, choice_next};

    ghost count = { choice_count };

    ghost asked = { λ _. None };

    ghost answers = { λ e. answers_of (choice_answer e) };

    #[tactic(auto, using(crate::proofs::EvictLemmas::only_answer))]
    fn drop_one(&mut self, held: usize) -> Option<usize>
        ensures below { IfSome result (λ i. i < held) }
        ensures counted { choice_count self.new ≡ count_after result (choice_count self.old) }
        ensures full { choice_count self.old ≡ most_evictions → result ≡ None }
        ensures fits { choice_count self.new < 2 ^ 64 }
        ensures given { MayAnswer (answers_of (choice_answer self.old)) held result }
        ensures once { None ≡ asked_after None }
        ensures answer { result ≡ choice_answer self.old held }
        ensures next { self.new ≡ choice_next self.old held }
    {
        match self {
            Choice::Never => None,
            Choice::Seeded(seeded) => seeded.drop_one(held),
        }
    }
}

/// The evictor that drops the oldest line at every fill.
#[derive(Default, Drop)]
pub struct Always {
    count: u64,
}

impl Model for Always {
    ghost use Rattle.std.specs.Prelude.{ℕ, ◌<◌, ◌^◌};

    ghost Value = { ℕ };

    ghost view = { λ e. e.count };

    ghost invariant = { λ e. e.count < 2 ^ 64 };
}

impl Always {
    /// It has dropped nothing so far.
    pub fn new() -> Always
        ensures { result ≡ 0 }
    {
        Always { count: 0 }
    }
}

impl Evict for Always {
    ghost count = { λ e. e };

    ghost asked = { λ _. None };

    ghost answers = { λ e. answers_of (always_answer e) };

    #[tactic(auto, using(crate::proofs::EvictLemmas::only_answer))]
    fn drop_one(&mut self, held: usize) -> Option<usize>
        ensures below { IfSome result (λ i. i < held) }
        ensures counted { self.new ≡ count_after result self.old }
        ensures full { self.old ≡ most_evictions → result ≡ None }
        ensures fits { self.new < 2 ^ 64 }
        ensures given { MayAnswer (answers_of (always_answer self.old)) held result }
        ensures once { None ≡ asked_after None }
        ensures answer { result ≡ always_answer self.old held }
        ensures next { self.new ≡ always_next self.old held }
    {
        if held == 0 || self.count == u64::MAX {
            return None;
        }
        self.count += 1;
        Some(0)
    }
}
