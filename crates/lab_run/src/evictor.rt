//! The evictor of a lab.

ghost use Rattle.std.specs.Prelude.{◌≡◌, ◌<◌, ◌^◌, IfSome, None};
ghost use Rattle.line_cache.specs.Eviction.{answers_of, count_after, most_evictions, MayAnswer, asked_after};
ghost use Rattle.lab_run.specs.Evicting.{named_answer, named_next};

use line_cache::Evict;
use std::marker::Model;

/// The evictor that names one place whenever that place holds an entry.
#[derive(Drop)]
pub struct Named {
    at: Option<usize>,
    count: u64,
}

impl Model for Named {
    ghost use Rattle.std.specs.Prelude.{◌<◌, ◌^◌};
    ghost use Rattle.lab_run.specs.Evicting.{Place};

    ghost Value = { Place };

    ghost view = { λ e. record { at = e.at; count = e.count } };

    ghost invariant = { λ e. e.count < 2 ^ 64 };
}

impl Named {
    ghost use Rattle.std.specs.Prelude.{◌≡◌};

    /// An evictor of this place that has evicted nothing so far.
    pub(crate) fn new(at: Option<usize>) -> Named
        ensures { result ≡ record { at = at; count = 0 } }
    {
        Named { at, count: 0 }
    }
}

impl Evict for Named {
    ghost count = { λ e. e.count };

    ghost asked = { λ _. None };

    ghost answers = { λ e. answers_of (named_answer e) };

    #[tactic(auto, using(line_cache::proofs::EvictLemmas::only_answer))]
    fn drop_one(&mut self, held: usize) -> Option<usize>
        ensures below { IfSome result (λ i. i < held) }
        ensures counted { self.new.count ≡ count_after result self.old.count }
        ensures full { self.old.count ≡ most_evictions → result ≡ None }
        ensures fits { self.new.count < 2 ^ 64 }
        ensures given { MayAnswer (answers_of (named_answer self.old)) held result }
        ensures once { None ≡ asked_after None }
        ensures answer { result ≡ named_answer self.old held }
        ensures next { self.new ≡ named_next self.old held }
    {
        match self.at {
            Some(at) if at < held && self.count < u64::MAX => {
                self.count += 1;
                Some(at)
            }
            _ => None,
        }
    }
}
