//! Lists of cores.

use arrayvec::ArrayVec;
use scc_base::CoreId;
use std::marker::Model;

/// Cores in order, none of them twice. It is seen as the list of their numbers.
#[derive(Drop)]
pub(crate) struct Cores {
    numbers: ArrayVec<u8, 48>,
}

impl Model for Cores {
    ghost use Rattle.std.specs.Prelude.{ℕ, List};
    ghost use Rattle.rcce_words.specs.Cores.{AreCores};

    ghost Value = { List ℕ };

    ghost view = { λ c. c.numbers.items };

    ghost invariant = { λ c. AreCores c.numbers.items };
}

impl Cores {
    ghost use Rattle.std.specs.Prelude.{◌≡◌, ◌<◌, ◌++◌, ◌∷◌, [], false, length, slice_index};
    ghost use Rattle.rcce_words.specs.Cores.{AreCores, has_core};

    pub(crate) fn new() -> Cores
        ensures { result ≡ [] }
    {
        Cores {
            numbers: ArrayVec::new(),
        }
    }

    pub(crate) fn len(&self) -> usize
        ensures { result ≡ length self.now }
    {
        self.numbers.len()
    }

    /// Whether the core is one of them.
    pub(crate) fn has(&self, core: CoreId) -> bool
        ensures { result ≡ has_core core self.now }
    {
        self.numbers.as_slice().contains(&core.number())
    }

    /// Puts a core behind them.
    pub(crate) fn add(&mut self, core: CoreId)
        requires { has_core core self.old ≡ false }
        ensures { self.new ≡ self.old ++ core ∷ [] }
    {
        self.numbers.push(core.number());
    }

    /// The core at a place.
    pub(crate) fn at(&self, place: usize) -> CoreId
        requires { place < length self.now }
        ensures gives { result ≡ slice_index self.now place }
        ensures valid { AreCores self.now }
    {
        CoreId::of(self.numbers[place])
    }
}
