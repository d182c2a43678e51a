//! A list that only proofs read.

ghost use Rattle.std.specs.Prelude.{◌≡◌, List, [], ◌∷◌, ◌++◌};
ghost use Rattle.std.specs.Borrow.{ftrue};

use std::marker::{Model, PhantomData};

/// What was made so far, the oldest first. It takes no memory, and its methods do nothing at run time. A clause
/// reads the list as `items`.
#[derive(Drop)]
pub struct History<E> {
    of: PhantomData<E>,
    pub ghost items: { List E },
}

impl<E> Model for History<E> {
    ghost also_owns = { λ _. ftrue };
}

impl<E> History<E> {
    /// A history of no events.
    pub fn new() -> History<E>
        ensures { result.items ≡ [] }
    {
        History { of: PhantomData }
    }

    /// This history, with one item more.
    pub fn and(&self, item: &E) -> History<E>
        ensures { result.items ≡ self.now.items ++ item.now ∷ [] }
    {
        History { of: PhantomData }
    }
}
