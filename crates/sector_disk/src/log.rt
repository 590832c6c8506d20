//! A list that only clauses read. The type has no size and takes no memory, and its methods do
//! nothing at run time.
ghost use Rattle.std.specs.Prelude.{◌≡◌, List, [], ◌∷◌};
ghost use Rattle.std.specs.Borrow.{ftrue};

use std::marker::{Model, PhantomData};

/// The newest pair is the first. What it holds no code can read, so it changes no result.
#[derive(Drop)]
pub(crate) struct Log<A, B> {
    of: PhantomData<(A, B)>,
    pub(crate) ghost items: { List (A × B) },
}

// With it the check leaves the two functions below to proofs by hand, which name the list.
impl<A, B> Model for Log<A, B> {
    ghost also_owns = { λ _. ftrue };
}

impl<A, B> Log<A, B> {
    pub(crate) fn new() -> Log<A, B>
        ensures { result.items ≡ [] }
    {
        Log { of: PhantomData }
    }

    /// The log with one pair more.
    pub(crate) fn and(&self, first: &A, second: &B) -> Log<A, B>
        ensures { result.items ≡ (first.now, second.now) ∷ self.now.items }
    {
        Log { of: PhantomData }
    }
}
