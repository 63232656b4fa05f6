//! A list that only proofs read. It takes no memory, and its methods do nothing at run time.

ghost use Rattle.std.specs.Prelude.{◌≡◌, List, [], ◌∷◌, ◌++◌};
ghost use Rattle.std.specs.Borrow.{ftrue};

use std::marker::{Model, PhantomData};

/// A clause reads the list as `items`.
#[derive(Drop)]
pub struct Trace<A> {
    of: PhantomData<A>,
    pub ghost items: { List A },
}

impl<A> Model for Trace<A> {
    ghost also_owns = { λ _. ftrue };
}

// It owns nothing.
unsafe impl<A: Send> Send for Trace<A> {}

impl<A> Trace<A> {
    /// The empty list.
    pub fn new() -> Trace<A>
        ensures { result.items ≡ [] }
    {
        Trace { of: PhantomData }
    }

    /// The list with the item at its end.
    pub fn and(&self, item: &A) -> Trace<A>
        ensures { result.items ≡ self.now.items ++ item.now ∷ [] }
    {
        Trace { of: PhantomData }
    }

    /// The list with the item at its head.
    pub fn before(&self, item: &A) -> Trace<A>
        ensures { result.items ≡ item.now ∷ self.now.items }
    {
        Trace { of: PhantomData }
    }
}
