//! Values of the past, for proofs only.
ghost use Rattle.std.specs.Prelude.{◌≡◌, List, [], ◌∷◌, ◌++◌};
ghost use Rattle.std.specs.Borrow.{ftrue};

use std::marker::{Model, PhantomData};

/// Values as they were, in order (own). Only proofs read them, as `values`. It doesn't allocate, and its methods do
/// nothing at run time.
#[derive(Drop)]
pub struct Past<T> {
    of: PhantomData<T>,
    pub ghost values: { List T },
}

impl<T> Model for Past<T> {
    ghost also_owns = { λ _. ftrue };
}

// It owns nothing.
unsafe impl<T> Send for Past<T> {}

impl<T> Past<T> {
    /// No value yet.
    pub fn new() -> Past<T>
        ensures { result.values ≡ [] }
    {
        Past { of: PhantomData }
    }

    /// These values, followed by this one as it is now.
    pub fn and(&self, value: &T) -> Past<T>
        ensures { result.values ≡ self.now.values ++ value.now ∷ [] }
    {
        Past { of: PhantomData }
    }
}
