//! The values that wait while an expression is evaluated.
ghost use Rattle.std.specs.Prelude.{◌≡◌, ◌<◌, [], ◌∷◌, length, MatchOption};

use arrayvec::ArrayVec;
use ng_num::Num;
use ng_words::NODES;
use std::marker::Model;

/// The values found so far on the walk over a tree's nodes. Each node adds at most one.
#[derive(Drop)]
pub(crate) struct Stack {
    values: ArrayVec<Num, NODES>,
}

impl Model for Stack {
    ghost use Rattle.std.specs.Prelude.{List, ℤ, reverse};

    ghost Value = { List ℤ };

    ghost view = { λ s. reverse s.values.items };
}

impl Stack {
    /// An empty stack.
    pub(crate) fn new() -> Self
        ensures { result ≡ [] }
    {
        Stack {
            values: ArrayVec::new(),
        }
    }

    /// Removes all values.
    #[inline]
    pub(crate) fn clear(&mut self)
        ensures { self.new ≡ [] }
    {
        self.values.clear();
    }

    /// Pushes a value.
    #[inline]
    pub(crate) fn push(&mut self, value: Num)
        requires { length self.old < 256 }
        ensures { self.new ≡ value ∷ self.old }
    {
        self.values.push(value);
    }

    /// Pops the value on top.
    #[inline]
    pub(crate) fn pop(&mut self) -> Option<Num>
        ensures { MatchOption result ((self.old ≡ []) × (self.new ≡ [])) (λ v. self.old ≡ v ∷ self.new) }
    {
        self.values.pop()
    }
}
