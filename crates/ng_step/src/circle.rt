//! What the steps of an arc depend on.

/// What the step from a point of an arc depends on: the steps of the two axes, and the square of the radius.
#[derive(Clone, Copy)]
pub(crate) struct Circle {
    pub step_a: u64,
    pub step_b: u64,
    pub square: u128,
}

impl Circle {
    ghost use Rattle.std.specs.Prelude.{◌≡◌, ◌≤◌};
    ghost use Rattle.ng_step.specs.Arcs.{larger};
    ghost use Rattle.ng_step.specs.Hands.{is_small};

    /// The larger step.
    pub(crate) fn larger(self) -> u64
        ensures { result ≡ larger self }
    {
        self.step_a.max(self.step_b)
    }

    /// Whether the radius is below twice the larger step.
    pub(crate) fn is_small(self) -> bool
        requires { larger self ≤ 1_000_000 }
        ensures { result ≡ is_small self }
    {
        let step = self.larger() as u128;
        self.square < 4 * (step * step)
    }
}
