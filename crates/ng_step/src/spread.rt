//! An axis's steps, spread evenly over the pulses of a move.

use ng_canon::AxisStep;

/// One axis of a line, with its accumulated error.
#[derive(Clone, Copy)]
pub(crate) struct Spread {
    count: u64,
    forward: bool,
    twice: u64,
    error: u64,
}

impl Spread {
    ghost use Rattle.std.specs.Prelude.{◌≡◌, ℕ, ◌+◌, ◌*◌, ◌^◌, ◌<◌, ◌≤◌, ℤ, unsigned_abs, int_le, pos};
    ghost use Rattle.ng_step.specs.Line.{step_toward};
    ghost use Rattle.ng_step.specs.Spread.{IsSpread, SpreadStepSpec};

    /// The axis at the start of a line of `total` pulses.
    pub(crate) fn new(distance: i64, total: u64) -> Spread
        requires small { total < 2 ^ 61 }
        requires most { unsigned_abs distance ≤ total }
        ensures axis { 0 < total → IsSpread total 0 result }
        ensures count { result.count ≡ unsigned_abs distance }
        ensures forward { result.forward ≡ int_le (pos 0) distance }
    {
        let count = distance.unsigned_abs();
        Spread {
            count,
            forward: distance >= 0,
            twice: 2 * count,
            error: total,
        }
    }

    /// The axis's step in the next pulse. `whole` is twice the number of pulses.
    pub(crate) fn step(&mut self, whole: u64) -> AxisStep
        requires error { self.old.error < whole }
        requires twice { self.old.twice ≤ whole }
        requires small { whole < 2 ^ 62 }
        ensures { SpreadStepSpec whole self.old self.new result }
    {
        self.error += self.twice;
        if self.error < whole {
            AxisStep::Still
        } else {
            self.error -= whole;
            self.moved()
        }
    }

    fn moved(&self) -> AxisStep
        ensures { result ≡ step_toward self.now.forward 1 }
    {
        if self.forward {
            AxisStep::Forward
        } else {
            AxisStep::Backward
        }
    }
}
