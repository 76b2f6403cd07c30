//! The slopes that keep an axis near its pulses.
ghost use Rattle.std.specs.Prelude.{ℕ, ◌≡◌, ◌<◌, ◌+◌, ◌*◌, ◌^◌, ◌∷◌, ◌++◌, [], List, length, IsTrue, IsFalse};
ghost use Rattle.ng_canon.specs.declared.item.AxisStep.{AxisStep};
ghost use Rattle.ng_pace.specs.Chord.{Slope, IsSlope, slope_of, IsNear, IsStraight, forward, backward};
ghost use Rattle.ng_pace.specs.Cone.{IsBetween, IsCone, IsReached, IsRiseOf};

use crate::slopes::{Rise, Slopes};
use ng_canon::AxisStep;

/// How far an axis is from where a chord begins, and between which its slopes are.
#[derive(Clone, Copy, Debug)]
pub(crate) struct Cone {
    pub(crate) at: u32,
    pub(crate) low: Rise,
    pub(crate) high: Rise,
}

/// How far a pulse goes, counted from a step back.
fn rise_of(step: AxisStep) -> u32
    ensures { result + backward (step ∷ []) ≡ forward (step ∷ []) + 1 }
{
    match step {
        AxisStep::Backward => 0,
        AxisStep::Still => 1,
        AxisStep::Forward => 2,
    }
}

impl Cone {
    /// Of no pulse: all slopes.
    pub(crate) fn new() -> Cone
        ensures { (slack : ℕ) → IsCone slack result [] }
    {
        Cone {
            at: 0,
            low: Rise {
                steps: 0,
                pulses: 1,
            },
            high: Rise {
                steps: 2,
                pulses: 1,
            },
        }
    }

    /// The slope to where the axis is after one more pulse.
    fn rise_to(&self, step: AxisStep, pulses: u32) -> Rise
        ensures { (slack : ℕ) (steps : List AxisStep) → IsCone slack self.now steps → length steps + 1 ≡ pulses
            → 2 * pulses < 2 ^ 32
            → IsRiseOf result (steps ++ step ∷ []) }
    {
        Rise {
            steps: self.at.saturating_add(rise_of(step)),
            pulses,
        }
    }

    /// Whether the axis doesn't go straight with one more pulse.
    pub(crate) fn is_left(&self, step: AxisStep, pulses: u32) -> bool
        ensures stays { (slack : ℕ) (steps : List AxisStep) → IsCone slack self.now steps → length steps + 1 ≡ pulses
            → 2 * pulses < 2 ^ 32
            → IsFalse result → IsStraight slack (steps ++ step ∷ []) }
        ensures leaves { (slack : ℕ) (steps : List AxisStep) → IsCone slack self.now steps
            → length steps + 1 ≡ pulses → 2 * pulses < 2 ^ 32
            → IsTrue result → ¬ IsStraight slack (steps ++ step ∷ []) }
    {
        let rise = self.rise_to(step, pulses);
        rise.is_below(self.low) || self.high.is_below(rise)
    }

    /// The cone of one more pulse.
    pub(crate) fn after(self, step: AxisStep, pulses: u32, slack: u32) -> Cone
        ensures { (steps : List AxisStep) → IsCone slack self steps → length steps + 1 ≡ pulses
            → 2 * pulses + slack < 2 ^ 32
            → IsCone slack result (steps ++ step ∷ []) }
    {
        let rise = self.rise_to(step, pulses);
        let low = Rise {
            steps: rise.steps.saturating_sub(slack),
            pulses,
        };
        let high = Rise {
            steps: rise.steps.saturating_add(slack),
            pulses,
        };
        Cone {
            at: rise.steps,
            low: self.low.greater(low),
            high: self.high.smaller(high),
        }
    }

    /// The slope to where the axis is.
    fn rise(&self, pulses: u32) -> Rise
        ensures { (slack : ℕ) (steps : List AxisStep) → IsCone slack self.now steps → length steps ≡ pulses
            → IsRiseOf result steps }
    {
        Rise {
            steps: self.at,
            pulses,
        }
    }

    /// All of its slopes.
    pub(crate) fn slopes(&self) -> Slopes
        ensures all { (slack : ℕ) (steps : List AxisStep) → IsCone slack self.now steps → (slope : Slope)
            → IsSlope slope → IsNear slack slope steps → IsBetween result slope }
        ensures reached { (slack : ℕ) (steps : List AxisStep) → IsCone slack self.now steps → IsStraight slack steps
            → 0 < length steps → IsReached (λ slope. IsNear slack slope steps) result }
    {
        Slopes::between(self.low, self.high)
    }

    /// The slope to where the axis is, rounded both ways.
    pub(crate) fn slopes_at(&self, pulses: u32) -> Slopes
        ensures between { (slack : ℕ) (steps : List AxisStep) → IsCone slack self.now steps
            → length steps ≡ pulses → 0 < pulses → IsBetween result (slope_of steps) }
        ensures reached { (slack : ℕ) (steps : List AxisStep) → IsCone slack self.now steps → IsStraight slack steps
            → length steps ≡ pulses → 0 < pulses → IsReached (λ slope. IsNear slack slope steps) result }
    {
        let rise = self.rise(pulses);
        Slopes::between(rise, rise)
    }
}
