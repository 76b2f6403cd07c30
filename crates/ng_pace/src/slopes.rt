//! Slopes of an axis: steps over pulses, counted from a step back at each pulse, so that none is below 0.
ghost use Rattle.std.specs.Prelude.{◌≡◌, ◌≤◌, ◌<◌, ◌+◌, ◌*◌, ◌⊎◌, IsTrue, IsFalse, slice_index, slice_index_or};
ghost use Rattle.std.specs.Int.{abs_diff};
ghost use Rattle.ng_pace.specs.Chord.{Slope, IsSlope, IsSlower};
ghost use Rattle.ng_pace.specs.Cone.{AreBetween, IsFrom, IsUpTo, IsBetween, IsReached, size_of, bend_of};
ghost use Rattle.ng_pace.specs.declared.slopes.Slopes.{Slopes};
ghost use Rattle.ng_pace.specs.Axes.{EachAxis};

use crate::limits::STEP;

/// A slope: how far it rises over some pulses.
#[derive(Clone, Copy, Debug)]
pub(crate) struct Rise {
    pub(crate) steps: u32,
    pub(crate) pulses: u32,
}

/// From the least slope to the greatest, in parts of 2^20.
#[derive(Clone, Copy, Debug)]
pub(crate) struct Slopes {
    pub(crate) least: u64,
    pub(crate) greatest: u64,
}

impl Rise {
    /// Whether it is less than another.
    pub(crate) fn is_below(self, other: Rise) -> bool
        ensures below { IsTrue result → self.steps * other.pulses < other.steps * self.pulses }
        ensures above { IsFalse result → other.steps * self.pulses ≤ self.steps * other.pulses }
    {
        self.steps as u64 * (other.pulses as u64) < other.steps as u64 * (self.pulses as u64)
    }

    /// The greater one.
    pub(crate) fn greater(self, other: Rise) -> Rise
        ensures either { (result ≡ self) ⊎ (result ≡ other) }
        ensures from_self { self.steps * result.pulses ≤ result.steps * self.pulses }
        ensures from_other { other.steps * result.pulses ≤ result.steps * other.pulses }
    {
        if self.is_below(other) { other } else { self }
    }

    /// The smaller one.
    pub(crate) fn smaller(self, other: Rise) -> Rise
        ensures either { (result ≡ self) ⊎ (result ≡ other) }
        ensures up_to_self { result.steps * self.pulses ≤ self.steps * result.pulses }
        ensures up_to_other { result.steps * other.pulses ≤ other.steps * result.pulses }
    {
        if other.is_below(self) { other } else { self }
    }
}

impl Slopes {
    /// Of an axis that stands still.
    pub(crate) const STILL: Slopes = Slopes {
        least: STEP,
        greatest: STEP,
    };

    /// All from one to another, rounded outward.
    pub(crate) fn between(low: Rise, high: Rise) -> Slopes
        ensures all { 0 < low.pulses → 0 < high.pulses → (slope : Slope) → IsSlope slope → IsFrom low slope
            → IsUpTo high slope → IsBetween result slope }
        ensures reached { 0 < low.pulses → 0 < high.pulses → (slope : Slope) → IsSlope slope → IsFrom low slope
            → IsUpTo high slope → IsReached (λ s. IsFrom low s × IsUpTo high s) result }
    {
        Slopes {
            least: low.steps as u64 * STEP / (low.pulses as u64).max(1),
            greatest: (high.steps as u64 * STEP).div_ceil((high.pulses as u64).max(1)),
        }
    }

    /// The greatest of them without its sign.
    pub(crate) fn size(&self) -> u64
        ensures size { result ≤ STEP }
        ensures exact { result ≡ size_of self.now }
        ensures most { (slope : Slope) → IsSlope slope → IsBetween self.now slope
            → abs_diff slope.up slope.down * STEP ≤ result * slope.over }
    {
        self.least
            .abs_diff(STEP)
            .max(self.greatest.abs_diff(STEP))
            .min(STEP)
    }

    /// Whether an axis surely goes on forward, and no faster.
    fn slow_ahead_to(&self, other: &Slopes) -> bool
        ensures { IsTrue result → (STEP ≤ other.now.least) × (other.now.greatest ≤ self.now.least) }
    {
        STEP <= other.least && other.greatest <= self.least
    }

    /// Whether it surely goes on backward, and no faster.
    fn slow_back_to(&self, other: &Slopes) -> bool
        ensures { IsTrue result → (other.now.greatest ≤ STEP) × (self.now.greatest ≤ other.now.least) }
    {
        other.greatest <= STEP && self.greatest <= other.least
    }

    /// Whether an axis surely slows from these slopes to others: it goes on the same way, and no faster.
    pub(crate) fn slow_to(&self, other: &Slopes) -> bool
        ensures { IsTrue result → (before : Slope) (after : Slope) → IsSlope before → IsSlope after
            → IsBetween self.now before → IsBetween other.now after → IsSlower before after }
    {
        self.slow_ahead_to(other) || self.slow_back_to(other)
    }

    /// The greatest change from one of these to one of others.
    pub(crate) fn bend_to(&self, other: &Slopes) -> u64
        ensures size { result ≤ 2 * STEP }
        ensures exact { result ≡ bend_of self.now other.now }
        ensures most { (before : Slope) (after : Slope) → IsSlope before → IsSlope after → IsBetween self.now before
            → IsBetween other.now after
            → abs_diff (before.up * after.over + after.down * before.over)
            (before.down * after.over + after.up * before.over) * STEP ≤ result * (before.over * after.over) }
    {
        let greatest = 2 * STEP;
        other
            .greatest
            .min(greatest)
            .saturating_sub(self.least)
            .max(self.greatest.min(greatest).saturating_sub(other.least))
    }
}

/// The greatest slope of each axis, without its sign.
pub(crate) fn sizes(slopes: &[Slopes; 3]) -> [u64; 3]
    ensures most { EachAxis (λ i. (slope : Slope) → IsSlope slope → AreBetween slopes.now i slope
        → abs_diff slope.up slope.down * STEP ≤ slice_index result i * slope.over) }
    ensures exact { EachAxis (λ i. (d : Slopes) → slice_index result i ≡ size_of (slice_index_or slopes.now i d)) }
{
    [slopes[0].size(), slopes[1].size(), slopes[2].size()]
}
