//! What axes allow along a chord.
ghost use Rattle.std.specs.Prelude.{◌≡◌, ◌≤◌, ◌<◌, ◌+◌, ◌*◌, ◌/◌, ◌⊎◌, min, slice_index};
ghost use Rattle.ng_pace.specs.Rest.{either_way};
ghost use Rattle.ng_pace.specs.Axes.{AreLimits, EachAxis, IsAlong, IsFullAlone, IsFullRamp, IsFullRate};

use crate::limits::{Caps, GREATEST, Limits, LineCaps, PULSE, STEP};
use crate::line::Ramp;

impl Caps {
    /// What both allow.
    pub(crate) fn both(self, other: Caps) -> Caps
        ensures most { result.most ≡ min self.most other.most }
        ensures ramp { result.ramp ≡ min self.ramp other.ramp }
    {
        Caps {
            most: self.most.min(other.most),
            ramp: self.ramp.min(other.ramp),
        }
    }

    /// Of lines that have all of it, up as down.
    pub(crate) fn of_lines(self) -> LineCaps
        ensures most { result.most ≡ self.most }
        ensures ramp { result.ramp ≡ either_way self.ramp }
    {
        LineCaps {
            most: self.most,
            ramp: Ramp {
                up: self.ramp,
                down: self.ramp,
            },
        }
    }
}

/// What an axis allows along a slope, in parts of 2^20.
#[inline(always)]
fn axis_along(limits: &Limits, axis: usize, slope: u64) -> Caps
    requires axis { axis < 3 }
    requires accel { slice_index limits.now.accel axis ≤ 1000000000 }
    requires rate { slice_index limits.now.rate axis ≤ 1000000000 }
    ensures allowed { IsAlong limits.now axis slope STEP result.most result.ramp }
    ensures size { result.most ≤ GREATEST }
    ensures full { (GREATEST ≤ result.ramp)
        ⊎ (2 * slice_index limits.now.accel axis * STEP < slope * (result.ramp / PULSE + 1)) }
    ensures rate { IsFullAlone limits.now axis slope STEP result.most }
{
    if slope == 0 {
        return Caps {
            most: GREATEST,
            ramp: GREATEST,
        };
    }
    let most = if limits.rate[axis] == 0 {
        GREATEST
    } else {
        square_of(limits.rate[axis].saturating_mul(STEP) / slope)
    };
    let accel = limits.accel[axis].saturating_mul(2 * STEP);
    Caps {
        most,
        ramp: (accel / slope).saturating_mul(PULSE),
    }
}

/// The square of a rate in pulses a second.
fn square_of(rate: u64) -> u64
    ensures square { result ≡ min rate (2 * STEP) * min rate (2 * STEP) * PULSE }
    ensures size { result ≤ GREATEST }
{
    let rate = rate.min(2 * STEP);
    rate * rate * PULSE
}

/// What the axes allow along their slopes, in parts of 2^20. It is inlined since a corner needs no ramp of it, and then
/// divides for none.
#[inline(always)]
pub(crate) fn along(limits: &Limits, slope: &[u64; 3]) -> Caps
    requires { AreLimits limits.now }
    ensures ramp { IsFullRamp limits.now slope.now STEP result.ramp }
    ensures rate { IsFullRate limits.now slope.now STEP result.most }
    ensures allowed { EachAxis (λ i. IsAlong limits.now i (slice_index slope.now i) STEP result.most result.ramp) }
    ensures size { result.most ≤ GREATEST }
{
    let x = axis_along(limits, 0, slope[0]);
    let y = axis_along(limits, 1, slope[1]);
    let z = axis_along(limits, 2, slope[2]);
    x.both(y).both(z)
}
