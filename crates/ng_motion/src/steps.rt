//! Millimetres as steps.
ghost use Rattle.std.specs.Prelude.{◌≡◌, ◌<◌, ◌≤◌, ◌⊎◌, MatchOption, MatchResult, IsTrue, IsFalse, slice_index};
ghost use Rattle.ng_pace.specs.Axes.{EachAxis};
ghost use Rattle.ng_motion.specs.Steps.{AreAtMost, AreLimits, IsFirstAxis, IsInRanges, IsLost, IsStepFault, StaysGiven};
ghost use Rattle.ng_motion.specs.Steps.{by_axis, steps_of_accel, steps_of_rate};

use crate::axis::AxisName;
use crate::fault::MotionFault;
use crate::given::Given;
use crate::values::PerAxis;
use ng_canon::{Axis, Geometry};
use ng_pace::Limits;

/// Half of the pulses over which a corner is taken, at most.
const HALF: u64 = 96;

/// The most that a pacer takes, in steps a second, each second.
const GREATEST_ACCEL: u64 = 1_000_000_000;

/// Steps a second, each second.
fn accel_steps(mm_s2: u64, axis: &Axis) -> u64
    requires { mm_s2 ≤ 1_000_000 }
    ensures { result ≡ steps_of_accel mm_s2 axis.now.step_nm }
{
    mm_s2 * 1_000_000 / axis.step_nm as u64
}

/// Steps a second.
fn rate_steps(mm_min: u64, axis: &Axis) -> u64
    requires { mm_min ≤ 100_000 }
    ensures value { result ≡ steps_of_rate mm_min axis.now.step_nm }
    ensures most { result ≤ 1_000_000_000 }
{
    mm_min * 1_000_000 / (60 * axis.step_nm as u64)
}

/// The accelerations of the axes.
fn accel_limits(mm_s2: PerAxis, machine: &Geometry) -> [u64; 3]
    requires { AreAtMost 1_000_000 mm_s2 }
    ensures { result ≡ by_axis steps_of_accel mm_s2 machine.now }
{
    [
        accel_steps(mm_s2.x, &machine.x),
        accel_steps(mm_s2.y, &machine.y),
        accel_steps(mm_s2.z, &machine.z),
    ]
}

/// The rates of the axes.
fn rate_limits(mm_min: PerAxis, machine: &Geometry) -> [u64; 3]
    requires { AreAtMost 100_000 mm_min }
    ensures value { result ≡ by_axis steps_of_rate mm_min machine.now }
    ensures most { EachAxis (λ axis. slice_index result axis ≤ 1_000_000_000) }
{
    [
        rate_steps(mm_min.x, &machine.x),
        rate_steps(mm_min.y, &machine.y),
        rate_steps(mm_min.z, &machine.z),
    ]
}

/// The first axis that gains less than a pacer takes.
fn weak_axis(accel: &[u64; 3]) -> Option<AxisName>
    ensures { MatchOption result (EachAxis (λ axis. 3 ≤ slice_index accel.now axis))
        (IsFirstAxis (λ axis. slice_index accel.now axis < 3)) }
{
    if accel[0] < 3 {
        Some(AxisName::X)
    } else if accel[1] < 3 {
        Some(AxisName::Y)
    } else if accel[2] < 3 {
        Some(AxisName::Z)
    } else {
        None
    }
}

/// The first axis that gains more than a pacer takes.
fn strong_axis(accel: &[u64; 3]) -> Option<AxisName>
    ensures { MatchOption result (EachAxis (λ axis. slice_index accel.now axis ≤ 1_000_000_000))
        (IsFirstAxis (λ axis. 1_000_000_000 < slice_index accel.now axis)) }
{
    if accel[0] > GREATEST_ACCEL {
        Some(AxisName::X)
    } else if accel[1] > GREATEST_ACCEL {
        Some(AxisName::Y)
    } else if accel[2] > GREATEST_ACCEL {
        Some(AxisName::Z)
    } else {
        None
    }
}

/// Whether a limit that was given became less than a step.
fn is_lost(mm: PerAxis, x: u64, y: u64, z: u64) -> bool
    ensures yes { IsTrue result → IsLost mm.x x ⊎ IsLost mm.y y ⊎ IsLost mm.z z }
    ensures no { IsFalse result → StaysGiven mm.x x × StaysGiven mm.y y × StaysGiven mm.z z }
{
    mm.x > 0 && x == 0 || mm.y > 0 && y == 0 || mm.z > 0 && z == 0
}

/// The limits in steps of what is given, or its fault.
pub(crate) fn limits_of(given: &Given, machine: &Geometry) -> Result<Limits, MotionFault>
    requires { IsInRanges given.now }
    ensures { MatchResult result (AreLimits given.now machine.now) (IsStepFault given.now machine.now) }
{
    let accel = accel_limits(given.accel, machine);
    if let Some(axis) = weak_axis(&accel) {
        return Err(MotionFault::TooWeak(axis));
    }
    if let Some(axis) = strong_axis(&accel) {
        return Err(MotionFault::TooStrong(axis));
    }
    let rate = rate_limits(given.rate, machine);
    if is_lost(given.rate, rate[0], rate[1], rate[2]) {
        return Err(MotionFault::TooSlow);
    }
    Ok(Limits {
        accel,
        rate,
        start: rate_limits(given.start, machine),
        half: HALF,
        slack: given.slack,
        most_percent: given.most_percent,
    })
}
