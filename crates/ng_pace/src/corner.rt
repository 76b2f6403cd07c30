//! Corners between two chords.
ghost use Rattle.std.specs.Prelude.{◌≡◌, ◌≤◌, ◌<◌, ◌+◌, ◌*◌, ◌/◌, ◌^◌, ◌⊎◌, max, slice_index, slice_index_or};
ghost use Rattle.ng_pace.specs.Chord.{Slope, IsSlope};
ghost use Rattle.ng_pace.specs.Cone.{AreBetween, IsBetween, IsBend, IsPull, size_of, bend_of};
ghost use Rattle.ng_pace.specs.declared.slopes.Slopes.{Slopes};
ghost use Rattle.ng_pace.specs.Axes.{AreLimits, AreMostPulses, EachAxis, IsCorner, IsFarFromCorner};
ghost use Rattle.ng_pace.specs.Axes.{IsFullCorner, IsNearCorner, IsQuarterRamp};

use crate::caps::along;
use crate::limits::{GREATEST, Limits, LineCaps, PULSE, STEP};
use crate::line::Ramp;
use crate::slopes::Slopes;

/// A corner: of each axis the greatest slope on either side, and the greatest change of slope, in parts of 2^20; and how
/// much of that change counts against a ramp up and against a ramp down: none where it pulls the other way.
#[derive(Clone, Copy, Debug)]
pub(crate) struct Bend {
    pub(crate) slope: [u64; 3],
    pub(crate) bend: [u64; 3],
    pub(crate) up: [u64; 3],
    pub(crate) down: [u64; 3],
}

/// How much of a change of slope counts against a ramp up from the first slopes to the others: none where the axis slows.
fn axis_pull(before: &Slopes, after: &Slopes, bend: u64) -> u64
    ensures size { result ≤ bend }
    ensures pull { (slope : Slope) (next : Slope) → IsSlope slope → IsSlope next → IsBetween before.now slope
        → IsBetween after.now next → IsPull bend result slope next }
{
    if before.slow_to(after) { 0 } else { bend }
}

/// The greatest slope of an axis on either side of a corner, and the greatest change of slope.
fn axis_bend(before: &Slopes, after: &Slopes) -> (u64, u64)
    ensures size { result.0 ≤ STEP }
    ensures bend { result.1 ≤ 2 * STEP }
    ensures exact { (result.0 ≡ max (size_of before.now) (size_of after.now)) × (result.1 ≡ bend_of before.now after.now) }
    ensures most { (slope : Slope) (next : Slope) → IsSlope slope → IsSlope next → IsBetween before.now slope
        → IsBetween after.now next
        → IsBend result.0 result.1 slope next }
{
    (before.size().max(after.size()), before.bend_to(after))
}

impl Bend {
    /// Between two chords.
    pub(crate) fn between(before: &[Slopes; 3], after: &[Slopes; 3]) -> Bend
        ensures size { EachAxis (λ i. slice_index result.slope i ≤ STEP) }
        ensures bend { EachAxis (λ i. slice_index result.bend i ≤ 2 * STEP) }
        ensures sizes { EachAxis (λ i. (d : Slopes) → slice_index result.slope i
            ≡ max (size_of (slice_index_or before.now i d)) (size_of (slice_index_or after.now i d))) }
        ensures bends { EachAxis (λ i. (d : Slopes) → slice_index result.bend i
            ≡ bend_of (slice_index_or before.now i d) (slice_index_or after.now i d)) }
        ensures most { EachAxis (λ i. (slope : Slope) (next : Slope) → IsSlope slope → IsSlope next
            → AreBetween before.now i slope → AreBetween after.now i next
            → IsBend (slice_index result.slope i) (slice_index result.bend i) slope next) }
        ensures up_less { EachAxis (λ i. slice_index result.up i ≤ slice_index result.bend i) }
        ensures down_less { EachAxis (λ i. slice_index result.down i ≤ slice_index result.bend i) }
        ensures pulls_up { EachAxis (λ i. (slope : Slope) (next : Slope) → IsSlope slope → IsSlope next
            → AreBetween before.now i slope → AreBetween after.now i next
            → IsPull (slice_index result.bend i) (slice_index result.up i) slope next) }
        ensures pulls_down { EachAxis (λ i. (slope : Slope) (next : Slope) → IsSlope slope → IsSlope next
            → AreBetween before.now i slope → AreBetween after.now i next
            → IsPull (slice_index result.bend i) (slice_index result.down i) next slope) }
    {
        let x = axis_bend(&before[0], &after[0]);
        let y = axis_bend(&before[1], &after[1]);
        let z = axis_bend(&before[2], &after[2]);
        Bend {
            slope: [x.0, y.0, z.0],
            bend: [x.1, y.1, z.1],
            up: [
                axis_pull(&before[0], &after[0], x.1),
                axis_pull(&before[1], &after[1], y.1),
                axis_pull(&before[2], &after[2], z.1),
            ],
            down: [
                axis_pull(&after[0], &before[0], x.1),
                axis_pull(&after[1], &before[1], y.1),
                axis_pull(&after[2], &before[2], z.1),
            ],
        }
    }
}

/// Over how many pulses an axis may take a change of slope, in parts of 2^20: 1 at least. It leaves the chords by an
/// eighth of their product, so the slack, and the way from its start rate to rest, count eight times.
fn axis_pulses(limits: &Limits, axis: usize, bend: u64) -> u64
    requires axis { axis < 3 }
    requires bend { bend ≤ 2 * STEP }
    requires accel { 3 ≤ slice_index limits.now.accel axis }
    requires accel_at_most { slice_index limits.now.accel axis ≤ 1000000000 }
    requires slack { 0 < limits.now.slack }
    ensures near { IsNearCorner limits.now axis bend STEP result }
    ensures some { 0 < result }
    ensures most { (2 ^ 32 ≤ result) ⊎ IsFarFromCorner limits.now axis bend STEP (result + 1) }
{
    if bend == 0 {
        return u64::MAX;
    }
    let start = limits.start[axis];
    let by_slack = limits.slack.saturating_mul(8 * STEP) / bend;
    let eighth = start.saturating_mul(start) / limits.accel[axis];
    let by_start = eighth.saturating_mul(STEP) / bend;
    by_slack.max(by_start)
}

/// Over how many pulses a corner is taken, between so many and so many.
pub(crate) fn corner_pulses(limits: &Limits, bend: &[u64; 3], before: u64, after: u64) -> u64
    requires bend { EachAxis (λ i. slice_index bend.now i ≤ 2 * STEP) }
    requires limits { AreLimits limits.now }
    ensures near { EachAxis (λ i. IsNearCorner limits.now i (slice_index bend.now i) STEP result) }
    ensures some { 0 < result }
    ensures before { result ≤ max 1 before }
    ensures after { result ≤ max 1 after }
    ensures half { result ≤ max 1 (2 * limits.now.half) }
    ensures most { AreMostPulses limits.now bend.now STEP before after result }
{
    limits
        .half
        .saturating_mul(2)
        .min(before)
        .min(after)
        .max(1)
        .min(axis_pulses(limits, 0, bend[0]))
        .min(axis_pulses(limits, 1, bend[1]))
        .min(axis_pulses(limits, 2, bend[2]))
}

/// The greatest square at which an axis may turn: it takes three quarters of its acceleration.
fn axis_most(limits: &Limits, axis: usize, bend: u64, pulses: u64) -> u64
    requires axis { axis < 3 }
    requires bend { bend ≤ 2 * STEP }
    requires accel { slice_index limits.now.accel axis ≤ 1000000000 }
    ensures full { (GREATEST ≤ result)
        ⊎ (3 * slice_index limits.now.accel axis * pulses * STEP < 4 * bend * (result / PULSE + 3)) }
    ensures quarter { 4 * bend * result ≤ 3 * slice_index limits.now.accel axis * pulses * STEP * PULSE }
{
    if bend == 0 {
        return GREATEST;
    }
    let square = limits.accel[axis]
        .saturating_mul(pulses)
        .saturating_mul(STEP)
        / bend;
    (square / 4).saturating_mul(3).saturating_mul(PULSE)
}

/// By how much the square may change where an axis turns.
fn axis_ramp(limits: &Limits, axis: usize, slope: u64, bend: u64, pulses: u64, most: u64) -> u64
    requires axis { axis < 3 }
    requires accel { slice_index limits.now.accel axis ≤ 1000000000 }
    requires bend { bend ≤ 2 * STEP }
    requires pulses { 0 < pulses }
    requires most { most ≤ GREATEST }
    requires quarter { 4 * bend * most ≤ 3 * slice_index limits.now.accel axis * pulses * STEP * PULSE }
    ensures full { (GREATEST ≤ result)
        ⊎ (2 * (slice_index limits.now.accel axis / 4) * STEP < slope * (result / PULSE + 1)) }
    ensures left { slope * result * pulses + 2 * bend * most
        ≤ 2 * slice_index limits.now.accel axis * pulses * STEP * PULSE }
{
    if slope == 0 {
        return GREATEST;
    }
    let accel = limits.accel[axis];
    // By 2^20 first: the rest is short, as a rule, and divided sooner.
    let used = ((most / PULSE + 1) * bend).div_ceil(STEP).div_ceil(pulses);
    let left = accel.saturating_sub(used).max(accel / 4);
    (left.saturating_mul(2 * STEP) / slope).saturating_mul(PULSE)
}

/// By how much the square may change where axes turn.
fn corner_ramp(limits: &Limits, slope: &[u64; 3], bend: &[u64; 3], pulses: u64, most: u64) -> u64
    requires limits { AreLimits limits.now }
    requires bend { EachAxis (λ i. slice_index bend.now i ≤ 2 * STEP) }
    requires pulses { 0 < pulses }
    requires most { most ≤ GREATEST }
    requires quarter { EachAxis (λ i. 4 * slice_index bend.now i * most
        ≤ 3 * slice_index limits.now.accel i * pulses * STEP * PULSE) }
    ensures full { IsQuarterRamp limits.now slope.now STEP result }
    ensures left { EachAxis (λ i. slice_index slope.now i * result * pulses + 2 * slice_index bend.now i * most
        ≤ 2 * slice_index limits.now.accel i * pulses * STEP * PULSE) }
{
    let x = axis_ramp(limits, 0, slope[0], bend[0], pulses, most);
    let y = axis_ramp(limits, 1, slope[1], bend[1], pulses, most);
    let z = axis_ramp(limits, 2, slope[2], bend[2], pulses, most);
    x.min(y).min(z)
}

/// What a corner allows that is taken over so many pulses at no more than `feed`.
pub(crate) fn corner_caps(limits: &Limits, bend: &Bend, pulses: u64, feed: u64) -> LineCaps
    requires slope { EachAxis (λ i. slice_index bend.now.slope i ≤ STEP) }
    requires bend { EachAxis (λ i. slice_index bend.now.bend i ≤ 2 * STEP) }
    requires up_less { EachAxis (λ i. slice_index bend.now.up i ≤ slice_index bend.now.bend i) }
    requires down_less { EachAxis (λ i. slice_index bend.now.down i ≤ slice_index bend.now.bend i) }
    requires pulses { 0 < pulses }
    requires limits { AreLimits limits.now }
    ensures most { IsFullCorner limits.now bend.now.slope bend.now.bend STEP pulses feed result.most }
    ensures quarter_up { IsQuarterRamp limits.now bend.now.slope STEP result.ramp.up }
    ensures quarter_down { IsQuarterRamp limits.now bend.now.slope STEP result.ramp.down }
    ensures up { EachAxis (λ i. IsCorner limits.now i (slice_index bend.now.slope i) (slice_index bend.now.up i)
        STEP pulses result.most result.ramp.up) }
    ensures down { EachAxis (λ i. IsCorner limits.now i (slice_index bend.now.slope i) (slice_index bend.now.down i)
        STEP pulses result.most result.ramp.down) }
{
    let most = along(limits, &bend.slope)
        .most
        .min(feed)
        .min(axis_most(limits, 0, bend.bend[0], pulses))
        .min(axis_most(limits, 1, bend.bend[1], pulses))
        .min(axis_most(limits, 2, bend.bend[2], pulses))
        .max(PULSE);
    let up = corner_ramp(limits, &bend.slope, &bend.up, pulses, most);
    let down = corner_ramp(limits, &bend.slope, &bend.down, pulses, most);
    LineCaps {
        most,
        ramp: Ramp { up, down },
    }
}
