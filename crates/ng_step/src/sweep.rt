//! An arc's sweep through a quadrant, found without walking it.
//!
//! A sweep goes down level by level; each inward step lowers `inner` by one step. On a level it goes outward to the
//! first point outside the circle, and from there inward to the next level. The last level is the one from which an
//! inward step leaves the quadrant.
ghost use Rattle.std.specs.Prelude.{◌≡◌, ◌+◌, ◌*◌, ◌-◌, ◌<◌, ◌≤◌, ◌^◌};

use crate::periods::ceil_div;

/// Where an arc enters a quadrant, in nanometres. Inward steps decrease `inner`, and outward steps increase `outer`.
#[derive(Clone, Copy)]
pub(crate) struct QuadrantSweep {
    pub square: u128,
    pub inner: u64,
    pub outer: u64,
    pub inner_step: u64,
    pub outer_step: u64,
    pub ghost square_in_range: { square ≤ 2 ^ 94 },
    pub ghost inner_in_range: { (0 < inner) × (inner ≤ 2 ^ 48) },
    pub ghost outer_in_range: { outer ≤ 2 ^ 48 },
    pub ghost inner_step_in_range: { (0 < inner_step) × (inner_step ≤ 2 ^ 47) },
    pub ghost outer_step_in_range: { (0 < outer_step) × (outer_step ≤ 2 ^ 47) },
}

/// A point of a sweep, given by the number of inward and outward steps that lead to it.
#[derive(Clone, Copy)]
pub(crate) struct SweepSteps {
    pub inward: u64,
    pub outward: u64,
}

/// An end in a quadrant, in the same two coordinates.
#[derive(Clone, Copy)]
pub(crate) struct QuadrantEnd {
    pub inner: u64,
    pub outer: u64,
    pub ghost inner_in_range: { (0 < inner) × (inner ≤ 2 ^ 50) },
    pub ghost outer_in_range: { outer ≤ 2 ^ 50 },
}

impl QuadrantEnd {
    ghost use Rattle.std.specs.Prelude.{◌≡◌, ◌<◌, ◌≤◌, ◌*◌, ◌^◌, true, false};

    /// Whether a point is level with the end or past it.
    fn is_passed(&self, inner: u64, outer: u64) -> bool
        requires inner { inner ≤ 2 ^ 48 }
        requires outer { outer ≤ 2 ^ 48 }
        ensures past { result ≡ true → inner * self.now.outer ≤ outer * self.now.inner }
        ensures before { result ≡ false → outer * self.now.inner < inner * self.now.outer }
    {
        inner as u128 * self.outer as u128 <= outer as u128 * self.inner as u128
    }
}

impl QuadrantSweep {
    ghost use Rattle.std.specs.Prelude.{◌≡◌, ◌⊎◌, ◌+◌, ◌*◌, ◌-◌, ◌<◌, ◌≤◌, ◌^◌, true, false};
    ghost use Rattle.ng_step.specs.Private.Sweeps.{IsLeaving, IsLast, LeavesPast, LeavesBefore, IsFirstPast};

    /// How many outward steps it takes to get outside the circle.
    fn outward_steps(square: u128, inner: u64, outer: u64, step: u64) -> u64
        requires square { square ≤ 2 ^ 94 }
        requires inner { inner ≤ 2 ^ 48 }
        requires outer { outer ≤ 2 ^ 48 }
        requires step { (0 < step) × (step ≤ 2 ^ 47) }
        ensures leaving { IsLeaving square inner outer step result }
        ensures fits { outer + result * step ≤ 2 ^ 48 }
    {
        let inner_square = inner as u128 * inner as u128;
        if square < inner_square + outer as u128 * outer as u128 {
            return 0;
        }
        let root = (square - inner_square).isqrt() as u64;
        (root - outer) / step + 1
    }

    /// How many outward steps were made when it goes inward from a level.
    fn outward_to(&self, level: u64) -> u64
        requires { level * self.now.inner_step < self.now.inner }
        ensures leaving { IsLeaving self.now.square
            (self.now.inner - level * self.now.inner_step) self.now.outer self.now.outer_step result }
        ensures fits { self.now.outer + result * self.now.outer_step ≤ 2 ^ 48 }
    {
        let inner = self.inner - level * self.inner_step;
        QuadrantSweep::outward_steps(self.square, inner, self.outer, self.outer_step)
    }

    /// Its last point: an inward step from there leaves the quadrant.
    pub(crate) fn last(&self) -> SweepSteps
        ensures last { IsLast self.now result }
        ensures fits { self.now.outer + result.outward * self.now.outer_step ≤ 2 ^ 48 }
    {
        let inward = (self.inner - 1) / self.inner_step;
        SweepSteps {
            inward,
            outward: self.outward_to(inward),
        }
    }

    /// Whether it is at an end or past it when it goes inward from a level.
    fn leaves_past(&self, level: u64, end: QuadrantEnd) -> bool
        requires { level * self.now.inner_step < self.now.inner }
        ensures past { result ≡ true → LeavesPast self.now end level }
        ensures before { result ≡ false → LeavesBefore self.now end level }
    {
        let outward = self.outward_to(level);
        end.is_passed(
            self.inner - level * self.inner_step,
            self.outer + outward * self.outer_step,
        )
    }

    /// The first level from which it goes inward at an end or past it. This is a binary search: at most 48 iterations.
    fn first_level_past(&self, last: u64, end: QuadrantEnd) -> u64
        requires inside { last * self.now.inner_step < self.now.inner }
        requires past { LeavesPast self.now end last }
        ensures inside { result * self.now.inner_step < self.now.inner }
        ensures past { LeavesPast self.now end result }
        ensures first { (result ≡ 0) ⊎ LeavesBefore self.now end (result - 1) }
    {
        let mut first = 0;
        let mut levels = last + 1;
        'halves: while levels > 1 {
            let half = levels / 2;
            if self.leaves_past(first + half - 1, end) {
                levels = half;
            } else {
                first += half;
                levels -= half;
            }
        }
        first
    }

    /// The first point that is level with an end or past it. The sweep must enter before the end, and be past it when
    /// it goes inward from its last level.
    pub(crate) fn first_past(&self, last: SweepSteps, end: QuadrantEnd) -> SweepSteps
        requires last { IsLast self.now last }
        requires enters { self.now.outer * end.inner < self.now.inner * end.outer }
        requires past { LeavesPast self.now end last.inward }
        ensures first { IsFirstPast self.now end result }
        ensures fits { self.now.outer + result.outward * self.now.outer_step ≤ 2 ^ 48 }
    {
        let inward = self.first_level_past(last.inward, end);
        let before = if inward == 0 {
            0
        } else {
            self.outward_to(inward - 1)
        };
        let outer = self.outer + before * self.outer_step;
        let ahead = (self.inner - inward * self.inner_step) as u128 * end.outer as u128;
        let passed = outer as u128 * end.inner as u128;
        let more = ceil_div(
            ahead.saturating_sub(passed),
            self.outer_step as u128 * end.inner as u128,
        );
        SweepSteps {
            inward,
            outward: before + more as u64,
        }
    }

    /// Whether its last point is level with an end or past it.
    pub(crate) fn ends_past(&self, last: SweepSteps, end: QuadrantEnd) -> bool
        requires last { IsLast self.now last }
        requires fits { self.now.outer + last.outward * self.now.outer_step ≤ 2 ^ 48 }
        ensures past { result ≡ true → LeavesPast self.now end last.inward }
        ensures before { result ≡ false → (self.now.outer + last.outward * self.now.outer_step) * end.inner
            < (self.now.inner - last.inward * self.now.inner_step) * end.outer }
    {
        end.is_passed(
            self.inner - last.inward * self.inner_step,
            self.outer + last.outward * self.outer_step,
        )
    }
}
