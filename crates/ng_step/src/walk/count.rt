//! How many steps an arc has, found from its sweeps through the quadrants without walking any.

use crate::quadrant::turned;
use crate::rounding::whole_steps;
use crate::sweep::{QuadrantEnd, QuadrantSweep, SweepSteps};
use crate::walk::ArcWalk;
use ng_canon::PlanePoint;

/// The number of steps of an arc, and how far they go along each axis, in steps.
#[derive(Clone, Copy)]
pub(crate) struct Count {
    pub steps: u64,
    pub a: i64,
    pub b: i64,
}

/// A walk after a number of steps.
#[derive(Clone, Copy)]
struct Leap {
    walk: ArcWalk,
    steps: u64,
}

impl ArcWalk {
    ghost use Rattle.std.specs.Prelude.{List, length, MatchOption, IfSome, false, ◌^◌, unsigned_abs, ◌≡◌, ℕ, ◌+◌, ◌-◌, ◌*◌, ◌<◌, ◌≤◌};
    ghost use Rattle.ng_step.specs.Arcs.{stops, IsArc, net_a, net_b};
    ghost use Rattle.ng_step.specs.declared.quadrant.PlaneStep.{PlaneStep};
    ghost use Rattle.ng_step.specs.Turned.{spot_of, Walks, beyond};
    ghost use Rattle.ng_step.specs.Private.Sweeps.{inner_at, outer_at, IsLast};
    ghost use Rattle.ng_step.specs.Private.Leaps.{WalkLeads, EndsArc, PassesFrom, NeverStopsUntil, NeverStops, IsAhead, StopsAt};

    /// The number of steps to the end, and how far they go. It takes one square root for each quadrant, and one for
    /// each step of the binary search in the last quadrant: at most 60.
    pub(crate) fn count(&self, end: PlanePoint, quadrants: u64) -> Count
        requires walks { Walks self.now }
        requires end_a { unsigned_abs end.a < 2 ^ 50 }
        requires end_b { unsigned_abs end.b < 2 ^ 50 }
        requires few { quadrants ≤ 6 }
        ensures steps { (ms : List PlaneStep) → IsArc self.now.circle end quadrants (spot_of self.now) ms → result.steps ≡ length ms }
        ensures a { (ms : List PlaneStep) → IsArc self.now.circle end quadrants (spot_of self.now) ms → result.a ≡ net_a ms }
        ensures b { (ms : List PlaneStep) → IsArc self.now.circle end quadrants (spot_of self.now) ms → result.b ≡ net_b ms }
        ensures bounded { result.steps < 2 ^ 52 }
        ensures size_a { unsigned_abs result.a < 2 ^ 50 }
        ensures size_b { unsigned_abs result.b < 2 ^ 50 }
    {
        let mut walk = *self;
        let mut left = quadrants;
        let mut steps: u64 = 0;
        'quadrants: while left > 1 {
            let passage = walk.passage();
            let leap = walk.across(passage, passage.last());
            walk = leap.walk;
            steps += leap.steps;
            left -= 1;
        }
        let leap = walk.to_end(end, left);
        let (first, last) = (self.spot(), leap.walk.spot());
        Count {
            steps: steps + leap.steps,
            a: whole_steps(first.a, last.a, self.circle.step_a),
            b: whole_steps(first.b, last.b, self.circle.step_b),
        }
    }

    /// The sweep through the current quadrant.
    fn passage(&self) -> QuadrantSweep
        requires { Walks self.now }
        ensures { PassesFrom self.now result }
    {
        QuadrantSweep {
            square: self.circle.square,
            inner: self.inner,
            outer: self.outer,
            inner_step: self.inner_step,
            outer_step: self.outer_step,
        }
    }

    /// Goes through the rest of the quadrant into the next one.
    fn across(&self, passage: QuadrantSweep, last: SweepSteps) -> Leap
        requires walks { Walks self.now }
        requires from { PassesFrom self.now passage }
        requires last { IsLast passage last }
        requires fits { outer_at passage last.outward ≤ beyond }
        ensures walks { Walks result.walk }
        ensures circle { result.walk.circle ≡ self.now.circle }
        ensures leads { (e : PlanePoint) (left : ℕ) → 0 < left
            → NeverStopsUntil e left self.now (inner_at passage last.inward) (outer_at passage last.outward)
            → WalkLeads e self.now left result.walk (left - 1) result.steps }
    {
        let walk = ArcWalk::begin(
            self.frame,
            self.circle,
            self.quadrant.next(),
            self.outer + last.outward * self.outer_step,
            self.inner_step - (self.inner - last.inward * self.inner_step),
            self.outer_step,
            self.inner_step,
        );
        Leap {
            walk,
            steps: last.inward + last.outward + 1,
        }
    }

    /// Goes to a point of the quadrant.
    fn onward(&self, passage: QuadrantSweep, way: SweepSteps) -> Leap
        requires walks { Walks self.now }
        requires from { PassesFrom self.now passage }
        requires inside { way.inward * passage.inner_step < passage.inner }
        requires fits { outer_at passage way.outward ≤ beyond }
        ensures walks { Walks result.walk }
        ensures circle { result.walk.circle ≡ self.now.circle }
        ensures quadrant { result.walk.quadrant ≡ self.now.quadrant }
        ensures inner { result.walk.inner ≡ inner_at passage way.inward }
        ensures outer { result.walk.outer ≡ outer_at passage way.outward }
        ensures steps { result.steps ≡ way.inward + way.outward }
    {
        let walk = ArcWalk::begin(
            self.frame,
            self.circle,
            self.quadrant,
            self.inner - way.inward * self.inner_step,
            self.outer + way.outward * self.outer_step,
            self.inner_step,
            self.outer_step,
        );
        Leap {
            walk,
            steps: way.inward + way.outward,
        }
    }

    /// Goes to the end of an arc that has at most the current quadrant left.
    fn to_end(&self, end: PlanePoint, left: u64) -> Leap
        requires walks { Walks self.now }
        requires end_a { unsigned_abs end.a < 2 ^ 50 }
        requires end_b { unsigned_abs end.b < 2 ^ 50 }
        requires last { left ≤ 1 }
        ensures walks { Walks result.walk }
        ensures ends { EndsArc self.now.circle end self.now.quadrant self.now.inner self.now.outer left (spot_of result.walk) result.steps }
    {
        if self.stops(end, left) {
            return Leap {
                walk: *self,
                steps: 0,
            };
        }
        let passage = self.passage();
        let last = passage.last();
        match self.stop(passage, last, end) {
            Some(way) => self.onward(passage, way),
            None => self.across(passage, last),
        }
    }

    /// The first point of the quadrant at which an arc stops. `None` if it goes on to the next quadrant.
    fn stop(&self, passage: QuadrantSweep, last: SweepSteps, end: PlanePoint) -> Option<SweepSteps>
        requires walks { Walks self.now }
        requires from { PassesFrom self.now passage }
        requires last { IsLast passage last }
        requires fits { outer_at passage last.outward ≤ beyond }
        requires end_a { unsigned_abs end.a < 2 ^ 50 }
        requires end_b { unsigned_abs end.b < 2 ^ 50 }
        requires before { stops end 1 (spot_of self.now) ≡ false }
        ensures stop { MatchOption result
            (NeverStopsUntil end 1 self.now (inner_at passage last.inward) (outer_at passage last.outward))
            (λ way. StopsAt end self.now passage way) }
        ensures inside { IfSome result (λ way. way.inward * passage.inner_step < passage.inner) }
        ensures fits { IfSome result (λ way. outer_at passage way.outward ≤ beyond) }
    {
        let ahead = self.ahead(end)?;
        if passage.ends_past(last, ahead) {
            Some(passage.first_past(last, ahead))
        } else {
            None
        }
    }

    /// An end in coordinates of the quadrant. `None` if the arc doesn't stop there.
    fn ahead(&self, end: PlanePoint) -> Option<QuadrantEnd>
        requires walks { Walks self.now }
        requires end_a { unsigned_abs end.a < 2 ^ 50 }
        requires end_b { unsigned_abs end.b < 2 ^ 50 }
        requires before { stops end 1 (spot_of self.now) ≡ false }
        ensures { MatchOption result (NeverStops end self.now) (λ ahead. IsAhead self.now.quadrant end ahead) }
    {
        let end = turned(end, self.quadrant);
        if end.a <= 0 {
            return None;
        }
        Some(QuadrantEnd {
            inner: end.a.unsigned_abs(),
            outer: end.b.unsigned_abs(),
        })
    }
}
