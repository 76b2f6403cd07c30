//! A walk along an arc, one step at a time, by differences.

ghost use Rattle.std.specs.Prelude.{◌≡◌};

mod count;

use crate::circle::Circle;
use crate::frame::Frame;
use crate::quadrant::{PlaneStep, turned};
use crate::steps::AxisSteps;
use crate::wide::{difference, product, square, sum, twice};
use ng_canon::{AxisStep, PlanePoint, Quadrant};

/// A point on the way around a circle, relative to its quadrant. An inward step decreases `inner`, and an outward step
/// increases `outer`. The other fields are differences, and the steps that belong to the quadrant.
#[derive(Clone, Copy)]
pub(crate) struct ArcWalk {
    circle: Circle,
    quadrant: Quadrant,
    inner: u64,
    outer: u64,
    inner_step: u64,
    outer_step: u64,
    excess: i128,
    inward: i128,
    outward: i128,
    inner_second: i128,
    outer_second: i128,
    frame: Frame,
    inward_made: AxisSteps,
    outward_made: AxisSteps,
}

impl ArcWalk {
    ghost use Rattle.std.specs.Prelude.{◌^◌, int_le, unsigned_abs, ◌≡◌, ℕ, ◌+◌, ◌*◌, ◌<◌, ◌≤◌, ◌≤ℤ◌, ◌<ℤ◌, pos};
    ghost use Rattle.ng_canon.specs.Plane.{cross};
    ghost use Rattle.ng_step.specs.Arcs.{stops, IsLargeArc, larger};
    ghost use Rattle.ng_step.specs.Turned.{spot_of, Walks, ArcStepSpec, beyond, farthest, point_of_quadrant, in_step, out_step};

    /// A walk from a point that isn't the centre.
    pub(crate) fn new(frame: Frame, circle: Circle, from: PlanePoint) -> ArcWalk
        requires arc { IsLargeArc circle farthest }
        requires small { larger circle ≤ 2 ^ 47 }
        requires some { 0 < unsigned_abs from.a + unsigned_abs from.b }
        requires a { unsigned_abs from.a ≤ beyond }
        requires b { unsigned_abs from.b ≤ beyond }
        ensures walks { Walks result }
        ensures spot { spot_of result ≡ from }
        ensures circle { result.circle ≡ circle }
        ensures frame { result.frame ≡ frame }
    {
        let quadrant = from.quadrant();
        let (a, b) = (from.a.unsigned_abs(), from.b.unsigned_abs());
        match quadrant {
            Quadrant::First | Quadrant::Third => ArcWalk::begin(
                frame,
                circle,
                quadrant,
                a,
                b,
                circle.step_a,
                circle.step_b,
            ),
            Quadrant::Second | Quadrant::Fourth => ArcWalk::begin(
                frame,
                circle,
                quadrant,
                b,
                a,
                circle.step_b,
                circle.step_a,
            ),
        }
    }

    fn begin(
        frame: Frame,
        circle: Circle,
        quadrant: Quadrant,
        inner: u64,
        outer: u64,
        inner_step: u64,
        outer_step: u64,
    ) -> ArcWalk
        requires arc { IsLargeArc circle farthest }
        requires small { larger circle ≤ 2 ^ 47 }
        requires some { 0 < inner }
        requires inner { inner ≤ beyond }
        requires outer { outer ≤ beyond }
        requires inner_step { inner_step ≡ in_step circle quadrant }
        requires outer_step { outer_step ≡ out_step circle quadrant }
        ensures walks { Walks result }
        ensures spot { spot_of result ≡ point_of_quadrant quadrant inner outer }
        ensures quadrant { result.quadrant ≡ quadrant }
        ensures inner { result.inner ≡ inner }
        ensures outer { result.outer ≡ outer }
        ensures circle { result.circle ≡ circle }
        ensures frame { result.frame ≡ frame }
    {
        let inner_square = square(inner_step);
        let outer_square = square(outer_step);
        ArcWalk {
            circle,
            quadrant,
            inner,
            outer,
            inner_step,
            outer_step,
            excess: difference(sum(square(inner), square(outer)), circle.square as i128),
            inward: difference(inner_square, twice(inner, inner_step)),
            outward: sum(outer_square, twice(outer, outer_step)),
            inner_second: sum(inner_square, inner_square),
            outer_second: sum(outer_square, outer_square),
            frame,
            inward_made: frame.pulse_with(PlaneStep::inward(quadrant), AxisStep::Still),
            outward_made: frame.pulse_with(PlaneStep::outward(quadrant), AxisStep::Still),
        }
    }

    /// Whether the point is level with an end or past it.
    fn is_past(&self, end: PlanePoint) -> bool
        requires walks { Walks self.now }
        requires end_a { unsigned_abs end.a < 2 ^ 50 }
        requires end_b { unsigned_abs end.b < 2 ^ 50 }
        ensures { result ≡ int_le (cross (spot_of self.now) end) (pos 0) }
    {
        let end = turned(end, self.quadrant);
        product(self.inner, end.b) <= product(self.outer, end.a)
    }

    /// Whether an arc that has `left` quadrants to walk in stops at the point.
    #[tactic(auto, unfolding(crate::specs::Arcs::stops))]
    fn stops(&self, end: PlanePoint, left: u64) -> bool
        requires walks { Walks self.now }
        requires end_a { unsigned_abs end.a < 2 ^ 50 }
        requires end_b { unsigned_abs end.b < 2 ^ 50 }
        ensures { result ≡ stops end left (spot_of self.now) }
    {
        left == 0 || (left == 1 && self.is_past(end))
    }

    /// The arc's frame.
    pub(crate) fn frame(&self) -> Frame
        ensures { result ≡ self.now.frame }
    {
        self.frame
    }

    /// The current point.
    fn spot(&self) -> PlanePoint
        requires { Walks self.now }
        ensures value { result ≡ spot_of self.now }
        ensures a { unsigned_abs result.a ≤ beyond }
        ensures b { unsigned_abs result.b ≤ beyond }
    {
        let (inner, outer) = (self.inner as i64, self.outer as i64);
        match self.quadrant {
            Quadrant::First => PlanePoint { a: inner, b: outer },
            Quadrant::Second => PlanePoint {
                a: -outer,
                b: inner,
            },
            Quadrant::Third => PlanePoint {
                a: -inner,
                b: -outer,
            },
            Quadrant::Fourth => PlanePoint {
                a: outer,
                b: -inner,
            },
        }
    }

    /// Makes the next step, and returns its pulse. The third axis makes no step in it.
    pub(crate) fn step(&mut self) -> AxisSteps
        requires { Walks self.old }
        ensures { ArcStepSpec self.old self.new result }
    {
        if self.excess <= 0 {
            self.go_outward()
        } else if self.inner_step < self.inner {
            self.go_inward()
        } else {
            self.cross()
        }
    }

    #[tactic(auto, using(crate::proofs::WalkLemmas::small))]
    fn go_outward(&mut self) -> AxisSteps
        requires walks { Walks self.old }
        requires inside { self.old.excess ≤ℤ pos 0 }
        ensures { ArcStepSpec self.old self.new result }
    {
        self.excess = sum(self.excess, self.outward);
        self.outward = sum(self.outward, self.outer_second);
        self.outer += self.outer_step;
        self.outward_made
    }

    #[tactic(auto, using(crate::proofs::WalkLemmas::small))]
    fn go_inward(&mut self) -> AxisSteps
        requires walks { Walks self.old }
        requires outside { pos 0 <ℤ self.old.excess }
        requires far { self.old.inner_step < self.old.inner }
        ensures { ArcStepSpec self.old self.new result }
    {
        self.excess = sum(self.excess, self.inward);
        self.inward = sum(self.inward, self.inner_second);
        self.inner -= self.inner_step;
        self.inward_made
    }

    #[cold]
    #[inline(never)]
    #[tactic(auto, using(crate::proofs::WalkLemmas::small))]
    fn cross(&mut self) -> AxisSteps
        requires walks { Walks self.old }
        requires outside { pos 0 <ℤ self.old.excess }
        requires near { self.old.inner ≤ self.old.inner_step }
        ensures { ArcStepSpec self.old self.new result }
    {
        let made = self.inward_made;
        let quadrant = self.quadrant.next();
        *self = ArcWalk {
            circle: self.circle,
            quadrant,
            inner: self.outer,
            outer: self.inner_step - self.inner,
            inner_step: self.outer_step,
            outer_step: self.inner_step,
            excess: sum(self.excess, self.inward),
            inward: difference(self.outer_second, self.outward),
            outward: sum(self.inward, self.inner_second),
            inner_second: self.outer_second,
            outer_second: self.inner_second,
            frame: self.frame,
            inward_made: self
                .frame
                .pulse_with(PlaneStep::inward(quadrant), AxisStep::Still),
            outward_made: self
                .frame
                .pulse_with(PlaneStep::outward(quadrant), AxisStep::Still),
        };
        made
    }
}
