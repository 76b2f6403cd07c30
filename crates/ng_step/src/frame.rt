//! The axes of an arc's plane, and the side from which an arc is seen.

use crate::quadrant::PlaneStep;
use crate::steps::{AxisSteps, Distances};
use ng_canon::{ArcDirection, AxisStep, Plane, pick_a, pick_b};

/// The frame of an arc: its plane and its direction. A clockwise arc is stepped as a counterclockwise one with b
/// negated.
#[derive(Clone, Copy)]
pub(crate) struct Frame {
    pub plane: Plane,
    pub turn: ArcDirection,
}

impl Frame {
    ghost use Rattle.std.specs.Prelude.{◌≡◌, ◌<◌, ◌^◌, unsigned_abs};
    ghost use Rattle.ng_step.specs.Frame.{pulse_with, pulse_without};
    ghost use Rattle.ng_step.specs.Hands.{across, closing_after};
    ghost use Rattle.ng_step.specs.Private.Sizes.{AreSized};

    /// The pulse with this step of the arc and this step of the third axis.
    pub(crate) fn pulse_with(self, made: PlaneStep, third: AxisStep) -> AxisSteps
        ensures { result ≡ pulse_with self made third }
    {
        let b = mirrored_step(self.turn, made.on_b());
        pulse_of(self.plane, made.on_a(), b, third)
    }

    /// The pulse in which the arc makes no step.
    pub(crate) fn pulse_without(self, third: AxisStep) -> AxisSteps
        ensures { result ≡ pulse_without self third }
    {
        pulse_of(self.plane, AxisStep::Still, AxisStep::Still, third)
    }

    /// The steps of the third axis.
    pub(crate) fn across(self, distance: &Distances) -> i64
        requires { AreSized distance.now (2 ^ 50) }
        ensures value { result ≡ across self distance.now }
        ensures size { unsigned_abs result < 2 ^ 50 }
    {
        of_third(self.plane, distance.x, distance.y, distance.z)
    }

    /// What is left of the distances after the steps of the arc and of the third axis. The arc's steps go `net_a` along
    /// a and `net_b` along b.
    pub(crate) fn closing_after(self, distance: &Distances, net_a: i64, net_b: i64) -> Distances
        requires distance { AreSized distance.now (2 ^ 50) }
        requires a { unsigned_abs net_a < 2 ^ 50 }
        requires b { unsigned_abs net_b < 2 ^ 50 }
        ensures value { result ≡ closing_after self distance.now net_a net_b }
        ensures sizes { AreSized result (2 ^ 54) }
    {
        let a = pick_a(self.plane, distance.x, distance.y, distance.z) - net_a;
        let b = pick_b(self.plane, distance.x, distance.y, distance.z) - mirrored(self.turn, net_b);
        match self.plane {
            Plane::Xy => Distances { x: a, y: b, z: 0 },
            Plane::Xz => Distances { x: b, y: 0, z: a },
            Plane::Yz => Distances { x: 0, y: a, z: b },
        }
    }
}

ghost use Rattle.std.specs.Prelude.{◌≡◌, ◌<◌, ◌^◌, unsigned_abs};
ghost use Rattle.ng_step.specs.Frame.{of_third, mirrored, mirrored_step, pulse_of, with_third};

/// Of three values for X, Y and Z: the one for the axis perpendicular to the plane.
fn of_third<T: Copy>(plane: Plane, x: T, y: T, z: T) -> T
    ensures { result ≡ of_third plane x y z }
{
    match plane {
        Plane::Xy => z,
        Plane::Xz => y,
        Plane::Yz => x,
    }
}

/// A coordinate on the plane's axis b, negated if the arc is clockwise.
pub(crate) fn mirrored(turn: ArcDirection, b: i64) -> i64
    requires { unsigned_abs b < 2 ^ 58 }
    ensures value { result ≡ mirrored turn b }
    ensures size { unsigned_abs result ≡ unsigned_abs b }
{
    match turn {
        ArcDirection::Clockwise => -b,
        ArcDirection::Counterclockwise => b,
    }
}

fn mirrored_step(turn: ArcDirection, step: AxisStep) -> AxisStep
    ensures { result ≡ mirrored_step turn step }
{
    match (turn, step) {
        (ArcDirection::Clockwise, AxisStep::Backward) => AxisStep::Forward,
        (ArcDirection::Clockwise, AxisStep::Forward) => AxisStep::Backward,
        (_, step) => step,
    }
}

fn pulse_of(plane: Plane, a: AxisStep, b: AxisStep, third: AxisStep) -> AxisSteps
    ensures { result ≡ pulse_of plane a b third }
{
    match plane {
        Plane::Xy => AxisSteps {
            x: a,
            y: b,
            z: third,
        },
        Plane::Xz => AxisSteps {
            x: b,
            y: third,
            z: a,
        },
        Plane::Yz => AxisSteps {
            x: third,
            y: a,
            z: b,
        },
    }
}

/// A pulse in which the third axis makes no step yet, with the third axis's step added.
pub(crate) fn with_third(plane: Plane, flat: AxisSteps, third: AxisStep) -> AxisSteps
    ensures { result ≡ with_third plane flat third }
{
    match (plane, third) {
        (_, AxisStep::Still) => flat,
        (Plane::Xy, _) => AxisSteps {
            x: flat.x,
            y: flat.y,
            z: third,
        },
        (Plane::Xz, _) => AxisSteps {
            x: flat.x,
            y: third,
            z: flat.z,
        },
        (Plane::Yz, _) => AxisSteps {
            x: third,
            y: flat.y,
            z: flat.z,
        },
    }
}
