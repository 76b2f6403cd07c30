//! The steps of the three axes: in one pulse, and over a whole move.

use crate::rounding::steps_between;
use ng_canon::{AxisStep, Geometry};
use ng_num::Point;

/// One pulse: the step of each axis.
#[derive(Clone, Copy)]
pub(crate) struct AxisSteps {
    pub x: AxisStep,
    pub y: AxisStep,
    pub z: AxisStep,
}

/// The steps that each axis has to make.
#[derive(Clone, Copy)]
pub(crate) struct Distances {
    pub x: i64,
    pub y: i64,
    pub z: i64,
}

impl Distances {
    ghost use Rattle.std.specs.Prelude.{◌≡◌, ◌^◌, ◌<◌};
    ghost use Rattle.ng_step.specs.Hands.{distances};
    ghost use Rattle.ng_step.specs.Line.{largest};
    ghost use Rattle.ng_step.specs.Private.Sizes.{AreSized};

    /// The distances from one machine point to another, each rounded to whole steps.
    pub(crate) fn between(geometry: &Geometry, start: &Point, end: &Point) -> Distances
        ensures value { result ≡ distances geometry.now start.now end.now }
        ensures sizes { AreSized result (2 ^ 50) }
    {
        Distances {
            x: steps_between(start.x, end.x, geometry.x.step_nm),
            y: steps_between(start.y, end.y, geometry.y.step_nm),
            z: steps_between(start.z, end.z, geometry.z.step_nm),
        }
    }

    /// The largest number of steps of an axis.
    pub(crate) fn largest(self) -> u64
        requires { AreSized self (2 ^ 60) }
        ensures value { result ≡ largest self }
        ensures size { result < 2 ^ 60 }
    {
        let (x, y, z) = (
            self.x.unsigned_abs(),
            self.y.unsigned_abs(),
            self.z.unsigned_abs(),
        );
        x.max(y).max(z)
    }
}
