//! Points of the three axes.
use crate::len::Len;

/// A point of the three linear axes, in machine or program coordinates (NISTIR 6556, 2.1.1).
#[derive(Clone, Copy, Debug, PartialEq, Eq)]
pub struct Point {
    pub x: Len,
    pub y: Len,
    pub z: Len,
}

impl Point {
    ghost use Rattle.std.specs.Prelude.{◌≡◌};
    ghost use Rattle.ng_num.specs.Point.{zero_point};

    /// The point whose coordinates are all 0.
    pub fn zero() -> Point
        ensures { result ≡ zero_point }
    {
        Point {
            x: Len::zero(),
            y: Len::zero(),
            z: Len::zero(),
        }
    }
}
