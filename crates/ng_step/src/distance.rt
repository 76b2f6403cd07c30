//! The distance between two machine points.

ghost use Rattle.std.specs.Prelude.{◌≡◌, ◌<◌, ◌^◌, ◌*◌, ◌-ℤ◌, unsigned_abs};
ghost use Rattle.ng_step.specs.Hands.{square_between};

use ng_num::{Len, Point};

/// The square of the distance between two coordinates.
fn square_of(from: Len, to: Len) -> u128
    ensures value { result ≡ unsigned_abs (to -ℤ from) * unsigned_abs (to -ℤ from) }
    ensures size { result < 2 ^ 90 }
{
    let size = (to.nm() - from.nm()).unsigned_abs() as u128;
    size * size
}

/// The square of the distance between two points.
pub(crate) fn square_between(start: &Point, end: &Point) -> u128
    ensures value { result ≡ square_between start.now end.now }
    ensures size { result < 2 ^ 92 }
{
    square_of(start.x, end.x) + square_of(start.y, end.y) + square_of(start.z, end.z)
}
