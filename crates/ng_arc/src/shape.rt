//! An arc before it has a pace.
ghost use Rattle.std.specs.Prelude.{◌≡◌, ◌^◌};
ghost use Rattle.ng_canon.specs.Plane.{AreBelowInSize};
ghost use Rattle.ng_arc.specs.Shape.{from_centre, arc_at};

use ng_canon::{Arc, ArcDirection, Pace, Plane, PlanePoint, pick_a, pick_b};
use ng_num::{Len, Point};

/// An arc without its pace, on which none of its faults depends. The fields are those of `Arc`.
#[derive(Clone, Copy)]
pub struct ArcShape {
    pub plane: Plane,
    pub turn: ArcDirection,
    pub start: Point,
    pub end: Point,
    pub centre_a: Len,
    pub centre_b: Len,
}

impl ArcShape {
    /// A machine point, relative to the centre.
    pub(crate) fn from_centre(&self, point: &Point) -> PlanePoint
        ensures value { result ≡ from_centre self.now point.now }
        ensures size { AreBelowInSize result (2 ^ 45) }
    {
        let a: Len = pick_a(self.plane, point.x, point.y, point.z);
        let b: Len = pick_b(self.plane, point.x, point.y, point.z);
        PlanePoint {
            a: a.nm() - self.centre_a.nm(),
            b: b.nm() - self.centre_b.nm(),
        }
    }

    /// The arc at a pace.
    pub fn at(&self, pace: Pace) -> Arc
        ensures { result ≡ arc_at self.now pace }
    {
        Arc {
            plane: self.plane,
            turn: self.turn,
            start: self.start,
            end: self.end,
            centre_a: self.centre_a,
            centre_b: self.centre_b,
            pace,
        }
    }
}
