//! Points of an arc's plane, relative to the arc's centre.
ghost use Rattle.std.specs.Prelude.{◌≡◌, ◌^◌, ◌<◌, ◌≤◌, ◌*ℤ◌, unsigned_abs};
ghost use Rattle.ng_canon.specs.Plane.{from_centre, square_of, cross, dot, mirror, AreBelowInSize};
ghost use Rattle.ng_canon.specs.Quadrant.{quadrant, quadrant_changes};

use crate::plane::{ArcDirection, pick_a, pick_b};
use crate::quadrant::Quadrant;
use crate::segment::Arc;
use ng_num::{Len, Point};

/// An offset from an arc's centre in nanometres, along the two axes of its plane.
#[derive(Clone, Copy, Debug)]
pub struct PlanePoint {
    pub a: i64,
    pub b: i64,
}

impl PlanePoint {
    /// A machine point, relative to an arc's centre.
    pub fn from_centre(arc: &Arc, point: &Point) -> PlanePoint
        ensures value { result ≡ from_centre arc.now point.now }
        ensures size { AreBelowInSize result (2 ^ 45) }
    {
        let a: Len = pick_a(arc.plane, point.x, point.y, point.z);
        let b: Len = pick_b(arc.plane, point.x, point.y, point.z);
        PlanePoint {
            a: a.nm() - arc.centre_a.nm(),
            b: b.nm() - arc.centre_b.nm(),
        }
    }

    /// The square of its distance from the centre.
    pub fn square(self) -> u128
        requires { AreBelowInSize self (2 ^ 45) }
        ensures value { result ≡ square_of self }
        ensures size { result < 2 ^ 91 }
    {
        let (a, b) = (self.a.unsigned_abs() as u128, self.b.unsigned_abs() as u128);
        a * a + b * b
    }

    /// The point, with b negated if the arc is clockwise.
    pub fn mirrored(self, direction: ArcDirection) -> PlanePoint
        requires { AreBelowInSize self (2 ^ 45) }
        ensures value { result ≡ mirror direction self }
        ensures size { AreBelowInSize result (2 ^ 45) }
    {
        match direction {
            ArcDirection::Counterclockwise => self,
            ArcDirection::Clockwise => PlanePoint {
                a: self.a,
                b: -self.b,
            },
        }
    }

    /// The cross product. It is above 0 if the other point is less than half a turn away counterclockwise.
    pub fn cross(self, other: PlanePoint) -> i128
        requires first { AreBelowInSize self (2 ^ 50) }
        requires second { AreBelowInSize other (2 ^ 50) }
        ensures { result ≡ cross self other }
    {
        product(self.a, other.b) - product(self.b, other.a)
    }

    /// The dot product. It is above 0 if the other point is less than a quarter turn away in either direction.
    pub fn dot(self, other: PlanePoint) -> i128
        requires first { AreBelowInSize self (2 ^ 50) }
        requires second { AreBelowInSize other (2 ^ 50) }
        ensures { result ≡ dot self other }
    {
        product(self.a, other.a) + product(self.b, other.b)
    }

    /// The quadrant that the point is in.
    #[tactic(auto, unfolding(crate::specs::Quadrant::quadrant))]
    pub fn quadrant(self) -> Quadrant
        ensures { result ≡ quadrant self }
    {
        if self.a > 0 && self.b >= 0 {
            Quadrant::First
        } else if self.a <= 0 && self.b > 0 {
            Quadrant::Second
        } else if self.a < 0 && self.b <= 0 {
            Quadrant::Third
        } else {
            Quadrant::Fourth
        }
    }

    /// How often a counterclockwise arc from here to an end enters the next quadrant.
    pub fn quadrant_changes(self, end: PlanePoint) -> u8
        requires start { AreBelowInSize self (2 ^ 50) }
        requires end { AreBelowInSize end (2 ^ 50) }
        ensures value { result ≡ quadrant_changes self end }
        ensures few { result ≤ 4 }
    {
        let (from, to) = (self.quadrant(), end.quadrant());
        if !from.is_same(to) {
            (to.number() + 4 - from.number()) % 4
        } else if self.cross(end) > 0 {
            0
        } else {
            4
        }
    }
}

fn product(first: i64, second: i64) -> i128
    requires first { unsigned_abs first < 2 ^ 50 }
    requires second { unsigned_abs second < 2 ^ 50 }
    ensures value { result ≡ first *ℤ second }
    ensures size { unsigned_abs result ≤ 2 ^ 100 }
{
    first as i128 * second as i128
}
