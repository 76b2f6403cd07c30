//! An arc relative to its centre.

use crate::circle::Circle;
use crate::frame::{Frame, mirrored};
use crate::rounding::rounded;
use ng_canon::{Arc, Geometry, Plane, PlanePoint, pick_a, pick_b};
use ng_num::Point;

/// An arc in the frame of its plane. All points are offsets from its centre in nanometres; b is negated if the arc is
/// clockwise.
#[derive(Clone, Copy)]
pub(crate) struct CentredArc {
    pub frame: Frame,
    pub circle: Circle,
    /// The programmed start.
    pub start: PlanePoint,
    /// The programmed end.
    pub end: PlanePoint,
    /// The start rounded to whole steps.
    pub from: PlanePoint,
}

impl CentredArc {
    ghost use Rattle.std.specs.Prelude.{◌≡◌};
    ghost use Rattle.ng_step.specs.Hands.{centred};
    ghost use Rattle.ng_step.specs.Private.Sizes.{IsSized};

    /// An arc of the machine, relative to its centre.
    pub(crate) fn of(geometry: &Geometry, arc: &Arc) -> CentredArc
        ensures value { result ≡ centred geometry.now arc.now }
        ensures sizes { IsSized result }
    {
        let start = programmed(arc, &arc.start);
        let (step_a, step_b) = (step_a(geometry, arc.plane), step_b(geometry, arc.plane));
        CentredArc {
            frame: Frame {
                plane: arc.plane,
                turn: arc.turn,
            },
            circle: Circle {
                step_a: step_a as u64,
                step_b: step_b as u64,
                square: start.square(),
            },
            start,
            end: programmed(arc, &arc.end),
            from: rounded_start(arc, step_a, step_b),
        }
    }
}

ghost use Rattle.std.specs.Prelude.{◌≡◌, ◌+◌, ◌*◌, ◌^◌, ◌<◌, ◌≤◌, ◌-ℤ◌, unsigned_abs};
ghost use Rattle.ng_step.specs.Hands.{from_centre, programmed, rounded_start, step_a, step_b};
ghost use Rattle.ng_canon.specs.Plane.{AreBelowInSize};

/// A point of the plane as an offset from the arc's centre.
fn from_centre(arc: &Arc, a: i64, b: i64) -> PlanePoint
    requires a { unsigned_abs a < 2 ^ 44 }
    requires b { unsigned_abs b < 2 ^ 44 }
    ensures value { result ≡ from_centre arc.now a b }
    ensures sizes { AreBelowInSize result (2 ^ 45) }
{
    PlanePoint {
        a: a - arc.centre_a.nm(),
        b: mirrored(arc.turn, b - arc.centre_b.nm()),
    }
}

/// A programmed point as an offset from the arc's centre.
fn programmed(arc: &Arc, at: &Point) -> PlanePoint
    ensures value { result ≡ programmed arc.now at.now }
    ensures sizes { AreBelowInSize result (2 ^ 45) }
{
    let a = pick_a(arc.plane, at.x, at.y, at.z);
    let b = pick_b(arc.plane, at.x, at.y, at.z);
    from_centre(arc, a.nm(), b.nm())
}

/// The start rounded to whole steps, as an offset from the arc's centre.
fn rounded_start(arc: &Arc, step_a: u32, step_b: u32) -> PlanePoint
    requires a_some { 0 < step_a }
    requires a_most { step_a ≤ 1_000_000 }
    requires b_some { 0 < step_b }
    requires b_most { step_b ≤ 1_000_000 }
    ensures value { result ≡ rounded_start arc.now step_a step_b }
    ensures near_a { 2 * unsigned_abs (result.a -ℤ (programmed arc.now arc.now.start).a) ≤ step_a }
    ensures near_b { 2 * unsigned_abs (result.b -ℤ (programmed arc.now arc.now.start).b) ≤ step_b }
{
    let a = pick_a(arc.plane, arc.start.x, arc.start.y, arc.start.z);
    let b = pick_b(arc.plane, arc.start.x, arc.start.y, arc.start.z);
    from_centre(arc, rounded(a, step_a), rounded(b, step_b))
}

/// The step of the plane's axis a.
fn step_a(geometry: &Geometry, plane: Plane) -> u32
    ensures value { result ≡ step_a geometry.now plane }
    ensures some { 0 < result }
    ensures most { result ≤ 1_000_000 }
{
    match plane {
        Plane::Xy => geometry.x.step_nm,
        Plane::Xz => geometry.z.step_nm,
        Plane::Yz => geometry.y.step_nm,
    }
}

/// The step of the plane's axis b.
fn step_b(geometry: &Geometry, plane: Plane) -> u32
    ensures value { result ≡ step_b geometry.now plane }
    ensures some { 0 < result }
    ensures most { result ≤ 1_000_000 }
{
    match plane {
        Plane::Xy => geometry.y.step_nm,
        Plane::Xz => geometry.x.step_nm,
        Plane::Yz => geometry.z.step_nm,
    }
}
