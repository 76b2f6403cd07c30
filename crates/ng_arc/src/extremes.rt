//! Whether the extremes that an arc passes are inside the travel.
ghost use Rattle.std.specs.Prelude.{◌≡◌, ◌^◌, ◌<◌, ◌-ℤ◌, unsigned_abs};
ghost use Rattle.ng_arc.specs.Extremes.{extremes_inside};

use crate::span::ArcSpan;
use ng_canon::{Arc, Axis, Geometry, PlanePoint, Quadrant, pick_a, pick_b};
use ng_num::Len;

/// How far a coordinate is above another.
fn reach_nm(below: Len, above: Len) -> i64
    ensures value { result ≡ above -ℤ below }
    ensures size { unsigned_abs result < 2 ^ 45 }
{
    above.nm() - below.nm()
}

/// Whether all extremes that an arc passes are inside the travel (own).
///
/// The extremes are the four points of the arc's circle that are farthest along an axis of its plane. The circle's
/// radius is the distance of the start from the centre. A full turn passes all of them; another arc passes those that
/// it reaches after its start and no later than its end. An extreme is inside if it isn't past the limit in its
/// direction. The start, the end and the axis perpendicular to the plane aren't checked here.
pub fn extremes_inside(arc: &Arc, geometry: &Geometry) -> bool
    ensures { result ≡ extremes_inside arc.now geometry.now }
{
    let passage = ArcSpan::between(
        arc.turn,
        PlanePoint::from_centre(arc, &arc.start),
        PlanePoint::from_centre(arc, &arc.end),
    );
    let a: Axis = pick_a(arc.plane, geometry.x, geometry.y, geometry.z);
    let b: Axis = pick_b(arc.plane, geometry.x, geometry.y, geometry.z);
    passage.keeps(Quadrant::First, reach_nm(arc.centre_a, a.high))
        & passage.keeps(Quadrant::Second, reach_nm(arc.centre_b, b.high))
        & passage.keeps(Quadrant::Third, reach_nm(a.low, arc.centre_a))
        & passage.keeps(Quadrant::Fourth, reach_nm(b.low, arc.centre_b))
}
