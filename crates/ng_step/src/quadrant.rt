//! The steps of an arc in the quadrants of its plane.

use ng_canon::{AxisStep, PlanePoint, Quadrant};

/// One step of one axis of the plane.
#[derive(Clone, Copy)]
pub(crate) enum PlaneStep {
    AddA,
    SubA,
    AddB,
    SubB,
}

impl PlaneStep {
    ghost use Rattle.std.specs.Prelude.{◌≡◌};
    ghost use Rattle.ng_step.specs.Arcs.{inward, outward};
    ghost use Rattle.ng_step.specs.Frame.{on_a, on_b};

    /// The step that it makes on the plane's axis a.
    pub(crate) fn on_a(self) -> AxisStep
        ensures { result ≡ on_a self }
    {
        match self {
            PlaneStep::AddA => AxisStep::Forward,
            PlaneStep::SubA => AxisStep::Backward,
            PlaneStep::AddB | PlaneStep::SubB => AxisStep::Still,
        }
    }

    /// The step that it makes on the plane's axis b.
    pub(crate) fn on_b(self) -> AxisStep
        ensures { result ≡ on_b self }
    {
        match self {
            PlaneStep::AddB => AxisStep::Forward,
            PlaneStep::SubB => AxisStep::Backward,
            PlaneStep::AddA | PlaneStep::SubA => AxisStep::Still,
        }
    }

    /// The inward step of a quadrant.
    pub(crate) fn inward(quadrant: Quadrant) -> PlaneStep
        ensures { result ≡ inward quadrant }
    {
        match quadrant {
            Quadrant::First => PlaneStep::SubA,
            Quadrant::Second => PlaneStep::SubB,
            Quadrant::Third => PlaneStep::AddA,
            Quadrant::Fourth => PlaneStep::AddB,
        }
    }

    /// The outward step of a quadrant.
    pub(crate) fn outward(quadrant: Quadrant) -> PlaneStep
        ensures { result ≡ outward quadrant }
    {
        match quadrant {
            Quadrant::First => PlaneStep::AddB,
            Quadrant::Second => PlaneStep::SubA,
            Quadrant::Third => PlaneStep::SubB,
            Quadrant::Fourth => PlaneStep::AddA,
        }
    }
}

ghost use Rattle.std.specs.Prelude.{◌≡◌, ◌<◌, ◌≤◌, ◌^◌, unsigned_abs};
ghost use Rattle.ng_canon.specs.Plane.{AreBelowInSize};
ghost use Rattle.ng_step.specs.Arcs.{quadrants_to_walk};
ghost use Rattle.ng_step.specs.Turned.{turned};

/// A point rotated back by the quadrants before its own, so that its quadrant becomes the first.
pub(crate) fn turned(point: PlanePoint, quadrant: Quadrant) -> PlanePoint
    requires a { unsigned_abs point.a < 2 ^ 50 }
    requires b { unsigned_abs point.b < 2 ^ 50 }
    ensures { result ≡ turned quadrant point }
{
    match quadrant {
        Quadrant::First => point,
        Quadrant::Second => PlanePoint {
            a: point.b,
            b: -point.a,
        },
        Quadrant::Third => PlanePoint {
            a: -point.a,
            b: -point.b,
        },
        Quadrant::Fourth => PlanePoint {
            a: -point.b,
            b: point.a,
        },
    }
}

/// How many quadrants to walk in from the rounded start.
#[tactic(auto, unfolding(crate::specs::Arcs::quadrants_to_walk))]
pub(crate) fn quadrants_to_walk(start: PlanePoint, end: PlanePoint, from: PlanePoint) -> u64
    requires start { AreBelowInSize start (2 ^ 50) }
    requires end { AreBelowInSize end (2 ^ 50) }
    ensures value { result ≡ quadrants_to_walk start end from }
    ensures few { result ≤ 6 }
{
    let (programmed, rounded) = (start.quadrant(), from.quadrant());
    let changes = start.quadrant_changes(end) as u64;
    if rounded.next().is_same(programmed) {
        changes + 2
    } else if rounded.is_same(programmed.next()) {
        changes
    } else {
        changes + 1
    }
}
