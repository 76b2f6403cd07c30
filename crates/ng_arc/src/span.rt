//! Which extremes of its circle an arc passes: those at the start of the quadrants that it enters.
ghost use Rattle.std.specs.Prelude.{◌≡◌, ◌^◌, ◌<◌, ◌||◌, ◌==◌, not, unsigned_abs};
ghost use Rattle.ng_canon.specs.Plane.{square_of, cross, dot, AreBelowInSize};
ghost use Rattle.ng_arc.specs.Extremes.{is_within, is_passed, sweep_by};
ghost use Rattle.ng_arc.specs.Private.Quadrants.{direction, changes, passes_toward};

use ng_canon::{ArcDirection, PlanePoint, Quadrant};

/// Where an arc begins, and how often it enters the next quadrant. A clockwise arc is seen as a counterclockwise one
/// with b negated.
#[derive(Clone, Copy)]
pub(crate) struct ArcSpan {
    turn: ArcDirection,
    from: Quadrant,
    changes: u8,
    /// The square of the radius.
    square: u128,
}

/// The number of times that a full turn enters the next quadrant.
const FULL_TURN: u8 = 4;

impl ArcSpan {
    /// The span of an arc from a start to an end, which are relative to its centre.
    pub(crate) fn between(turn: ArcDirection, start: PlanePoint, end: PlanePoint) -> ArcSpan
        requires start { AreBelowInSize start (2 ^ 45) }
        requires end { AreBelowInSize end (2 ^ 45) }
        ensures passes { (q : Quadrant) → passes_toward result q ≡ is_passed turn start end (direction q) }
        ensures square { result.square ≡ square_of start }
    {
        let (from, to) = (start.mirrored(turn), end.mirrored(turn));
        ArcSpan {
            turn,
            from: from.quadrant(),
            changes: changes(from, to),
            square: start.square(),
        }
    }

    /// Whether the arc passes the direction at which a quadrant begins.
    #[tactic(auto, unfolding(crate::specs::Private::Quadrants::passes_toward))]
    fn passes(self, towards: Quadrant) -> bool
        ensures { result ≡ passes_toward self towards }
    {
        let entered = towards.mirrored(self.turn).number();
        (entered + 7 - self.from.number()) % 4 < self.changes
    }

    /// Whether the extreme in the direction at which a quadrant begins isn't passed, or is inside the travel.
    /// `reach_nm` is how far the travel reaches from the centre.
    pub(crate) fn keeps(&self, towards: Quadrant, reach_nm: i64) -> bool
        requires { unsigned_abs reach_nm < 2 ^ 45 }
        ensures { result ≡ (not (passes_toward self.now towards) || is_within self.now.square reach_nm) }
    {
        !self.passes(towards) || is_within(self.square, reach_nm)
    }
}

/// How often an arc enters the next quadrant. If the end is in the same direction from the centre as the start, it is a
/// full turn.
#[tactic(auto, unfolding(crate::specs::Private::Quadrants::changes))]
fn changes(start: PlanePoint, end: PlanePoint) -> u8
    requires start { AreBelowInSize start (2 ^ 45) }
    requires end { AreBelowInSize end (2 ^ 45) }
    ensures { result ≡ changes start end }
{
    if is_same_way(start, end) {
        FULL_TURN
    } else {
        start.quadrant_changes(end)
    }
}

/// Whether two points are in the same direction from the centre, or one of them is the centre.
fn is_same_way(first: PlanePoint, second: PlanePoint) -> bool
    requires first { AreBelowInSize first (2 ^ 45) }
    requires second { AreBelowInSize second (2 ^ 45) }
    ensures { result ≡ (sweep_by (cross first second) (dot first second) == 4) }
{
    first.cross(second) == 0 && first.dot(second) >= 0
}

/// Whether a circle, given the square of its radius, reaches no farther from its centre than the travel.
fn is_within(square: u128, reach_nm: i64) -> bool
    requires { unsigned_abs reach_nm < 2 ^ 45 }
    ensures { result ≡ is_within square reach_nm }
{
    let size = reach_nm.unsigned_abs() as u128;
    reach_nm >= 0 && square <= size * size
}
