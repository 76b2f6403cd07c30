//! Whether a cycle stays within the travel, decided by its extreme coordinates.
ghost use Rattle.std.specs.Prelude.{◌≡◌, ◌≤◌};
ghost use Rattle.ng_num.specs.Range.{IsCount};
ghost use Rattle.ng_cycles.specs.Canned.{IsMade};

use crate::drill::{Drill, HoleAxis};
use ng_canon::{Axis, Geometry};
use ng_num::Len;

impl HoleAxis {
    ghost use Rattle.std.specs.Prelude.{◌&&◌};
    ghost use Rattle.ng_canon.specs.Geometry.{is_on};
    ghost use Rattle.ng_cycles.specs.Strokes.{coordinate};

    /// Whether its first and its last coordinate are on an axis.
    fn lies_on(&self, axis: &Axis, repeats: u32) -> bool
        requires some { 1 ≤ repeats }
        requires last { IsCount (coordinate self.now repeats) }
        ensures { result ≡ (is_on axis.now (coordinate self.now 1) && is_on axis.now (coordinate self.now repeats)) }
    {
        axis.contains(self.coordinate(1, repeats))
            && axis.contains(self.coordinate(repeats, repeats))
    }
}

impl Drill {
    ghost use Rattle.std.specs.Prelude.{◌≤ℤ◌, ◌+ℤ◌, pos, false};
    ghost use Rattle.ng_cycles.specs.Faults.{leaves_travel};
    ghost use Rattle.ng_cycles.specs.Private.Inside.{top_of, rises_inside, extremes_inside};

    /// The highest end of a move: the height of the first move in X and Y.
    fn top(&self) -> Len
        ensures { result ≡ top_of self.now }
    {
        if self.r.nm() < self.start.z.nm() {
            self.start.z
        } else {
            self.r
        }
    }

    /// Whether its first traverse, if it has one, ends within the travel in X and Y.
    fn rises_inside(&self, geometry: &Geometry) -> bool
        ensures { result ≡ rises_inside geometry.now self.now }
    {
        self.start.z.nm() >= self.r.nm()
            || (geometry.x.contains(self.start.x) && geometry.y.contains(self.start.y))
    }

    /// Whether the extreme coordinates are within the travel.
    fn extremes_inside(&self, geometry: &Geometry) -> bool
        requires { IsMade self.now }
        ensures { result ≡ extremes_inside geometry.now self.now }
    {
        self.x.lies_on(&geometry.x, self.repeats)
            && self.y.lies_on(&geometry.y, self.repeats)
            && geometry.z.contains(self.z)
            && geometry.z.contains(self.top())
            && self.rises_inside(geometry)
    }

    /// Whether a move ends outside the travel. Nothing is walked: the extreme coordinates decide.
    pub fn leaves_travel(&self, geometry: &Geometry) -> bool
        requires { IsMade self.now }
        ensures leaves { result ≡ leaves_travel geometry.now self.now }
        ensures near { result ≡ false → self.now.r ≤ℤ (self.now.z +ℤ pos 20_000_000_000) }
    {
        !self.extremes_inside(geometry)
    }
}
