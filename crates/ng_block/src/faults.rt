//! The faults of a move, in the order in which they are checked.
ghost use Rattle.std.specs.Prelude.{◌≡◌};
ghost use Rattle.ng_num.specs.Causes.{first_fault};
ghost use Rattle.ng_block.specs.Faults.{stays_inside, path_faults};

use crate::path::Path;
use ng_arc::extremes_inside;
use ng_canon::{Arc, Geometry};
use ng_num::Fault;

/// Whether an arc ends within the travel, and passes no extreme outside it.
#[inline(never)]
#[tactic(auto, unfolding(crate::specs::Faults::stays_inside))]
fn stays_inside(arc: &Arc, geometry: &Geometry) -> bool
    ensures { result ≡ stays_inside arc.now geometry.now }
{
    geometry.contains(arc.end) && extremes_inside(arc, geometry)
}

/// The first fault of a path.
#[inline]
pub(crate) fn path_fault(path: &Path, geometry: &Geometry) -> Option<Fault>
    ensures { result ≡ first_fault (path_faults path.now geometry.now) }
{
    match path {
        Path::Still => None,
        Path::WithoutFeed => Some(Fault::NoFeed),
        Path::Straight(line) => if geometry.contains(line.end) {
            None
        } else {
            Some(Fault::OutsideTravel)
        },
        Path::Round(arc) => if stays_inside(arc, geometry) {
            None
        } else {
            Some(Fault::OutsideTravel)
        },
        Path::Cycle(_) => None,
        Path::Homing(way) => if geometry.contains(way.between) && geometry.contains(way.home) {
            None
        } else {
            Some(Fault::OutsideTravel)
        },
    }
}
