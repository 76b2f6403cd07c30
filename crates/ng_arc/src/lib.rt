//! Arcs in a plane: which of them are valid, and whether they stay within the travel.
//!
//! `check_arc` makes the shape of the arc that a line asks for, which gets its pace later, or returns the first fault
//! whose cause holds: E3 if the centre isn't a pair of lengths, or C1 to C4. The radii of start and end are roots of
//! whole numbers; they are compared exactly, using only their squares. `extremes_inside` checks the points of an arc's
//! circle that are farthest along an axis, if the arc passes them. `specs/Extremes.antt` defines when an arc passes a
//! direction; the code finds it by quadrants.
//!
//! The crate depends on `ng_canon` and `ng_num`, and doesn't allocate. Arcs are given by their centre, never by their
//! radius. The start and the end of an arc, and the axis perpendicular to its plane, aren't checked against the travel
//! here.
#![tactic(auto)]

mod asked;
mod checking;
mod extremes;
mod radii;
mod shape;
mod span;

pub use asked::{AskedArc, CentreOffsets, NamedAxes};
pub use checking::check_arc;
pub use extremes::extremes_inside;
pub use shape::ArcShape;
