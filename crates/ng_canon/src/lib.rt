//! What blocks are turned into: canonical commands and their text, segments, and the items that are handed out.
//!
//! `print` appends the text of a command, exact to the byte; only the printing functions allocate. The types `Axis` and
//! `Geometry` guarantee that their values are within the limits, and they say what is within the travel.
//!
//! A `PlanePoint` is a point of an arc's plane, relative to the arc's centre. It lies in one `Quadrant` around the
//! centre.
//!
//! The plain types are defined here once, for the interpreter, the stepper, the device and the controller. The crate
//! depends on `ng_num` alone.
#![tactic(auto)]

mod command;
mod geometry;
mod item;
mod outputs;
mod pace;
mod plane;
mod plane_point;
mod printing;
mod quadrant;
mod segment;

pub use command::{ArcFeed, Canon, CanonicalCommand};
pub use geometry::{Axis, Geometry};
pub use item::{AxisStep, Item, Pulse};
pub use outputs::{Outputs, Spindle};
pub use pace::{Feed, InverseTime, Pace, Rate};
pub use plane::{ArcDirection, Plane, pick_a, pick_b};
pub use plane_point::PlanePoint;
pub use printing::{print, print_command, print_feed, print_traverse};
pub use quadrant::Quadrant;
pub use segment::{Arc, Segment, StraightMove};
