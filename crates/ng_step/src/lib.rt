//! All pulses of a line or an arc, or the single item of a dwell or a switch, one at a time.
//!
//! A `Stepper` is made from a segment and a geometry. Its `next` returns exactly the items that `specs/Hands.antt`
//! defines, in order: the pulses of a line by its closed formula; the pulses of an arc by its quadrant rule, followed
//! by a line to the rounded end; or the single item. All pulses of a segment have the same period.
//! `specs/Promises.antt` says what holds of the items. They end at the rounded end. A line leaves the travel by at most
//! half a step. An arc's path stays near its circle and comes to an end. After each pulse of an arc the machine is at a
//! point of that path.
//!
//! The crate depends on the types of `ng_canon` and `ng_num`. It doesn't allocate. The next pulse takes only additions
//! and comparisons. Making a stepper takes a few square roots, even for an arc, whose period depends on the number of
//! its steps: `sweep` finds the points of a quadrant without walking it, and `walk::count` combines the quadrants.
//! Whether a segment is inside the travel isn't checked here.
#![tactic(auto)]

mod arc;
mod centred;
mod circle;
mod distance;
mod frame;
mod line;
mod periods;
mod quadrant;
mod rounding;
mod spread;
mod stepper;
mod steps;
mod sweep;
mod walk;
mod wide;

pub use stepper::Stepper;
