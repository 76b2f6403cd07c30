//! Canned cycles: G81, G82, G83, G85, G86 and G89 (NISTIR 6556, 3.5.16). Their segments are produced one at a time and
//! aren't stored.
//!
//! `Canned::of` makes a cycle from a line's words, or returns its first fault: E3, Y1 to Y8, X1, X2. It looks only at
//! the extreme coordinates, however many repeats and pecks there are. `Cycle` produces the segments: all of them, or
//! those from a given one on. It also gives the machine's position and outputs before each segment.
//! `specs/Strokes.antt` says stroke by stroke what a cycle does.
//!
//! The crates above decide which words a line may have, how they are read in its unit, and which words are kept;
//! `KeptWords::over` of `ng_state` is there for this. Nothing here allocates. The crate depends on `ng_state` for the
//! words that are kept, and on `ng_offsets` for the difference between program and machine coordinates.
#![tactic(auto)]

mod after_segments;
mod canned;
mod count;
mod cycle;
mod drill;
mod heights;
mod holes;
mod inside;
mod left;
mod motion_state;
mod peck;
mod phase;
mod skip;
mod words;

pub use canned::Canned;
pub use cycle::Cycle;
pub use drill::{Drill, HoleAxis, Work};
pub use motion_state::MotionState;
pub use peck::Peck;
pub use words::{CycleContext, CycleKind, CycleWords};
