//! What a block is divided into: straight moves, arcs, dwells, states of the outputs.
use crate::outputs::Outputs;
use crate::pace::Pace;
use crate::plane::{ArcDirection, Plane};
use ng_num::{Len, Num, Point};

/// A straight move between two machine points, which may be the same point.
#[derive(Clone, Copy, Debug, PartialEq, Eq)]
pub struct StraightMove {
    pub start: Point,
    pub end: Point,
    pub pace: Pace,
}

/// An arc or a helix between two machine points. If the end is the start, it is one full turn (own).
#[derive(Clone, Copy, Debug, PartialEq, Eq)]
pub struct Arc {
    pub plane: Plane,
    pub turn: ArcDirection,
    pub start: Point,
    pub end: Point,
    /// The centre's machine coordinate on the plane's axis a: X, Z, Y.
    pub centre_a: Len,
    /// The centre's machine coordinate on the plane's axis b: Y, X, Z.
    pub centre_b: Len,
    pub pace: Pace,
}

/// A part of a block that is journaled before it begins (own).
#[derive(Clone, Copy, Debug, PartialEq, Eq)]
pub enum Segment {
    Line(StraightMove),
    Arc(Arc),
    /// Seconds.
    Dwell(Num),
    /// The state of all outputs from then on.
    Switch(Outputs),
}

impl Default for Segment {
    fn default() -> Self {
        Segment::Dwell(Num::zero())
    }
}
