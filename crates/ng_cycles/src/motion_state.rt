//! The machine's position and outputs, and the segments that change them.
ghost use Rattle.std.specs.Prelude.{◌≡◌};
ghost use Rattle.ng_cycles.specs.Segments.{after_segment, line_to};

use ng_canon::{Outputs, Pace, Segment, Spindle, StraightMove};
use ng_num::{Len, Point};

/// The machine's position and outputs.
#[derive(Clone, Copy)]
pub struct MotionState {
    pub point: Point,
    pub outputs: Outputs,
}

/// A straight move.
fn line(start: Point, end: Point, pace: Pace) -> Segment
    ensures { result ≡ line_to pace start end }
{
    Segment::Line(StraightMove { start, end, pace })
}

/// A switch to outputs.
fn switch(outputs: Outputs) -> Segment
    ensures { result ≡ Segment.Switch outputs }
{
    Segment::Switch(outputs)
}

/// Outputs with another state of the spindle.
fn with_spindle(outputs: Outputs, spindle: Spindle) -> Outputs
    ensures { result ≡ record outputs { spindle = spindle } }
{
    Outputs {
        spindle,
        speed: outputs.speed,
        mist: outputs.mist,
        flood: outputs.flood,
        selected_slot: outputs.selected_slot,
        spindle_slot: outputs.spindle_slot,
    }
}

impl MotionState {
    /// Moves to a point.
    pub(crate) fn move_to(&mut self, end: Point, pace: Pace) -> Segment
        ensures segment { result ≡ line_to pace self.old.point end }
        ensures motion_state { self.new ≡ after_segment self.old result }
    {
        let start = self.point;
        self.point = end;
        line(start, self.point, pace)
    }

    /// The point above or below the machine's position, at a height.
    pub(crate) fn at_height(&self, z: Len) -> Point
        ensures { result ≡ record self.now.point { z = z } }
    {
        Point {
            x: self.point.x,
            y: self.point.y,
            z,
        }
    }

    /// Switches the spindle.
    pub(crate) fn set_spindle(&mut self, spindle: Spindle, outputs: Outputs) -> Segment
        ensures segment { result ≡ Segment.Switch (record outputs { spindle = spindle }) }
        ensures motion_state { self.new ≡ after_segment self.old result }
    {
        self.outputs = with_spindle(outputs, spindle);
        switch(self.outputs)
    }
}
