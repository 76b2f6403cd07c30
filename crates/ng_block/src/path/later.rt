//! The later segments of a path, and the machine's position and outputs before them. Those of a cycle aren't walked.
ghost use Rattle.std.specs.Prelude.{◌≡◌, length, take, drop};
ghost use Rattle.ng_cycles.specs.Segments.{after_segments, after_segment};
ghost use Rattle.ng_block.specs.Path.{path_segments};

use crate::path::{Path, PathSegments, traverse};
use ng_canon::Segment;
use ng_cycles::{Cycle, MotionState};
use ng_num::Point;

/// Another position, with unchanged outputs.
fn moved(before: MotionState, point: Point) -> MotionState
    ensures { result ≡ record before { point = point } }
{
    MotionState {
        point,
        outputs: before.outputs,
    }
}

/// The machine's position and outputs after a segment.
pub fn after_segment(before: MotionState, segment: &Segment) -> MotionState
    ensures { result ≡ after_segment before segment.now }
{
    match segment {
        Segment::Line(line) => moved(before, line.end),
        Segment::Arc(arc) => moved(before, arc.end),
        Segment::Dwell(_) => before,
        Segment::Switch(outputs) => MotionState {
            point: before.point,
            outputs: *outputs,
        },
    }
}

impl Path {
    /// How many segments the path has.
    pub fn count(&self) -> u128
        ensures { result ≡ length (path_segments self.now) }
    {
        match self {
            Path::Still => 0,
            Path::WithoutFeed => 0,
            Path::Straight(_) => 1,
            Path::Round(_) => 1,
            Path::Homing(_) => 2,
            Path::Cycle(canned) => canned.count(),
        }
    }

    /// The machine's position and outputs after its first `n` segments, or after all of them, given those before.
    #[tactic(auto, using(crate::proofs::LaterLemmas::one_taken, crate::proofs::LaterLemmas::two_taken))]
    pub fn motion_state_after(&self, before: MotionState, n: u64) -> MotionState
        ensures { result ≡ after_segments before (take n (path_segments self.now)) }
    {
        if n == 0 {
            return before;
        }
        match self {
            Path::Still => before,
            Path::WithoutFeed => before,
            Path::Straight(line) => moved(before, line.end),
            Path::Round(arc) => moved(before, arc.end),
            Path::Homing(way) => moved(before, if n == 1 { way.between } else { way.home }),
            Path::Cycle(canned) => canned.motion_state_after(before, n),
        }
    }
}

impl PathSegments {
    /// The segments of a path after its first n.
    #[tactic(auto, using(crate::proofs::LaterLemmas::one_dropped, crate::proofs::LaterLemmas::two_dropped))]
    pub fn later(path: &Path, n: u64) -> PathSegments
        ensures { result ≡ drop n (path_segments path.now) }
    {
        if n == 0 {
            return PathSegments::of(path);
        }
        match path {
            Path::Still => PathSegments::none(),
            Path::WithoutFeed => PathSegments::none(),
            Path::Straight(_) => PathSegments::none(),
            Path::Round(_) => PathSegments::none(),
            Path::Homing(way) => if n == 1 {
                PathSegments::one(Segment::Line(traverse(way.between, way.home)))
            } else {
                PathSegments::none()
            },
            Path::Cycle(canned) => PathSegments {
                next: None,
                after_next: None,
                cycle: Some(Cycle::from(canned, n)),
            },
        }
    }
}
