//! The path of a block's motion, and its segments one at a time.
ghost use Rattle.std.specs.Prelude.{◌≡◌, ◌∷◌, [], MatchOption};
ghost use Rattle.ng_cycles.specs.Segments.{begin, after_segments, cycle_segments};
ghost use Rattle.ng_block.specs.PathSegments.{left_in};
ghost use Rattle.ng_block.specs.Path.{moving_at, point_after, traverse, path_segments, pace_command, spindle_command, command_of};

mod later;

pub use later::after_segment;
use ng_canon::{Arc, ArcFeed, CanonicalCommand, Pace, Segment, Spindle, StraightMove};
use ng_cycles::{Canned, Cycle};
use ng_num::Point;
use std::marker::Model;

/// The way home: to an intermediate point, and on from there, both at the traverse rate.
#[derive(Clone, Copy)]
pub(crate) struct HomePath {
    pub start: Point,
    pub between: Point,
    pub home: Point,
}

/// The path of a block's motion.
#[derive(Clone, Copy)]
pub(crate) enum Path {
    /// The machine stays where it is.
    Still,
    /// A move whose feed or time is missing: its block is refused (X1).
    WithoutFeed,
    Straight(StraightMove),
    Round(Arc),
    Homing(HomePath),
    /// A valid canned cycle.
    Cycle(Canned),
}

/// Stores the machine's position after a cycle.
#[inline(never)]
fn put_end(canned: &Canned, place: &mut Point)
    ensures { place.new ≡ (after_segments (begin canned.now) (cycle_segments canned.now)).point }
{
    *place = canned.end();
}

impl Path {
    /// A straight path at a pace.
    #[inline]
    pub fn moving_at(pace: Option<Pace>, start: Point, end: Point) -> Path
        ensures { result ≡ moving_at pace start end }
    {
        match pace {
            Some(pace) => Path::Straight(StraightMove { start, end, pace }),
            None => Path::WithoutFeed,
        }
    }

    /// Stores the machine's position after the path, given the one before it.
    #[inline]
    pub fn put_point_after(&self, start: &Point, place: &mut Point)
        ensures { place.new ≡ point_after self.now start.now }
    {
        match self {
            Path::Straight(line) => *place = line.end,
            Path::Round(arc) => *place = arc.end,
            Path::Homing(way) => *place = way.home,
            Path::Cycle(canned) => put_end(canned, place),
            Path::Still => *place = *start,
            Path::WithoutFeed => *place = *start,
        }
    }
}

/// A straight move at the traverse rate.
#[inline]
pub(crate) fn traverse(start: Point, end: Point) -> StraightMove
    ensures { result ≡ traverse start end }
{
    StraightMove {
        start,
        end,
        pace: Pace::Traverse,
    }
}

/// The next segment of a cycle.
#[inline]
fn next_in(cycle: &mut Option<Cycle>) -> Option<Segment>
    ensures { MatchOption result
        ((left_in cycle.old ≡ []) × (left_in cycle.new ≡ []))
        (λ segment. left_in cycle.old ≡ segment ∷ left_in cycle.new) }
{
    match cycle {
        None => None,
        Some(cycle) => cycle.next_segment(),
    }
}

/// The remaining segments of a path.
#[derive(Drop)]
pub(crate) struct PathSegments {
    next: Option<Segment>,
    /// The straight move after the next segment.
    after_next: Option<StraightMove>,
    /// The remaining segments of a cycle.
    cycle: Option<Cycle>,
}

impl Model for PathSegments {
    ghost use Rattle.std.specs.Prelude.{List, ◌++◌};
    ghost use Rattle.ng_canon.specs.declared.segment.Segment.{Segment};
    ghost use Rattle.ng_block.specs.PathSegments.{left_of, left_in};

    ghost Value = { List Segment };

    ghost view = { λ m. left_of m.next m.after_next ++ left_in m.cycle };
}

impl PathSegments {
    /// No segment.
    pub fn none() -> PathSegments
        ensures { result ≡ [] }
    {
        PathSegments {
            next: None,
            after_next: None,
            cycle: None,
        }
    }

    /// One segment.
    fn one(segment: Segment) -> PathSegments
        ensures { result ≡ segment ∷ [] }
    {
        PathSegments {
            next: Some(segment),
            after_next: None,
            cycle: None,
        }
    }

    /// All segments of a path.
    pub fn of(path: &Path) -> PathSegments
        ensures { result ≡ path_segments path.now }
    {
        match path {
            Path::Still => PathSegments::none(),
            Path::WithoutFeed => PathSegments::none(),
            Path::Straight(line) => PathSegments::one(Segment::Line(*line)),
            Path::Round(arc) => PathSegments::one(Segment::Arc(*arc)),
            Path::Homing(way) => PathSegments {
                next: Some(Segment::Line(traverse(way.start, way.between))),
                after_next: Some(traverse(way.between, way.home)),
                cycle: None,
            },
            Path::Cycle(canned) => PathSegments {
                next: None,
                after_next: None,
                cycle: Some(Cycle::of(canned)),
            },
        }
    }

    /// The next segment.
    #[inline]
    pub fn next(&mut self) -> Option<Segment>
        ensures { MatchOption result ((self.old ≡ []) × (self.new ≡ [])) (λ segment. self.old ≡ segment ∷ self.new) }
    {
        if self.next.is_none() && self.after_next.is_none() {
            return next_in(&mut self.cycle);
        }
        self.next_outside_cycle()
    }

    /// The next segment, if no cycle is left.
    fn next_outside_cycle(&mut self) -> Option<Segment>
        ensures { MatchOption result ((self.old ≡ []) × (self.new ≡ [])) (λ segment. self.old ≡ segment ∷ self.new) }
    {
        let next = self.next;
        let after_next = self.after_next;
        self.next = None;
        self.after_next = None;
        match next {
            Some(_) => {
                if let Some(line) = after_next {
                    self.next = Some(Segment::Line(line));
                }
                next
            }
            None => match after_next {
                Some(line) => Some(Segment::Line(line)),
                None => next_in(&mut self.cycle),
            },
        }
    }
}

/// The command of a straight move.
#[inline]
pub(crate) fn pace_command(pace: Pace, end: Point) -> CanonicalCommand
    ensures { result ≡ pace_command pace end }
{
    match pace {
        Pace::Traverse => CanonicalCommand::Traverse(end),
        Pace::Feed(_) => CanonicalCommand::Feed(end),
        Pace::InverseTime(_) => CanonicalCommand::Feed(end),
    }
}

/// The command of an arc.
fn arc_command(arc: &Arc) -> CanonicalCommand
    ensures { result ≡ CanonicalCommand.ArcFeed
        (record { end = arc.now.end; centre_a = arc.now.centre_a; centre_b = arc.now.centre_b; turn = arc.now.turn }) }
{
    CanonicalCommand::ArcFeed(ArcFeed {
        end: arc.end,
        centre_a: arc.centre_a,
        centre_b: arc.centre_b,
        turn: arc.turn,
    })
}

/// The command of a spindle that is switched.
pub(crate) fn spindle_command(spindle: Spindle) -> CanonicalCommand
    ensures { result ≡ spindle_command spindle }
{
    match spindle {
        Spindle::Stopped => CanonicalCommand::StopSpindle,
        Spindle::Clockwise => CanonicalCommand::StartSpindleClockwise,
        Spindle::Counterclockwise => CanonicalCommand::StartSpindleCounterclockwise,
    }
}

/// The command of a path's segment.
pub(crate) fn command_of(segment: &Segment) -> CanonicalCommand
    ensures { result ≡ command_of segment.now }
{
    match segment {
        Segment::Line(line) => pace_command(line.pace, line.end),
        Segment::Arc(arc) => arc_command(arc),
        Segment::Dwell(seconds) => CanonicalCommand::Dwell(*seconds),
        Segment::Switch(outputs) => spindle_command(outputs.spindle),
    }
}
