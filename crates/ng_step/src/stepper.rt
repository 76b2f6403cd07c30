//! The items of a segment, one at a time (own).

use crate::arc::ArcPulses;
use crate::centred::CentredArc;
use crate::distance::square_between;
use crate::line::LinePulses;
use crate::periods::{pulse_us, root_up};
use crate::quadrant::quadrants_to_walk;
use crate::steps::{AxisSteps, Distances};
use crate::walk::ArcWalk;
use ng_canon::{Arc, Geometry, Item, Pace, Pulse, Segment};
use ng_num::{Num, Point};
use std::marker::Model;

/// The remaining items of a segment; in contracts it is their list. A pulse carries at most one step of each axis, and
/// the microseconds until the next pulse.
#[derive(Drop)]
pub struct Stepper {
    single: Option<Item>,
    arc: Option<ArcPulses>,
    line: LinePulses,
    period_us: u64,
}

impl Model for Stepper {
    ghost use Rattle.std.specs.Prelude.{List};
    ghost use Rattle.ng_canon.specs.declared.item.Item.{Item};

    ghost Value = { List Item };

    ghost use Rattle.ng_step.specs.Stepper.{items_left};

    ghost view = { items_left };
}

impl Stepper {
    ghost use Rattle.std.specs.Prelude.{◌≡◌, ◌∷◌, ◌++◌, ◌^◌, [], MatchOption, map};
    ghost use Rattle.ng_step.specs.Hands.{pulse_item, line_items, arc_items, large_arc_items, hand};
    ghost use Rattle.ng_step.specs.Promises.{EndsOnItsEnd, FollowsItsLine, StaysInside, KeepsToItsCircle, FollowsItsPath};
    ghost use Rattle.ng_step.specs.Private.Sizes.{AreSized, IsWalkable};
    ghost use Rattle.ng_step.specs.Stepper.{or_none};

    /// A stepper at the start of a segment, which may be any segment, inside the travel or not. It doesn't allocate and
    /// doesn't fail. It takes at most 60 square roots, even for the longest arc.
    pub fn new(segment: &Segment, geometry: &Geometry) -> Stepper
        ensures items { result ≡ hand segment.now geometry.now }
        ensures ends { EndsOnItsEnd segment.now geometry.now }
        ensures follows { FollowsItsLine segment.now geometry.now }
        ensures stays { StaysInside segment.now geometry.now }
        ensures keeps { KeepsToItsCircle segment.now geometry.now }
        ensures path { FollowsItsPath segment.now geometry.now }
    {
        match segment {
            Segment::Line(line) => Stepper::over_line(geometry, line.pace, &line.start, &line.end),
            Segment::Arc(arc) => Stepper::over_arc(geometry, arc),
            Segment::Dwell(time) => Stepper::single(Item::Dwell {
                us: dwell_us(*time),
            }),
            Segment::Switch(outputs) => Stepper::single(Item::Switch(*outputs)),
        }
    }

    /// The pulses of an arc, if there is one, and then those of a line.
    fn over(arc: Option<ArcPulses>, line: LinePulses, period_us: u64) -> Stepper
        ensures { result ≡ map (pulse_item period_us) (or_none arc ++ line) }
    {
        Stepper {
            single: None,
            arc,
            line,
            period_us,
        }
    }

    /// The pulses of a line.
    fn over_line(geometry: &Geometry, pace: Pace, start: &Point, end: &Point) -> Stepper
        ensures { result ≡ line_items geometry.now pace start.now end.now }
    {
        let distances = Distances::between(geometry, start, end);
        let length = root_up(square_between(start, end));
        let period_us = pulse_us(geometry, pace, length, distances.largest());
        Stepper::over(None, LinePulses::new(distances), period_us)
    }

    /// The pulses of an arc and of its closing line. A small arc is a line.
    fn over_arc(geometry: &Geometry, arc: &Arc) -> Stepper
        ensures { result ≡ arc_items geometry.now arc.now }
    {
        let centred = CentredArc::of(geometry, arc);
        if centred.circle.is_small() {
            return Stepper::over_line(geometry, arc.pace, &arc.start, &arc.end);
        }
        let distance = Distances::between(geometry, &arc.start, &arc.end);
        Stepper::over_large_arc(geometry, arc.pace, &centred, &distance)
    }

    /// The pulses of an arc, and then those of a line to its rounded end.
    fn over_large_arc(
        geometry: &Geometry,
        pace: Pace,
        arc: &CentredArc,
        distance: &Distances,
    ) -> Stepper
        requires walkable { IsWalkable arc.now }
        requires distance { AreSized distance.now (2 ^ 50) }
        ensures { result ≡ large_arc_items geometry.now pace arc.now distance.now }
    {
        let walk = ArcWalk::new(arc.frame, arc.circle, arc.from);
        let count = walk.count(arc.end, quadrants_to_walk(arc.start, arc.end, arc.from));
        let across = arc.frame.across(distance);
        let closing = arc.frame.closing_after(distance, count.a, count.b);
        let pulses = count.steps.max(across.unsigned_abs()) + closing.largest();
        let length = pulses as u128 * arc.circle.larger() as u128;
        let period_us = pulse_us(geometry, pace, length, pulses);
        Stepper::over(
            Some(ArcPulses::new(walk, count.steps, across)),
            LinePulses::new(closing),
            period_us,
        )
    }

    /// A single item.
    fn single(item: Item) -> Stepper
        ensures { result ≡ item ∷ [] }
    {
        Stepper {
            single: Some(item),
            arc: None,
            line: LinePulses::new(Distances { x: 0, y: 0, z: 0 }),
            period_us: 0,
        }
    }

    /// The next item. `None` after the last one, and from then on.
    pub fn next(&mut self) -> Option<Item>
        ensures { MatchOption result ((self.old ≡ []) × (self.new ≡ [])) (λ i. self.old ≡ i ∷ self.new) }
    {
        if let Some(item) = self.single {
            self.single = None;
            return Some(item);
        }
        if let Some(arc) = &mut self.arc {
            if let Some(steps) = arc.next() {
                return Some(pulse_item(steps, self.period_us));
            }
        }
        match self.line.next() {
            Some(steps) => Some(pulse_item(steps, self.period_us)),
            None => None,
        }
    }
}

ghost use Rattle.std.specs.Prelude.{◌≡◌};
ghost use Rattle.ng_step.specs.Hands.{pulse_item, dwell_us};

/// The microseconds of a time; 0 for a negative time.
fn dwell_us(time: Num) -> u64
    ensures { result ≡ dwell_us time }
{
    time.count().max(0) as u64
}

fn pulse_item(steps: AxisSteps, period_us: u64) -> Item
    ensures { result ≡ pulse_item period_us steps }
{
    Item::Pulse(Pulse {
        x: steps.x,
        y: steps.y,
        z: steps.z,
        period_us,
    })
}
