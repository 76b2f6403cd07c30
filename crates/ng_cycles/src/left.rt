//! The remaining part of a cycle: a repeat and a phase of it.
ghost use Rattle.std.specs.Prelude.{◌≡◌, ◌∷◌, [], ◌+◌, ◌<◌, ◌++◌, if◌then◌else◌};
ghost use Rattle.std.specs.Ordering.{int_eq};
ghost use Rattle.ng_canon.specs.declared.pace.Pace.TheVariants as pace;
ghost use Rattle.ng_cycles.specs.Strokes.{strokes_of, TraverseTo};
ghost use Rattle.ng_cycles.specs.Segments.{after_segment, line_to, whole};
ghost use Rattle.ng_cycles.specs.Left.{ahead_of, strokes_in, seconds_of, way_out, pecks_after, NextSegmentSpec, IsNextSegment};
ghost use Rattle.ng_cycles.specs.declared.drill.Drill.{Drill};

use crate::canned::Canned;
use crate::drill::Work;
use crate::motion_state::MotionState;
use crate::peck::Peck;
use crate::phase::{Pecking, Phase};
use ng_canon::{Pace, Segment, Spindle};
use ng_num::{Len, Num};

/// The remaining part of a cycle.
#[derive(Clone, Copy)]
pub(crate) struct CycleLeft {
    pub canned: Canned,
    pub motion_state: MotionState,
    /// How many repeats have begun.
    pub begun: u32,
    pub repeats_left: u32,
    pub phase: Phase,
}

/// What comes after a peck, given how many pecks are done and how many are left.
fn phase_after_peck(peck: Peck, done: u64, left: u64) -> Phase
    requires { done + left < 40_000_000_000_000 }
    ensures { (d : Drill) → strokes_in d result ≡ pecks_after d peck done left }
{
    if left == 0 {
        return Phase::Out;
    }
    Phase::PeckOut(Pecking {
        peck,
        done,
        left: left - 1,
    })
}

/// A dwell.
fn dwell_in(seconds: Num) -> Segment
    ensures { result ≡ Segment.Dwell seconds }
{
    Segment::Dwell(seconds)
}

/// How long a cycle dwells at the bottom.
fn seconds_of(work: Work) -> Num
    ensures { result ≡ seconds_of work }
{
    match work {
        Work::DrillingWithDwell(seconds) => seconds,
        Work::BoringWithStop(seconds) => seconds,
        Work::BoringWithDwell(seconds) => seconds,
        Work::Drilling | Work::PeckDrilling(_) | Work::Boring => Num::zero(),
    }
}

/// What comes first on the way out.
fn way_out(work: Work) -> Phase
    ensures { (d : Drill) → strokes_in d result ≡ way_out d work }
{
    match work {
        Work::Drilling | Work::DrillingWithDwell(_) | Work::PeckDrilling(_) => Phase::Out,
        Work::Boring | Work::BoringWithDwell(_) => Phase::FeedOut,
        Work::BoringWithStop(_) => Phase::Stop,
    }
}

impl Canned {
    /// What comes at a hole, at a height.
    fn at_place(&self, z: Len) -> Phase
        ensures { strokes_in self.now result ≡ (if int_eq z self.now.r then []
            else TraverseTo self.now.r ∷ []) ++ strokes_of self.now self.now.work }
    {
        if z.nm() == self.drill().r.nm() {
            Phase::Down
        } else {
            Phase::ToR
        }
    }
}

/// A whole cycle, before its first segment.
pub(crate) fn cycle_left(canned: &Canned) -> CycleLeft
    ensures ahead { ahead_of result ≡ whole canned.now }
    ensures count { result.begun + result.repeats_left ≡ result.canned.repeats }
{
    let drill = canned.drill();
    let motion_state = MotionState {
        point: drill.start,
        outputs: drill.outputs,
    };
    let phase = if drill.start.z.nm() < drill.r.nm() {
        Phase::Rise
    } else {
        Phase::Across
    };
    CycleLeft {
        canned: *canned,
        motion_state,
        begun: 0,
        repeats_left: drill.repeats,
        phase,
    }
}

impl CycleLeft {
    /// A traverse in Z.
    fn traverse(&mut self, z: Len, next: Phase) -> Segment
        ensures segment { result ≡ line_to pace.Traverse self.old.motion_state.point (record self.old.motion_state.point { z = z }) }
        ensures left { self.new ≡ record self.old { motion_state = after_segment self.old.motion_state result; phase = next } }
    {
        self.phase = next;
        let end = self.motion_state.at_height(z);
        self.motion_state.move_to(end, Pace::Traverse)
    }

    /// A feed in Z.
    fn feed(&mut self, z: Len, next: Phase) -> Segment
        ensures segment { result ≡ line_to (pace.Feed self.old.canned.rate) self.old.motion_state.point
            (record self.old.motion_state.point { z = z }) }
        ensures left { self.new ≡ record self.old { motion_state = after_segment self.old.motion_state result; phase = next } }
    {
        self.phase = next;
        let end = self.motion_state.at_height(z);
        let rate = self.canned.drill().rate;
        self.motion_state.move_to(end, Pace::Feed(rate))
    }

    /// A switch of the spindle.
    fn set_spindle(&mut self, spindle: Spindle, next: Phase) -> Segment
        ensures segment { result ≡ Segment.Switch (record self.old.canned.outputs { spindle = spindle }) }
        ensures left { self.new ≡ record self.old { motion_state = after_segment self.old.motion_state result; phase = next } }
    {
        self.phase = next;
        let outputs = self.canned.drill().outputs;
        self.motion_state.set_spindle(spindle, outputs)
    }

    /// A move to the hole of the next repeat, if there is one.
    fn across(&mut self) -> Option<Segment>
        requires phase { self.old.phase ≡ Phase.Across }
        requires count { self.old.begun + self.old.repeats_left ≡ self.old.canned.repeats }
        ensures next { IsNextSegment (ahead_of self.old) (ahead_of self.new) result }
        ensures canned { self.new.canned ≡ self.old.canned }
        ensures count { self.new.begun + self.new.repeats_left ≡ self.old.canned.repeats }
    {
        if self.repeats_left == 0 {
            return None;
        }
        self.repeats_left -= 1;
        self.begun += 1;
        let end = self.canned.hole_at(self.begun, self.motion_state.point.z);
        self.phase = self.canned.at_place(end.z);
        Some(self.motion_state.move_to(end, Pace::Traverse))
    }

    /// Down to Z, or to the bottom of the first peck.
    fn down(&mut self) -> Segment
        requires { self.old.phase ≡ Phase.Down }
        ensures { NextSegmentSpec self.old self.new result }
    {
        let z = self.canned.drill().z;
        match self.canned.drill().work {
            Work::Drilling => self.feed(z, Phase::Out),
            Work::DrillingWithDwell(_) => self.feed(z, Phase::Dwell),
            Work::PeckDrilling(peck) => {
                let bottom = self.canned.drill().bottom(peck, 1);
                let left = self.canned.drill().pecks(peck) - 1;
                self.feed(bottom, phase_after_peck(peck, 1, left))
            }
            Work::Boring => self.feed(z, Phase::FeedOut),
            Work::BoringWithStop(_) => self.feed(z, Phase::Dwell),
            Work::BoringWithDwell(_) => self.feed(z, Phase::Dwell),
        }
    }

    /// A dwell at the bottom.
    fn dwell(&mut self) -> Segment
        requires { self.old.phase ≡ Phase.Dwell }
        ensures { NextSegmentSpec self.old self.new result }
    {
        let seconds = seconds_of(self.canned.drill().work);
        self.phase = way_out(self.canned.drill().work);
        dwell_in(seconds)
    }

    /// A feed to the bottom of the next peck.
    fn peck(&mut self, pecking: Pecking) -> Segment
        requires { self.old.phase ≡ Phase.PeckDown pecking }
        ensures { NextSegmentSpec self.old self.new result }
    {
        let number = pecking.done + 1;
        let bottom = self.canned.drill().bottom(pecking.peck, number);
        self.feed(bottom, phase_after_peck(pecking.peck, number, pecking.left))
    }

    /// The next segment.
    pub fn next(&mut self) -> Option<Segment>
        requires { self.old.begun + self.old.repeats_left ≡ self.old.canned.repeats }
        ensures next { IsNextSegment (ahead_of self.old) (ahead_of self.new) result }
        ensures canned { self.new.canned ≡ self.old.canned }
        ensures count { self.new.begun + self.new.repeats_left ≡ self.old.canned.repeats }
    {
        let r = self.canned.r();
        let clear = self.canned.clear();
        match self.phase {
            Phase::Across => self.across(),
            Phase::Rise => Some(self.traverse(r, Phase::Across)),
            Phase::ToR => Some(self.traverse(r, Phase::Down)),
            Phase::Down => Some(self.down()),
            Phase::Dwell => Some(self.dwell()),
            Phase::Stop => Some(self.set_spindle(Spindle::Stopped, Phase::OutStopped)),
            Phase::OutStopped => Some(self.traverse(clear, Phase::Start)),
            Phase::Start => {
                let spindle = self.canned.spindle();
                Some(self.set_spindle(spindle, Phase::Across))
            }
            Phase::Out => Some(self.traverse(clear, Phase::Across)),
            Phase::FeedOut => Some(self.feed(clear, Phase::Across)),
            Phase::PeckOut(pecking) => Some(self.traverse(r, Phase::PeckBack(pecking))),
            Phase::PeckBack(pecking) => {
                let above = self.canned.drill().above_bottom(pecking.peck, pecking.done);
                Some(self.traverse(above, Phase::PeckDown(pecking)))
            }
            Phase::PeckDown(pecking) => Some(self.peck(pecking)),
        }
    }
}
