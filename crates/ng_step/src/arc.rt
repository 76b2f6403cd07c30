//! The pulses of an arc.

use crate::frame::with_third;
use crate::spread::Spread;
use crate::steps::AxisSteps;
use crate::walk::ArcWalk;
use ng_canon::AxisStep;
use std::marker::Model;

/// The remaining pulses of an arc, without its closing line.
#[derive(Drop)]
pub(crate) struct ArcPulses {
    total: u64,
    left: u64,
    whole: u64,
    walk: ArcWalk,
    arc: Spread,
    third: Spread,
}

impl Model for ArcPulses {
    ghost use Rattle.std.specs.Prelude.{List};
    ghost use Rattle.ng_step.specs.declared.steps.AxisSteps.{AxisSteps};

    ghost Value = { List AxisSteps };

    ghost use Rattle.ng_step.specs.ArcInvariant.{arc_left, IsArcLeft};

    ghost view = { arc_left };

    ghost invariant = { IsArcLeft };
}

impl ArcPulses {
    ghost use Rattle.std.specs.Prelude.{◌≡◌, ◌∷◌, [], MatchOption, ◌^◌, ◌<◌, unsigned_abs, max, int_le, pos};
    ghost use Rattle.ng_step.specs.Turned.{Walks, spot_of};
    ghost use Rattle.ng_step.specs.Arc.{pulses_from};

    /// The pulses of the next `count` steps of a walk, together with the steps of the third axis.
    pub(crate) fn new(walk: ArcWalk, count: u64, third: i64) -> ArcPulses
        requires walks { Walks walk }
        requires count { count < 2 ^ 60 }
        requires third { unsigned_abs third < 2 ^ 60 }
        ensures { result ≡ pulses_from walk.frame (max count (unsigned_abs third)) count (int_le (pos 0) third)
            (unsigned_abs third) walk.circle (spot_of walk) (max count (unsigned_abs third)) }
    {
        let total = count.max(third.unsigned_abs());
        ArcPulses {
            total,
            left: total,
            whole: 2 * total,
            walk,
            arc: Spread::new(count as i64, total),
            third: Spread::new(third, total),
        }
    }

    /// The next pulse.
    pub(crate) fn next(&mut self) -> Option<AxisSteps>
        ensures { MatchOption result ((self.old ≡ []) × (self.new ≡ [])) (λ p. self.old ≡ p ∷ self.new) }
    {
        if self.left == 0 {
            return None;
        }
        self.left -= 1;
        let third = self.third.step(self.whole);
        match self.arc.step(self.whole) {
            AxisStep::Still => Some(self.walk.frame().pulse_without(third)),
            _ => Some(with_third(self.walk.frame().plane, self.walk.step(), third)),
        }
    }
}
