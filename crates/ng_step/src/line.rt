//! The pulses of a line.

use crate::spread::Spread;
use crate::steps::{AxisSteps, Distances};
use std::marker::Model;

/// The remaining pulses of a line.
#[derive(Drop)]
pub(crate) struct LinePulses {
    total: u64,
    left: u64,
    whole: u64,
    x: Spread,
    y: Spread,
    z: Spread,
}

impl Model for LinePulses {
    ghost use Rattle.std.specs.Prelude.{List};
    ghost use Rattle.ng_step.specs.declared.steps.AxisSteps.{AxisSteps};

    ghost Value = { List AxisSteps };

    ghost use Rattle.ng_step.specs.LineInvariant.{pulses_left, IsLineInvariant};

    ghost view = { pulses_left };

    ghost invariant = { IsLineInvariant };
}

impl LinePulses {
    ghost use Rattle.std.specs.Prelude.{◌≡◌, ◌∷◌, [], MatchOption, ◌^◌, ◌<◌, unsigned_abs};
    ghost use Rattle.ng_step.specs.Line.{line_pulses};

    /// The pulses of a line with these distances.
    pub(crate) fn new(distance: Distances) -> LinePulses
        requires x { unsigned_abs distance.x < 2 ^ 61 }
        requires y { unsigned_abs distance.y < 2 ^ 61 }
        requires z { unsigned_abs distance.z < 2 ^ 61 }
        ensures { result ≡ line_pulses distance }
    {
        let total = distance
            .x
            .unsigned_abs()
            .max(distance.y.unsigned_abs())
            .max(distance.z.unsigned_abs());
        LinePulses {
            total,
            left: total,
            whole: 2 * total,
            x: Spread::new(distance.x, total),
            y: Spread::new(distance.y, total),
            z: Spread::new(distance.z, total),
        }
    }

    /// The next pulse.
    pub(crate) fn next(&mut self) -> Option<AxisSteps>
        ensures { MatchOption result ((self.old ≡ []) × (self.new ≡ [])) (λ s. self.old ≡ s ∷ self.new) }
    {
        if self.left == 0 {
            return None;
        }
        self.left -= 1;
        Some(AxisSteps {
            x: self.x.step(self.whole),
            y: self.y.step(self.whole),
            z: self.z.step(self.whole),
        })
    }
}
