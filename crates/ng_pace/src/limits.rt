//! What the motors allow.
ghost use Rattle.std.specs.Prelude.{◌≡◌, ◌↔◌, ◌<◌, ◌≤◌, Err, IfErr, OnOk, IsTrue, IsFalse, slice_index};
ghost use Rattle.ng_pace.specs.Axes.{AccelerateTooLittle, AccelerateTooMuch, AreLimits, EachAxis};
ghost use Rattle.ng_pace.specs.Due.{IsPercent, IsNoPercent};
ghost use Rattle.ng_pace.specs.Axes.{GoTooFast, HaveAxes, SomeAxis};

use crate::fault::PaceFault;
use crate::line::Ramp;

/// One step a pulse, in slopes: 2^20.
pub(crate) const STEP: u64 = 0x10_0000;

/// One pulse a second, squared: 2^16.
pub(crate) const PULSE: u64 = 0x1_0000;

/// Most pulses of a chord.
pub(crate) const LONGEST: u32 = 0x10_0000;

/// The greatest square.
pub(crate) const GREATEST: u64 = 0x400_0000_0000_0000;

/// The greatest acceleration and the greatest rate that limits may have.
const GREATEST_LIMIT: u64 = 1_000_000_000;

/// What the motors allow, by axes. C passes it as it is (`ng_pace_c`).
#[repr(C)]
#[derive(Clone, Copy, Debug, PartialEq, Eq)]
pub struct Limits {
    /// In steps a second, each second: 3 to 1,000,000,000.
    pub accel: [u64; 3],
    /// In steps a second, at most 1,000,000,000; 0 for as many as are asked for.
    pub rate: [u64; 3],
    /// In steps a second: a rate at which a motor can start and stop at once.
    pub start: [u64; 3],
    /// Most pulses on each side of a corner in which it is taken: at least 1.
    pub half: u64,
    /// How many steps a motor may be off its pulses: 1 to 1,000.
    pub slack: u64,
    /// The greatest rate that is wanted, in percent of what the controller says: 100 to 200.
    pub most_percent: u64,
}

/// What axes allow along a slope: the greatest square, and by how much it may change up to the next line, either way.
#[derive(Clone, Copy, Debug)]
pub(crate) struct Caps {
    pub(crate) most: u64,
    pub(crate) ramp: u64,
}

/// What lines may have: the greatest square, and by how much it may change up to the next line.
#[derive(Clone, Copy, Debug)]
pub(crate) struct LineCaps {
    pub(crate) most: u64,
    pub(crate) ramp: Ramp,
}

/// Whether own times may be at so many percent.
pub(crate) fn is_percent(percent: u64) -> bool
    ensures yes { IsTrue result → IsPercent percent }
    ensures no { IsFalse result → IsNoPercent percent }
{
    percent >= 100 && percent <= 200
}

impl Limits {
    /// Whether an axis can't turn at a pulse a second.
    fn accelerate_too_little(&self) -> bool
        ensures yes { IsTrue result → AccelerateTooLittle self.now }
        ensures no { IsFalse result → EachAxis (λ axis. 3 ≤ slice_index self.now.accel axis) }
    {
        self.accel[0] < 3 || self.accel[1] < 3 || self.accel[2] < 3
    }

    /// Whether an axis has more acceleration than limits may have.
    fn accelerate_too_much(&self) -> bool
        ensures yes { IsTrue result → SomeAxis (λ axis. 1000000000 < slice_index self.now.accel axis) }
        ensures no { IsFalse result → EachAxis (λ axis. slice_index self.now.accel axis ≤ 1000000000) }
    {
        self.accel[0] > GREATEST_LIMIT
            || self.accel[1] > GREATEST_LIMIT
            || self.accel[2] > GREATEST_LIMIT
    }

    /// Whether an axis has a greater rate than limits may have.
    fn go_too_fast(&self) -> bool
        ensures yes { IsTrue result → SomeAxis (λ axis. 1000000000 < slice_index self.now.rate axis) }
        ensures no { IsFalse result → EachAxis (λ axis. slice_index self.now.rate axis ≤ 1000000000) }
    {
        self.rate[0] > GREATEST_LIMIT
            || self.rate[1] > GREATEST_LIMIT
            || self.rate[2] > GREATEST_LIMIT
    }

    /// Whether all can be met.
    pub(crate) fn check(&self) -> Result<(), PaceFault>
        ensures limits { OnOk result (AreLimits self.now) }
        ensures refused { IfErr result (λ fault. ¬ AreLimits self.now) }
        ensures no_acceleration { (result ≡ Err PaceFault.NoAcceleration) ↔ AccelerateTooLittle self.now }
        ensures acceleration_too_great { (result ≡ Err PaceFault.AccelerationTooGreat) ↔ AccelerateTooMuch self.now }
        ensures rate_too_great { (result ≡ Err PaceFault.RateTooGreat) ↔ GoTooFast self.now }
        ensures no_corner { (result ≡ Err PaceFault.NoCorner) ↔ (HaveAxes self.now × (self.now.half ≡ 0)) }
        ensures no_slack { (result ≡ Err PaceFault.NoSlack)
            ↔ (HaveAxes self.now × (0 < self.now.half) × (self.now.slack ≡ 0)) }
        ensures slack_too_great { (result ≡ Err PaceFault.SlackTooGreat)
            ↔ (HaveAxes self.now × (0 < self.now.half) × (1000 < self.now.slack)) }
        ensures no_percent { (result ≡ Err PaceFault.NoPercent)
            ↔ (HaveAxes self.now × (0 < self.now.half) × (0 < self.now.slack) × (self.now.slack ≤ 1000)
            × IsNoPercent self.now.most_percent) }
        ensures no_other { IfErr result
            (λ fault. (¬ (fault ≡ PaceFault.NoCapacity)) × ¬ (fault ≡ PaceFault.StartTooSmall)) }
    {
        if self.accelerate_too_little() {
            return Err(PaceFault::NoAcceleration);
        }
        if self.accelerate_too_much() {
            return Err(PaceFault::AccelerationTooGreat);
        }
        if self.go_too_fast() {
            return Err(PaceFault::RateTooGreat);
        }
        if self.half == 0 {
            return Err(PaceFault::NoCorner);
        }
        if self.slack == 0 {
            return Err(PaceFault::NoSlack);
        }
        if self.slack > 1_000 {
            return Err(PaceFault::SlackTooGreat);
        }
        if !is_percent(self.most_percent) {
            return Err(PaceFault::NoPercent);
        }
        Ok(())
    }
}
