//! How motors start and stop at once.
ghost use Rattle.std.specs.Prelude.{◌≡◌, ◌<◌, ◌≤◌, ◌*◌, slice_index};
ghost use Rattle.ng_pace.specs.Axes.{AreLimits, IsStop};
ghost use Rattle.ng_pace.specs.Start.{stopping_distance, start_of};

use crate::limits::Limits;

/// How far an axis goes while it stops from a rate, in parts of 256 of a step.
fn stopping_distance(rate: u64, accel: u64) -> u64
    requires { 0 < accel }
    ensures distance { result ≡ stopping_distance rate accel }
    ensures stops { result * (2 * accel) ≤ 256 * (rate * rate) }
{
    rate.saturating_mul(rate).saturating_mul(256) / 2 / accel
}

/// Over which distance motors start and stop at once, in parts of 256 of a step.
pub(crate) fn start_of(limits: &Limits) -> u64
    requires { AreLimits limits.now }
    ensures start { result ≡ start_of limits.now }
    ensures stops { IsStop limits.now result }
    ensures least { 128 ≤ result }
{
    let x = stopping_distance(limits.start[0], limits.accel[0]);
    let y = stopping_distance(limits.start[1], limits.accel[1]);
    let z = stopping_distance(limits.start[2], limits.accel[2]);
    x.min(y).min(z).max(128)
}
