//! The period of a pulse.

ghost use Rattle.std.specs.Prelude.{◌≡◌, ◌+◌, ◌*◌, ◌^◌, ◌<◌, ◌≤◌};
ghost use Rattle.ng_step.specs.Periods.{root_up, IsRootUp, ceil_div, time_us, pulse_us};

use ng_canon::{Geometry, Pace, Rate};

/// The least whole number whose square isn't below a number.
pub(crate) fn root_up(square: u128) -> u128
    requires { square < 2 ^ 100 }
    ensures value { result ≡ root_up square }
    ensures least { IsRootUp square result }
{
    let root = square.isqrt();
    if root * root == square {
        root
    } else {
        root + 1
    }
}

/// The quotient rounded up.
pub(crate) fn ceil_div(a: u128, b: u128) -> u128
    requires some { 0 < b }
    requires small { a < 2 ^ 120 }
    requires small_b { b < 2 ^ 120 }
    ensures { result ≡ ceil_div a b }
{
    (a + b - 1) / b
}

/// The microseconds of a length in nanometres.
fn time_us(traverse: Rate, pace: Pace, length: u128) -> u128
    requires { length < 2 ^ 90 }
    ensures value { result ≡ time_us traverse pace length }
    ensures most { result ≤ length * 60_000_000 + 60_000_000_000_000 }
{
    match pace {
        Pace::Traverse => ceil_div(length * 60_000_000, traverse.nm_per_min() as u128),
        Pace::Feed(rate) => ceil_div(length * 60_000_000, rate.nm_per_min() as u128),
        Pace::InverseTime(time) => ceil_div(60_000_000_000_000, time.count() as u128),
    }
}

/// The microseconds of each pulse, given the number of pulses and the length of the move. Without pulses any value will
/// do.
pub(crate) fn pulse_us(geometry: &Geometry, pace: Pace, length: u128, pulses: u64) -> u64
    requires pulses { pulses < 2 ^ 60 }
    requires length { 0 < pulses → length ≤ pulses * 2 ^ 23 }
    ensures { 0 < pulses → result ≡ pulse_us geometry.now pace length pulses }
{
    let least = geometry.least_period_us as u64;
    if pulses == 0 {
        return least;
    }
    let time = time_us(geometry.traverse, pace, length);
    least.max(ceil_div(time, pulses as u128) as u64)
}
