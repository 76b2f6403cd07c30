//! Lines, and their own times.
ghost use Rattle.std.specs.Prelude.{◌≡◌, ◌≤◌, ◌+◌, ◌-◌, ◌*◌, ◌/◌, ◌^◌, min};
ghost use Rattle.ng_pace.specs.Due.{IsPercent, least_ns, own_square, own_square_of};
ghost use Rattle.ng_pace.specs.Wanted.{wanted_by};

use ng_canon::Item;

/// By how much a square may change from one line to the next: grow, and fall.
#[derive(Clone, Copy, Debug, PartialEq, Eq)]
pub struct Ramp {
    pub up: u64,
    pub down: u64,
}

/// An item of the stream, with what the motors allow at it (own). Squares are those of rates in pulses a second times
/// 2^8.
#[derive(Clone, Copy, Debug, PartialEq, Eq)]
pub struct Line {
    pub item: Item,
    /// The square at which lines come in their own times.
    pub full: u64,
    /// The greatest square at this line; 0 if everything stands still before it.
    pub most: u64,
    /// How much the square may change up to the next line.
    pub ramp: Ramp,
    /// Whether everything stands still after this line.
    pub last: bool,
}

/// The time of a pulse of so many microseconds, at so many percent of its rate: in nanoseconds, rounded up. As a rule
/// it is all of its rate, and nothing is divided.
fn pulse_ns(us: u64, percent: u64) -> u64
    requires { IsPercent percent }
    ensures { result ≡ min ((us * 100000 + (percent - 1)) / percent) (2 ^ 64 - 1) }
{
    if percent == 100 {
        return us.saturating_mul(1_000);
    }
    let whole = (us / percent).saturating_mul(100_000);
    whole.saturating_add((us % percent * 100_000).div_ceil(percent))
}

/// The least time of an item, in nanoseconds, where pulses come at so many percent of their rates.
pub(crate) fn least_ns(percent: u64, item: &Item) -> u64
    requires { IsPercent percent }
    ensures { result ≡ least_ns percent item.now }
{
    match item {
        Item::Pulse(pulse) => pulse_ns(pulse.period_us, percent),
        Item::Dwell { us } => us.saturating_mul(1_000),
        Item::Switch(_) => 0,
    }
}

/// The square at which pulses of so many microseconds come, at so many percent of their rate.
pub(crate) fn own_square(percent: u64, us: u64) -> u64
    requires { percent ≤ 200 }
    ensures { result ≡ own_square percent us }
{
    let rate = (2_560_000 * percent / us.max(1)).max(1);
    rate * rate
}

/// The square at which an item comes in its own time; 0 where everything stands still.
pub(crate) fn own_square_of(percent: u64, item: &Item) -> u64
    requires { IsPercent percent }
    ensures { result ≡ own_square_of percent item.now }
{
    match item {
        Item::Pulse(pulse) => own_square(percent, pulse.period_us),
        Item::Dwell { .. } | Item::Switch(_) => 0,
    }
}

/// The square that is wanted at an item, at so many percent of its rate; any, where everything stands still.
pub(crate) fn wanted_by(percent: u64, item: &Item) -> u64
    requires { percent ≤ 200 }
    ensures { result ≡ wanted_by percent item.now }
{
    match item {
        Item::Pulse(pulse) => own_square(percent, pulse.period_us),
        Item::Dwell { .. } | Item::Switch(_) => u64::MAX,
    }
}
