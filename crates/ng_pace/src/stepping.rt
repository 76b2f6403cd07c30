//! One line: the square after it, and its time.
ghost use Rattle.std.specs.Prelude.{ℕ, ◌≡◌, ◌≤◌, ◌<◌, ◌^◌, min};
ghost use Rattle.ng_pace.specs.Planning.{most_now, FollowsWithin};
ghost use Rattle.ng_pace.specs.Due.{IsPercent, least_ns};
ghost use Rattle.ng_pace.specs.Stepping.{start_square};
ghost use Rattle.ng_pace.specs.Interval.{IsRoot, time_at, is_at_own_rate, IsTimeOf};
ghost use Rattle.ng_pace.specs.Paced.{rest_of};

use crate::line::{Line, least_ns, own_square_of};

/// Two seconds in nanoseconds, times 2^8. Over the sum of the rates at its two ends it is the time of a line.
const TWO_SECONDS: u64 = 512_000_000_000;

/// The least time of a line before and after which everything stands still.
const AT_REST_NS: u64 = 1_000_000_000;

/// A line that is given out: it is carried out now, and the next one no sooner than after its time (own).
#[derive(Clone, Copy, Debug, PartialEq, Eq)]
pub struct Given {
    pub line: Line,
    /// The time until the next line, in nanoseconds.
    pub ns: u64,
    /// The square at this line.
    pub from: u64,
    /// The square at the next line.
    pub to: u64,
}

/// The square at which motors can start or stop at once where it may change so much; `start` is in parts of 256 of a
/// step.
fn start_square(ramp: u64, start: u64) -> u64
    ensures { result ≡ start_square ramp start }
{
    (ramp / 256).saturating_mul(start)
}

/// The square at the next line, from that at this one and what is planned for the next. Where the plan or the operator
/// wants less, it falls by no more than the ramp.
pub(crate) fn square_after(line: &Line, from: u64, after: u64, wanted: u64) -> u64
    requires { from ≤ most_now line.now after }
    ensures follows { FollowsWithin line.now from wanted after result }
    ensures greatest { (other : ℕ) → FollowsWithin line.now from wanted after other → other ≤ result }
{
    let reached = if line.last { 0 } else { after };
    let least = from.saturating_sub(line.ramp.down).min(reached);
    from.saturating_add(line.ramp.up)
        .min(reached)
        .min(wanted)
        .max(least)
}

/// The time of a line, from the sum of the rates at its two ends.
fn time_at(least_ns: u64, both: u64) -> u64
    requires { both < 2 ^ 33 }
    ensures { result ≡ time_at least_ns both }
{
    if both == 0 {
        return least_ns.max(AT_REST_NS);
    }
    ((TWO_SECONDS + both - 1) / both).max(least_ns)
}

/// Whether a line is passed at the rate of its own time. One between slower lines keeps their rate, and isn't.
fn is_at_own_rate(percent: u64, line: &Line, from: u64, to: u64) -> bool
    requires { IsPercent percent }
    ensures { result ≡ is_at_own_rate percent line.now from to }
{
    from == to && to == own_square_of(percent, &line.item)
}

/// The time of a line whose square goes from one to another. Their roots are given. Its own time is at so many percent.
pub(crate) fn time_of(
    percent: u64,
    line: &Line,
    from: u64,
    to: u64,
    root_from: u64,
    root_to: u64,
) -> u64
    requires percent { IsPercent percent }
    requires from { IsRoot from root_from }
    requires to { IsRoot to root_to }
    requires size { (root_from < 2 ^ 32) × (root_to < 2 ^ 32) }
    ensures time { IsTimeOf percent line.now from to result }
    ensures least { least_ns percent line.now.item ≤ result }
{
    let least = least_ns(percent, &line.item);
    if is_at_own_rate(percent, line, from, to) {
        return least;
    }
    time_at(least, root_from + root_to)
}

/// The square at a line: what it is, or from rest what motors can start at.
pub(crate) fn square_at(line: &Line, plan: u64, square: u64, start: u64, wanted: u64) -> u64
    requires { square ≤ plan }
    ensures goes_on { 0 < square → result ≡ square }
    ensures starts { square ≡ 0 → result ≡ min (min (start_square line.now.ramp.up start) plan) wanted }
    ensures planned { result ≤ plan }
{
    if square > 0 {
        square
    } else {
        start_square(line.ramp.up, start).min(plan).min(wanted)
    }
}

/// The square that is left after a line: 0 in a hold, if motors can stop at once.
pub(crate) fn rest_of(line: &Line, to: u64, start: u64, wanted: u64) -> u64
    ensures { result ≡ rest_of line.now to start wanted }
{
    if wanted == 0 && to <= start_square(line.ramp.down, start) {
        0
    } else {
        to
    }
}
