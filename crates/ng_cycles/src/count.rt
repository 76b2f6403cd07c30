//! How many segments a cycle has.
ghost use Rattle.std.specs.Prelude.{◌≡◌, ◌≤◌, ◌*◌, ◌^◌, length};
ghost use Rattle.ng_cycles.specs.Private.Counts.{lead_length};

use crate::canned::Canned;
use crate::drill::Drill;

impl Drill {
    /// How many segments come before its first hole.
    pub(crate) fn lead_length(&self) -> u64
        ensures value { result ≡ lead_length self.now }
        ensures few { result ≤ 3 }
    {
        let (rise, z) = if self.start.z.nm() < self.r.nm() {
            (1, self.r)
        } else {
            (0, self.start.z)
        };
        let to_r = if z.nm() == self.r.nm() { 0 } else { 1 };
        rise + (1 + to_r)
    }
}

/// A number of segments, times a count.
fn times(count: u32, length: u64) -> u128
    ensures value { result ≡ count * length }
    ensures few { result ≤ 2 ^ 96 }
{
    count as u128 * length as u128
}

impl Canned {
    ghost use Rattle.ng_cycles.specs.Segments.{cycle_segments};

    /// The number of segments. They aren't walked.
    pub fn count(&self) -> u128
        ensures { result ≡ length (cycle_segments self.now) }
    {
        let drill = self.drill();
        let first = drill.lead_length() + drill.work_length();
        first as u128 + times(drill.repeats - 1, drill.repeat_length())
    }
}
