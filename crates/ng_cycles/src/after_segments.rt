//! The machine's position and outputs after some segments of a cycle, from any position and outputs before it.
ghost use Rattle.std.specs.Prelude.{◌≡◌, ◌≤◌, take};
ghost use Rattle.ng_cycles.specs.Private.Counts.{has_switch, stops};

use crate::canned::Canned;
use crate::cycle::Cycle;
use crate::drill::{Drill, Work};
use crate::motion_state::MotionState;

/// Whether a kind of cycle stops the spindle at the bottom.
fn stops(work: Work) -> bool
    ensures { result ≡ stops work }
{
    match work {
        Work::BoringWithStop(_) => true,
        Work::Drilling | Work::DrillingWithDwell(_) | Work::PeckDrilling(_) => false,
        Work::Boring | Work::BoringWithDwell(_) => false,
    }
}

impl Drill {
    ghost use Rattle.ng_cycles.specs.Segments.{cycle_segments};

    /// Whether one of its first `n` segments is a switch. Only G86 has one, after its first dwell.
    fn has_switched(&self, n: u64) -> bool
        requires { 1 ≤ self.now.repeats }
        ensures { result ≡ has_switch (take n (cycle_segments self.now)) }
    {
        if stops(self.work) {
            return self.lead_length() + 2 < n;
        }
        false
    }
}

impl Canned {
    ghost use Rattle.ng_cycles.specs.Segments.{after_segments, cycle_segments};

    /// The machine's position and outputs after the first `n` segments, or after all of them, given those before the
    /// cycle. The segments aren't walked.
    pub fn motion_state_after(&self, before: MotionState, n: u64) -> MotionState
        ensures { result ≡ after_segments before (take n (cycle_segments self.now)) }
    {
        if n == 0 {
            return before;
        }
        let drill = self.drill();
        let own = Cycle::from(self, n).motion_state();
        if drill.has_switched(n) {
            return own;
        }
        MotionState {
            point: own.point,
            outputs: before.outputs,
        }
    }
}
