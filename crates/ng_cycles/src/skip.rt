//! Skipping whole repeats and whole pecks without walking them.
ghost use Rattle.std.specs.Prelude.{◌≡◌, ◌≤◌, ◌<◌, ◌+◌, ◌*◌, ◌^◌, true};
ghost use Rattle.ng_cycles.specs.Segments.{later};
ghost use Rattle.ng_cycles.specs.Left.{ahead_of, work_length, repeat_length};

use crate::canned::Canned;
use crate::drill::{Drill, Work};
use crate::left::CycleLeft;
use crate::phase::{Pecking, Phase};
use ng_num::Point;

/// How often a length fits into a number, at most `most` times, and the remainder.
#[tactic(auto, using(crate::proofs::SkipLemmas::parts_fit))]
fn parts(n: u64, length: u64, most: u64) -> (u64, u64)
    requires { 1 ≤ length }
    ensures sum { n ≡ result.0 * length + result.1 }
    ensures most { result.0 ≤ most }
{
    let whole = (n / length).min(most);
    (whole, n - whole * length)
}

impl Drill {
    /// How many segments there are at a hole, from R on.
    pub(crate) fn work_length(&self) -> u64
        ensures value { result ≡ work_length self.now self.now.work }
        ensures few { result < 2 ^ 60 }
    {
        match self.work {
            Work::Drilling => 2,
            Work::DrillingWithDwell(_) => 3,
            Work::PeckDrilling(peck) => 3 * (self.pecks(peck) - 1) + 2,
            Work::Boring => 2,
            Work::BoringWithStop(_) => 5,
            Work::BoringWithDwell(_) => 3,
        }
    }

    /// How many segments a repeat has that begins at the height at which repeats end.
    pub(crate) fn repeat_length(&self) -> u64
        ensures value { result ≡ repeat_length self.now }
        ensures some { 1 ≤ result }
    {
        let to_r = if self.clear.nm() == self.r.nm() { 0 } else { 1 };
        1 + (to_r + self.work_length())
    }
}

impl Canned {
    ghost use Rattle.ng_cycles.specs.Segments.{begin, after_segments, cycle_segments};

    /// The machine's position after the cycle. Its outputs are then those before the cycle.
    pub fn end(&self) -> Point
        ensures { after_segments (begin self.now) (cycle_segments self.now) ≡ record { point = result; outputs = self.now.outputs } }
    {
        let drill = self.drill();
        self.hole_at(drill.repeats, drill.clear)
    }
}

impl CycleLeft {
    /// Whether the machine is at the height at which repeats end.
    fn stands_clear(&self) -> bool
        ensures { result ≡ true → (self.now.motion_state.point.z ≡ self.now.canned.clear)
            × (self.now.motion_state.outputs ≡ self.now.canned.outputs) }
    {
        let drill = self.canned.drill();
        self.motion_state.point.z.nm() == drill.clear.nm()
            && self.motion_state.outputs == drill.outputs
    }

    /// Skips as many whole repeats as `n` segments cover. Returns how many segments are left to skip.
    fn pass_repeats(&mut self, n: u64) -> u64
        requires count { self.old.begun + self.old.repeats_left ≡ self.old.canned.repeats }
        requires phase { self.old.phase ≡ Phase.Across }
        requires clear { self.old.motion_state.point.z ≡ self.old.canned.clear }
        requires outputs { self.old.motion_state.outputs ≡ self.old.canned.outputs }
        ensures later { later result (ahead_of self.new) ≡ later n (ahead_of self.old) }
        ensures fewer { result ≤ n }
        ensures canned { self.new.canned ≡ self.old.canned }
        ensures count { self.new.begun + self.new.repeats_left ≡ self.old.canned.repeats }
    {
        let length = self.canned.drill().repeat_length();
        let (whole, rest) = parts(n, length, self.repeats_left as u64);
        if whole == 0 {
            return n;
        }
        let passed = whole as u32;
        self.begun += passed;
        self.repeats_left -= passed;
        let clear = self.canned.clear();
        self.motion_state.point = self.canned.hole_at(self.begun, clear);
        rest
    }

    /// Skips as many whole pecks as `n` segments cover. Returns how many segments are left to skip.
    fn pass_pecks(&mut self, pecking: Pecking, n: u64) -> u64
        requires { self.old.phase ≡ Phase.PeckOut pecking }
        ensures later { later result (ahead_of self.new) ≡ later n (ahead_of self.old) }
        ensures fewer { result ≤ n }
        ensures canned { self.new.canned ≡ self.old.canned }
        ensures begun { self.new.begun ≡ self.old.begun }
        ensures repeats { self.new.repeats_left ≡ self.old.repeats_left }
    {
        let (whole, rest) = parts(n, 3, pecking.left);
        if whole == 0 {
            return n;
        }
        let done = pecking.done + whole;
        let bottom = self.canned.drill().bottom(pecking.peck, done);
        self.motion_state.point = self.motion_state.at_height(bottom);
        self.phase = Phase::PeckOut(Pecking {
            peck: pecking.peck,
            done,
            left: pecking.left - whole,
        });
        rest
    }

    /// Skips whole repeats or whole pecks, if it is at the beginning of one.
    fn pass_whole(&mut self, n: u64) -> u64
        requires { self.old.begun + self.old.repeats_left ≡ self.old.canned.repeats }
        ensures later { later result (ahead_of self.new) ≡ later n (ahead_of self.old) }
        ensures fewer { result ≤ n }
        ensures canned { self.new.canned ≡ self.old.canned }
        ensures count { self.new.begun + self.new.repeats_left ≡ self.old.canned.repeats }
    {
        match self.phase {
            Phase::Across => if self.stands_clear() {
                self.pass_repeats(n)
            } else {
                n
            },
            Phase::PeckOut(pecking) => self.pass_pecks(pecking, n),
            _ => n,
        }
    }

    /// Skips at least one of `n` segments. Returns how many are left to skip.
    fn pass(&mut self, n: u64) -> u64
        requires some { 0 < n }
        requires count { self.old.begun + self.old.repeats_left ≡ self.old.canned.repeats }
        ensures later { later result (ahead_of self.new) ≡ later n (ahead_of self.old) }
        ensures fewer { result < n }
        ensures canned { self.new.canned ≡ self.old.canned }
        ensures count { self.new.begun + self.new.repeats_left ≡ self.old.canned.repeats }
    {
        let left = self.pass_whole(n);
        if left < n {
            return left;
        }
        match self.next() {
            Some(_) => left - 1,
            None => 0,
        }
    }

    /// Skips `n` segments.
    pub fn advance(&mut self, n: u64)
        requires { self.old.begun + self.old.repeats_left ≡ self.old.canned.repeats }
        ensures later { ahead_of self.new ≡ later n (ahead_of self.old) }
        ensures canned { self.new.canned ≡ self.old.canned }
        ensures count { self.new.begun + self.new.repeats_left ≡ self.old.canned.repeats }
    {
        let mut left = n;
        while left > 0 {
            left = self.pass(left);
        }
    }
}
