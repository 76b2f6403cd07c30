//! The holes of a cycle, and their bottoms.
ghost use Rattle.std.specs.Prelude.{◌≡◌, ◌≤◌, ◌<◌, ◌*◌, ◌^◌, ◌+ℤ◌, ◌*ℤ◌, pos, unsigned_abs};
ghost use Rattle.std.specs.Int.{int_min};
ghost use Rattle.ng_num.specs.Range.{IsCount};
ghost use Rattle.ng_cycles.specs.Strokes.{coordinate, bottom, pecks, clearance};

use crate::canned::Canned;
use crate::drill::{Drill, HoleAxis};
use crate::peck::Peck;
use ng_canon::Spindle;
use ng_num::{Len, Point};

/// The length of nanometres that are in range.
fn length_of(nm: i128) -> Len
    requires { IsCount nm }
    ensures { result ≡ nm }
{
    Len::of_nm(nm).unwrap()
}

/// A length times a count.
pub(crate) fn times(count: u32, length: Len) -> i128
    ensures value { result ≡ pos count *ℤ length }
    ensures small { unsigned_abs result < 2 ^ 100 }
{
    count as i128 * length.nm() as i128
}

/// The depth of a number of pecks.
fn depth_of(count: u64, peck: Peck) -> i128
    ensures value { result ≡ pos (count * peck) }
    ensures small { count * peck < 2 ^ 110 }
{
    (count as u128 * peck.nm() as u128) as i128
}

impl HoleAxis {
    /// The coordinate at the hole of a repeat. If that of the last repeat is in range, so are all before it.
    #[tactic(auto, using(crate::proofs::CoordinateBetweenLemmas::between))]
    pub(crate) fn coordinate(&self, repeat: u32, repeats: u32) -> Len
        requires before { repeat ≤ repeats }
        requires last { IsCount (coordinate self.now repeats) }
        ensures { result ≡ coordinate self.now repeat }
    {
        length_of(self.from.nm() as i128 + times(repeat, self.step))
    }
}

impl Drill {
    /// The bottom of a peck.
    pub(crate) fn bottom(&self, peck: Peck, number: u64) -> Len
        ensures { result ≡ bottom self.now peck number }
    {
        let below = self.r.nm() as i128 - depth_of(number, peck);
        length_of((self.z.nm() as i128).max(below))
    }

    /// How many pecks it takes from R to Z.
    pub(crate) fn pecks(&self, peck: Peck) -> u64
        ensures value { result ≡ pecks self.now peck }
        ensures few { result < 40_000_000_000_000 }
    {
        let depth = (self.r.nm() - self.z.nm()).unsigned_abs();
        ((depth + (peck.nm() - 1)) / peck.nm()).max(1)
    }

    /// A hundredth of an inch above the bottom of a peck, but at most R.
    pub(crate) fn above_bottom(&self, peck: Peck, number: u64) -> Len
        ensures { result ≡ int_min self.now.r (bottom self.now peck number +ℤ clearance) }
    {
        let above = self.bottom(peck, number).nm() + 254_000;
        length_of(above.min(self.r.nm()) as i128)
    }
}

impl Canned {
    /// The hole of a repeat, at a height.
    pub(crate) fn hole_at(&self, repeat: u32, z: Len) -> Point
        requires { repeat ≤ self.now.repeats }
        ensures { result ≡ record { x = coordinate self.now.x repeat; y = coordinate self.now.y repeat; z = z } }
    {
        let drill = self.drill();
        Point {
            x: drill.x.coordinate(repeat, drill.repeats),
            y: drill.y.coordinate(repeat, drill.repeats),
            z,
        }
    }

    /// R.
    pub(crate) fn r(&self) -> Len
        ensures { result ≡ self.now.r }
    {
        self.drill().r
    }

    /// Where each repeat ends.
    pub(crate) fn clear(&self) -> Len
        ensures { result ≡ self.now.clear }
    {
        self.drill().clear
    }

    /// The spindle's state before the cycle.
    pub(crate) fn spindle(&self) -> Spindle
        ensures { result ≡ self.now.outputs.spindle }
    {
        self.drill().outputs.spindle
    }
}
