//! Whole numbers near a number.
ghost use Rattle.std.specs.Prelude.{◌≡◌, ◌≤◌, ◌*◌, ℤ, pos, neg_ℤ, ◌*ℤ◌, unsigned_abs, IfSome, IfNone};
ghost use Rattle.ng_num.specs.Range.{IsOnlyAnswer, greatest, in_range};
ghost use Rattle.ng_num.specs.Rounding.{near};
ghost use Rattle.ng_num.specs.Whole.{IsClose, IsFix, IsFup, IsRound, fix, fup, round, whole_of};

use crate::fault::Fault;
use crate::num::Num;
use crate::rounding::{MILLION, nearest_size};

/// The count of the number 1, with a sign.
const ONE: i64 = 1_000_000;

/// How far a count may be from a whole number and still count as it.
const CLOSE: u64 = 100;

impl Num {
    /// The greatest whole number not above the number. E3 if it is out of range (NISTIR 6556, 3.3.2.4).
    pub fn fix(self) -> Result<Num, Fault>
        ensures value { result ≡ in_range (fix self) }
        ensures greatest { IsOnlyAnswer (IsFix self) result }
    {
        Num::of_i64(self.whole_below())
    }

    /// The least whole number not below the number. E3 if it is out of range (NISTIR 6556, 3.3.2.4).
    pub fn fup(self) -> Result<Num, Fault>
        ensures value { result ≡ in_range (fup self) }
        ensures least { IsOnlyAnswer (IsFup self) result }
    {
        Num::of_i64(-self.minus().whole_below())
    }

    /// The whole number nearest to the number, halves away from zero. E3 if it is out of range (NISTIR 6556, 3.3.2.4;
    /// halves own).
    pub fn round(self) -> Result<Num, Fault>
        ensures value { result ≡ in_range (round self) }
        ensures nearest { IsOnlyAnswer (IsRound self) result }
    {
        Num::of_i64(nearest_whole(self.count()) * ONE)
    }

    /// The whole number that the number counts as: the one at most 0.0001 away (own).
    #[inline]
    pub fn whole(self) -> Option<i64>
        ensures value { result ≡ whole_of self }
        ensures close { IfSome result (IsClose self) }
        ensures only { IfSome result (λ n. (other : ℤ) → IsClose self other → other ≡ n) }
        ensures none { IfNone result ((n : ℤ) → IsClose self n → ⊥) }
    {
        close_whole(self.count())
    }

    /// The whole number of tenths that the number counts as: the one at most 0.0001 away from ten times the number
    /// (own). Ten times a number may be out of range; the result is at most 100,000,000 in absolute value.
    #[inline]
    pub fn whole_tenths(self) -> Option<i64>
        ensures value { result ≡ whole_of (self *ℤ pos 10) }
        ensures close { IfSome result (IsClose (self *ℤ pos 10)) }
        ensures only { IfSome result (λ n. (other : ℤ) → IsClose (self *ℤ pos 10) other → other ≡ n) }
        ensures none { IfNone result ((n : ℤ) → IsClose (self *ℤ pos 10) n → ⊥) }
        ensures range { IfSome result (λ n. unsigned_abs n ≤ 100_000_000) }
    {
        close_whole(self.count() * 10)
    }

    /// The count of the greatest whole number not above the number.
    fn whole_below(self) -> i64
        ensures value { result ≡ fix self }
        ensures range { unsigned_abs result ≤ 10_000_000_000_000 }
    {
        self.count() - self.count().rem_euclid(ONE)
    }

    /// The number with its sign reversed.
    fn minus(self) -> Num
        ensures { result ≡ neg_ℤ self }
    {
        Num::of_count(-self.count())
    }
}

/// The whole number nearest to a count of millionths, halves away from zero.
#[inline(always)]
fn nearest_whole(count: i64) -> i64
    requires { unsigned_abs count ≤ 10 * greatest }
    ensures value { result ≡ near count 1_000_000 }
    ensures range { unsigned_abs result ≤ 100_000_000 }
{
    let size = nearest_size(count.unsigned_abs(), MILLION) as i64;
    if count < 0 { -size } else { size }
}

/// The whole number at most 0.0001 away from a count of millionths.
#[inline]
fn close_whole(count: i64) -> Option<i64>
    requires { unsigned_abs count ≤ 10 * greatest }
    ensures value { result ≡ whole_of count }
    ensures close { IfSome result (IsClose count) }
    ensures only { IfSome result (λ n. (other : ℤ) → IsClose count other → other ≡ n) }
    ensures none { IfNone result ((n : ℤ) → IsClose count n → ⊥) }
    ensures range { IfSome result (λ n. unsigned_abs n ≤ 100_000_000) }
{
    let nearest = nearest_whole(count);
    let rest = count - nearest * ONE;
    if rest.unsigned_abs() <= CLOSE {
        Some(nearest)
    } else {
        None
    }
}
