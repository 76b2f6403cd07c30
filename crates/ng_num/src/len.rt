//! Lengths in whole nanometres.
ghost use Rattle.std.specs.Prelude.{◌≡◌, ◌+ℤ◌, ◌-ℤ◌, neg_ℤ, pos};
ghost use Rattle.ng_num.specs.Range.{IsOnlyAnswer, IsCount, in_range};
ghost use Rattle.ng_num.specs.Len.{IsLength, nm_of};

use crate::fault::Fault;
use crate::num::{GREATEST, Num};
use crate::rounding::inches_to_nm;
use crate::unit::Unit;
use std::marker::Model;

/// A length: a whole number of nanometres, at most 9,999,999,999,999 in absolute value (own).
#[derive(Clone, Copy, Debug, PartialEq, Eq, PartialOrd, Ord)]
pub struct Len {
    nm: i64,
}

impl Model for Len {
    ghost use Rattle.std.specs.Prelude.{ℤ};
    ghost use Rattle.ng_num.specs.Range.{IsCount};

    ghost Value = { ℤ };

    ghost view = { λ n. n.nm };

    ghost invariant = { λ n. IsCount n.nm };

    ghost inverse = { λ z. record { nm = z } };
}

impl Len {
    /// The length of a number of nanometres. E3 if it is out of range.
    pub fn of_nm(nm: i128) -> Result<Len, Fault>
        ensures { result ≡ in_range nm }
    {
        if nm.unsigned_abs() <= GREATEST as u128 {
            Ok(Len { nm: nm as i64 })
        } else {
            Err(Fault::OutOfRange)
        }
    }

    /// `of_nm` for a count that fits 64 bits.
    #[inline(always)]
    pub(crate) fn of_i64(nm: i64) -> Result<Len, Fault>
        ensures { result ≡ in_range nm }
    {
        if nm.unsigned_abs() <= GREATEST {
            Ok(Len { nm })
        } else {
            Err(Fault::OutOfRange)
        }
    }

    /// Its nanometres.
    pub fn nm(self) -> i64
        ensures value { result ≡ self }
        ensures range { IsCount self }
    {
        self.nm
    }

    /// The sum. E3 if it is out of range (own).
    pub fn add(self, other: Len) -> Result<Len, Fault>
        ensures { result ≡ in_range (self +ℤ other) }
    {
        Len::of_i64(self.nm + other.nm)
    }

    /// The difference. E3 if it is out of range (own).
    pub fn sub(self, other: Len) -> Result<Len, Fault>
        ensures { result ≡ in_range (self -ℤ other) }
    {
        Len::of_i64(self.nm - other.nm)
    }

    /// The length with its sign reversed.
    pub fn neg(self) -> Len
        ensures { result ≡ neg_ℤ self }
    {
        Len { nm: -self.nm }
    }

    /// The length 0.
    pub fn zero() -> Len
        ensures { result ≡ pos 0 }
    {
        Len { nm: 0 }
    }
}

impl Default for Len {
    ghost use Rattle.std.specs.Prelude.{◌≡◌, pos};

    ghost is_default = { λ n. n ≡ pos 0 };

    fn default() -> Self {
        Len::zero()
    }
}

/// The length that a number stands for in a unit (NISTIR 6556, 3.5.7; rounding own). In millimetres its count of
/// millionths is the count of nanometres. In inches it is multiplied by 25.4 and rounded half away from zero. E3 if the
/// length is out of range.
pub fn nm_of(number: Num, unit: Unit) -> Result<Len, Fault>
    ensures value { result ≡ in_range (nm_of number unit) }
    ensures length { IsOnlyAnswer (IsLength number unit) result }
{
    match unit {
        Unit::Inches => Len::of_i64(inches_to_nm(number.count())),
        Unit::Millimetres => Ok(Len { nm: number.count() }),
    }
}
