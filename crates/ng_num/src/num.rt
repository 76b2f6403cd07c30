//! The numbers of a program, in whole millionths.
ghost use Rattle.std.specs.Prelude.{◌≡◌, ◌≤◌, pos, unsigned_abs};
ghost use Rattle.ng_num.specs.Range.{IsCount, greatest, in_range};
ghost use Rattle.ng_num.specs.Rounding.{is_unlike, signed};

use crate::fault::Fault;
use std::marker::Model;

/// The greatest absolute value of a count, of millionths or of nanometres.
pub(crate) const GREATEST: u64 = 9_999_999_999_999;

/// A number: a whole count of millionths, at most 9,999,999.999999 in absolute value (own; NISTIR 6556, 3.3.2.1 leaves
/// range and precision to the implementation).
#[derive(Clone, Copy, Debug, PartialEq, Eq, PartialOrd, Ord)]
pub struct Num {
    count: i64,
}

impl Model for Num {
    ghost use Rattle.std.specs.Prelude.{ℤ};
    ghost use Rattle.ng_num.specs.Range.{IsCount};

    ghost Value = { ℤ };

    ghost view = { λ n. n.count };

    ghost invariant = { λ n. IsCount n.count };

    ghost inverse = { λ z. record { count = z } };
}

impl Num {
    /// The number of a count of millionths. E3 if the count is out of range.
    pub fn of(count: i128) -> Result<Num, Fault>
        ensures { result ≡ in_range count }
    {
        if count.unsigned_abs() <= GREATEST as u128 {
            Ok(Num {
                count: count as i64,
            })
        } else {
            Err(Fault::OutOfRange)
        }
    }

    /// `of` for a count that fits 64 bits.
    #[inline(always)]
    pub(crate) fn of_i64(count: i64) -> Result<Num, Fault>
        ensures { result ≡ in_range count }
    {
        if count.unsigned_abs() <= GREATEST {
            Ok(Num { count })
        } else {
            Err(Fault::OutOfRange)
        }
    }

    /// The number of a count that is in range.
    #[inline(always)]
    pub(crate) fn of_count(count: i64) -> Num
        requires { IsCount count }
        ensures { result ≡ count }
    {
        Num { count }
    }

    /// The number with an absolute value in millionths and a sign (own). E3 if the absolute value is out of range.
    #[inline(always)]
    pub fn of_size(is_negative: bool, size: u64) -> Result<Num, Fault>
        ensures { result ≡ in_range (signed is_negative size) }
    {
        if size > GREATEST {
            return Err(Fault::OutOfRange);
        }
        let count = size as i64;
        Ok(Num {
            count: if is_negative { -count } else { count },
        })
    }

    /// Its count of millionths.
    pub fn count(self) -> i64
        ensures value { result ≡ self }
        ensures range { IsCount self }
    {
        self.count
    }

    /// Its absolute value in millionths.
    #[inline(always)]
    pub(crate) fn size(self) -> u64
        ensures value { result ≡ unsigned_abs self }
        ensures range { result ≤ greatest }
    {
        self.count.unsigned_abs()
    }

    /// Whether exactly one of the two numbers is negative.
    #[inline(always)]
    pub(crate) fn is_unlike(self, other: Num) -> bool
        ensures { result ≡ is_unlike self other }
    {
        (self.count < 0) != (other.count < 0)
    }

    /// One.
    pub fn one() -> Num
        ensures { result ≡ pos 1_000_000 }
    {
        Num { count: 1_000_000 }
    }

    /// Zero.
    pub fn zero() -> Num
        ensures { result ≡ pos 0 }
    {
        Num { count: 0 }
    }
}

impl Default for Num {
    ghost use Rattle.std.specs.Prelude.{◌≡◌, pos};

    ghost is_default = { λ n. n ≡ pos 0 };

    fn default() -> Self {
        Num::zero()
    }
}
