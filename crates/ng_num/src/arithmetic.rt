//! Sums, products, quotients, remainders and sizes of numbers.
ghost use Rattle.std.specs.Prelude.{◌≡◌, ◌+ℤ◌, ◌-ℤ◌, ◌*ℤ◌, pos, unsigned_abs, Err};
ghost use Rattle.ng_num.specs.Range.{IsOnlyAnswer, in_range};
ghost use Rattle.ng_num.specs.Rounding.{IsNearest};
ghost use Rattle.ng_num.specs.Arithmetic.{IsRemainder, million, product, quotient_of, remainder_of};

use crate::fault::Fault;
use crate::num::Num;
use crate::rounding::{MILLION, nearest_size};

impl Num {
    /// The sum. E3 if it is out of range (NISTIR 6556, 3.3.2.3).
    pub fn add(self, other: Num) -> Result<Num, Fault>
        ensures { result ≡ in_range (self +ℤ other) }
    {
        Num::of_i64(self.count() + other.count())
    }

    /// The difference. E3 if it is out of range (NISTIR 6556, 3.3.2.3).
    pub fn sub(self, other: Num) -> Result<Num, Fault>
        ensures { result ≡ in_range (self -ℤ other) }
    {
        Num::of_i64(self.count() - other.count())
    }

    /// The product, rounded half away from zero. E3 if it is out of range (NISTIR 6556, 3.3.2.3; rounding own).
    pub fn mul(self, other: Num) -> Result<Num, Fault>
        ensures value { result ≡ in_range (product self other) }
        ensures nearest { IsOnlyAnswer (IsNearest (self *ℤ other) million) result }
    {
        match self.size().checked_mul(other.size()) {
            Some(size) => Num::of_size(self.is_unlike(other), nearest_size(size, MILLION)),
            // A product of 2^64 or more is far out of range.
            None => Err(Fault::OutOfRange),
        }
    }

    /// The quotient, rounded half away from zero. E5 if the divisor is 0, else E3 if it is out of range (NISTIR 6556,
    /// 3.3.2.3; rounding own).
    pub fn div(self, divisor: Num) -> Result<Num, Fault>
        ensures value { result ≡ quotient_of self divisor }
        ensures by_zero { divisor ≡ pos 0 → result ≡ Err Fault.BadArithmetic }
        ensures nearest { (divisor ≡ pos 0 → ⊥) → IsOnlyAnswer (IsNearest (self *ℤ million) divisor) result }
    {
        if divisor.size() == 0 {
            return Err(Fault::BadArithmetic);
        }
        Num::of_size(
            self.is_unlike(divisor),
            nearest_size(self.size() * MILLION, divisor.size()),
        )
    }

    /// The remainder of a division, from 0 to below the absolute value of the divisor. E5 if the divisor is 0 (NISTIR
    /// 6556, 3.3.2.3; the sign of the result own).
    pub fn modulo(self, divisor: Num) -> Result<Num, Fault>
        ensures value { result ≡ remainder_of self divisor }
        ensures by_zero { divisor ≡ pos 0 → result ≡ Err Fault.BadArithmetic }
        ensures rest { (divisor ≡ pos 0 → ⊥) → IsOnlyAnswer (IsRemainder self divisor) result }
    {
        if divisor.count() == 0 {
            return Err(Fault::BadArithmetic);
        }
        Num::of_i64(self.count().rem_euclid(divisor.count()))
    }

    /// The absolute value (NISTIR 6556, 3.3.2.4).
    pub fn abs(self) -> Num
        ensures { result ≡ pos (unsigned_abs self) }
    {
        Num::of_count(self.count().abs())
    }
}
