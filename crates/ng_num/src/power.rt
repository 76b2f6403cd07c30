//! Powers of numbers.
ghost use Rattle.std.specs.Prelude.{◌≡◌, ℕ, Err};
ghost use Rattle.ng_num.specs.Power.{IsExponent, exponent_of, power, power_of};
ghost use Rattle.ng_num.specs.Whole.{whole_of};

use crate::fault::Fault;
use crate::num::Num;

/// The greatest exponent.
const GREATEST_EXPONENT: i64 = 32;

impl Num {
    /// The number raised to an exponent, which must count as a whole number from 0 to 32. It is 1, multiplied by the
    /// number again and again; each product is rounded half away from zero. E5 for any other exponent, else E3 if a
    /// product is out of range (NISTIR 6556, 3.3.2.3; exponents, rounding and order own). `0 ** 0` is 1.
    pub fn power(self, exponent: Num) -> Result<Num, Fault>
        ensures value { result ≡ power_of self exponent }
        ensures whole { (n : ℕ) → IsExponent exponent n → result ≡ power self n }
        ensures other { ((n : ℕ) → IsExponent exponent n → ⊥) → result ≡ Err Fault.BadArithmetic }
    {
        match exponent.exponent() {
            Some(times) => self.multiplied(times),
            None => Err(Fault::BadArithmetic),
        }
    }

    /// The exponent that the number counts as.
    fn exponent(self) -> Option<u32>
        ensures { result ≡ exponent_of (whole_of self) }
    {
        match self.whole() {
            Some(times) if times >= 0 && times <= GREATEST_EXPONENT => Some(times as u32),
            _ => None,
        }
    }

    /// 1 multiplied by the number this many times.
    fn multiplied(self, times: u32) -> Result<Num, Fault>
        ensures { result ≡ power self times }
    {
        let mut product = Num::one();
        for _ in 0..times {
            match product.mul(self) {
                Ok(next) => product = next,
                Err(fault) => return Err(fault),
            }
        }
        Ok(product)
    }
}
