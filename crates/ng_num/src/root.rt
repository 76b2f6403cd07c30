//! Square roots of numbers.
ghost use Rattle.std.specs.Prelude.{◌≡◌, ◌<ℤ◌, ◌≤ℤ◌, pos, Err};
ghost use Rattle.ng_num.specs.Range.{IsOnlyAnswer};
ghost use Rattle.ng_num.specs.Root.{IsRoot, root_of};

use crate::fault::Fault;
use crate::num::Num;
use crate::rounding::MILLION;

impl Num {
    /// The greatest non-negative number whose square isn't above the number. E5 for a negative number (NISTIR 6556,
    /// 3.3.2.4; rounding own).
    pub fn sqrt(self) -> Result<Num, Fault>
        ensures value { result ≡ root_of self }
        ensures negative { self <ℤ pos 0 → result ≡ Err Fault.BadArithmetic }
        ensures root { pos 0 ≤ℤ self → IsOnlyAnswer (IsRoot self) result }
    {
        if self.count() < 0 {
            return Err(Fault::BadArithmetic);
        }
        // A count times a million is below 2^64, and its root below 2^32.
        let root = (self.size() * MILLION).isqrt();
        Ok(Num::of_count(root as i64))
    }
}
