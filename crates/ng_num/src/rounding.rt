//! Rounding of quotients of sizes. Everything fits 64 bits: the greatest dividend is a count times a million, which is
//! below 2^64. So no 128-bit division is needed.
ghost use Rattle.std.specs.Prelude.{◌≡◌, ◌+◌, ◌/◌, ◌^◌, ◌<◌, ◌*ℤ◌, pos};
ghost use Rattle.ng_num.specs.Rounding.{near, nearest};
ghost use Rattle.ng_num.specs.Range.{IsCount};

/// The count of the number 1.
pub(crate) const MILLION: u64 = 1_000_000;

/// The quotient of sizes, rounded half up.
#[inline(always)]
#[tactic(auto, using(crate::proofs::NearestLemmas::nearest_up, crate::proofs::NearestLemmas::nearest_down))]
pub(crate) fn nearest_size(n: u64, d: u64) -> u64
    requires fits { n / d + 1 < 2 ^ 64 }
    requires divisor { 0 < d }
    ensures { result ≡ nearest n d }
{
    let whole = n / d;
    let rest = n % d;
    if rest >= d - rest { whole + 1 } else { whole }
}

/// The nanometres of a count of millionths of an inch.
#[inline]
pub(crate) fn inches_to_nm(count: i64) -> i64
    requires { IsCount count }
    ensures { result ≡ near (count *ℤ pos 254) 10 }
{
    let size = nearest_size(count.unsigned_abs() * 254, 10) as i64;
    if count < 0 { -size } else { size }
}
