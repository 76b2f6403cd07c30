//! Sums and products of wide integers, each with one exact clause.

ghost use Rattle.std.specs.Prelude.{◌≡◌, ℕ, ◌^◌, ◌<◌, ◌+ℤ◌, ◌-ℤ◌, ◌*ℤ◌, ◌*◌, ◌≤◌, pos, unsigned_abs};

pub(crate) fn sum(a: i128, b: i128) -> i128
    requires first { unsigned_abs a < 2 ^ 100 }
    requires second { unsigned_abs b < 2 ^ 100 }
    ensures { result ≡ a +ℤ b }
{
    a + b
}

pub(crate) fn difference(a: i128, b: i128) -> i128
    requires first { unsigned_abs a < 2 ^ 100 }
    requires second { unsigned_abs b < 2 ^ 100 }
    ensures { result ≡ a -ℤ b }
{
    a - b
}

pub(crate) fn product(a: u64, b: i64) -> i128
    requires first { a < 2 ^ 50 }
    requires second { unsigned_abs b < 2 ^ 50 }
    ensures { result ≡ pos a *ℤ b }
{
    a as i128 * b as i128
}

pub(crate) fn square(a: u64) -> i128
    requires { a ≤ 2 ^ 48 }
    ensures value { result ≡ pos (a * a) }
    ensures small { unsigned_abs result ≤ 2 ^ 96 }
{
    a as i128 * a as i128
}

pub(crate) fn twice(a: u64, b: u64) -> i128
    requires first { a ≤ 2 ^ 48 }
    requires second { b ≤ 2 ^ 48 }
    ensures value { result ≡ pos (2 * (a * b)) }
    ensures small { unsigned_abs result ≤ 2 ^ 97 }
{
    2 * (a as i128 * b as i128)
}
