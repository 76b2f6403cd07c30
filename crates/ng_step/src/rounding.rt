//! Machine coordinates in whole steps.

ghost use Rattle.std.specs.Prelude.{◌≡◌, ◌<◌, ◌≤◌, ◌^◌, ◌*◌, ℤ, ◌-ℤ◌, ◌*ℤ◌, pos, unsigned_abs};
ghost use Rattle.ng_num.specs.Range.{IsCount};
ghost use Rattle.ng_step.specs.Line.{in_steps};
ghost use Rattle.ng_step.specs.Hands.{rounded};

use ng_num::Len;

/// A coordinate in steps, rounded half away from zero.
pub(crate) fn in_steps(at: Len, step_nm: u32) -> i64
    requires { 0 < step_nm }
    ensures value { result ≡ in_steps at step_nm }
    ensures size { unsigned_abs result < 2 ^ 45 }
    ensures range { IsCount at }
{
    let nm = at.nm();
    let step = step_nm as u64;
    let steps = ((2 * nm.unsigned_abs() + step) / (2 * step)) as i64;
    if nm < 0 { -steps } else { steps }
}

/// A coordinate rounded to whole steps, in nanometres.
pub(crate) fn rounded(at: Len, step_nm: u32) -> i64
    requires some { 0 < step_nm }
    requires most { step_nm ≤ 1_000_000 }
    ensures value { result ≡ rounded at step_nm }
    ensures near { 2 * unsigned_abs (result -ℤ at) ≤ step_nm }
    ensures size { unsigned_abs result < 2 ^ 44 }
{
    in_steps(at, step_nm) * step_nm as i64
}

/// The steps between two coordinates that are whole steps apart.
pub(crate) fn whole_steps(from: i64, to: i64, step_nm: u64) -> i64
    requires step { 0 < step_nm }
    requires from { unsigned_abs from ≤ 2 ^ 48 }
    requires to { unsigned_abs to ≤ 2 ^ 48 }
    ensures value { (n : ℤ) → to -ℤ from ≡ n *ℤ pos step_nm → result ≡ n }
    ensures size { unsigned_abs result < 2 ^ 50 }
{
    let steps = ((to - from).unsigned_abs() / step_nm) as i64;
    if to < from { -steps } else { steps }
}

/// The steps from one coordinate to another.
pub(crate) fn steps_between(from: Len, to: Len, step_nm: u32) -> i64
    requires { 0 < step_nm }
    ensures value { result ≡ in_steps to step_nm -ℤ in_steps from step_nm }
    ensures size { unsigned_abs result < 2 ^ 46 }
{
    in_steps(to, step_nm) - in_steps(from, step_nm)
}
