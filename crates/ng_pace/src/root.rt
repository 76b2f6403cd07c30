//! Whole roots.
ghost use Rattle.std.specs.Prelude.{◌<◌, ◌^◌, IsTrue};
ghost use Rattle.ng_pace.specs.Interval.{IsRoot};

use std::num::{nearest_u64_to_f64, saturating_f64_to_u64};

/// Whether this is the whole root.
fn is_root(square: u64, root: u64) -> bool
    requires { root < 2 ^ 32 }
    ensures { IsTrue result → IsRoot square root }
{
    root * root <= square && square - root * root <= 2 * root
}

/// What the processor takes for the root, as a rule the whole one: that is tested, and costs less than to find it.
fn guessed_root(square: u64) -> u64
    ensures { result < 2 ^ 32 }
{
    saturating_f64_to_u64(nearest_u64_to_f64(square).sqrt()).min(0xFFFF_FFFF)
}

/// The whole root.
pub(crate) fn whole_root(square: u64) -> u64
    ensures root { IsRoot square result }
    ensures size { result < 2 ^ 32 }
{
    let guess = guessed_root(square);
    if is_root(square, guess) {
        guess
    } else {
        square.isqrt()
    }
}

/// The whole root, where that of another square is known.
pub(crate) fn root_of(square: u64, known: u64, root: u64) -> u64
    requires known { IsRoot known root }
    requires size { root < 2 ^ 32 }
    ensures root { IsRoot square result }
    ensures size { result < 2 ^ 32 }
{
    if square == known {
        root
    } else {
        whole_root(square)
    }
}
