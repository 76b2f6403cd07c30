//! Radii that count as equal.
ghost use Rattle.std.specs.Prelude.{◌≡◌, ◌^◌, ◌<◌, ◌≤◌};
ghost use Rattle.ng_arc.specs.Radii.{are_alike, is_excess_allowed};

/// If the excess is greater, its square is greater than any radii allow.
const GREATEST_EXCESS: u128 = 1_000_000_000_000_000_000;

/// Whether the greater of two radii is longer by at most a tolerance. The radii are given by their squares.
fn is_longer_by_at_most(tolerance_nm: u64, greater: u128, less: u128) -> bool
    requires order { less ≤ greater }
    requires range { greater < 2 ^ 91 }
    requires tolerance { tolerance_nm ≤ 5_080 }
    ensures { result ≡ is_excess_allowed tolerance_nm greater less }
{
    let tolerance_square = tolerance_nm as u128 * tolerance_nm as u128;
    let allowed = less + tolerance_square;
    if greater <= allowed {
        return true;
    }
    let excess = greater - allowed;
    excess <= GREATEST_EXCESS && excess * excess <= 4 * tolerance_square * less
}

/// Whether two radii differ by at most a tolerance. They are given by their squares, in square nanometres (own).
pub(crate) fn are_alike(first: u128, second: u128, tolerance_nm: u64) -> bool
    requires first { first < 2 ^ 91 }
    requires second { second < 2 ^ 91 }
    requires tolerance { tolerance_nm ≤ 5_080 }
    ensures { result ≡ are_alike first second tolerance_nm }
{
    if second <= first {
        is_longer_by_at_most(tolerance_nm, first, second)
    } else {
        is_longer_by_at_most(tolerance_nm, second, first)
    }
}
