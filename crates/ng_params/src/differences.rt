//! How two tables of parameters differ, found without allocating.
ghost use Rattle.std.specs.Prelude.{◌≡◌, ◌≤◌, length, min, MatchOption};
ghost use Rattle.ng_params.specs.Change.{with_changes};
ghost use Rattle.ng_params.specs.Differences.{differences, TakesDifferences, ChangesNoneAbove, IsNextChanged};
ghost use Rattle.ng_params.specs.Numbers.{parameter_count};

use crate::change::Change;
use crate::index::{Index, PARAMETER_COUNT};
use crate::params::Params;
use arrayvec::ArrayVec;
use std::alloc::Allocator;

/// The number of parameters whose value in a table differs from that in an older one, 0 to 5399 (own).
pub fn difference_count<A: Allocator + Copy + Drop>(old: &Params<A>, new: &Params<A>) -> usize
    ensures count { result ≡ length (differences old.now new.now) }
    ensures few { result ≤ parameter_count }
{
    let mut count = 0;
    for k in 0..PARAMETER_COUNT {
        let index = Index::known(k as u16 + 1);
        if new.get(index) != old.get(index) {
            count += 1;
        }
    }
    count
}

/// The differences among the parameters after the first `from` ones: at most `N` of them, or all that are left. Also
/// returns how many parameters, counted from the first one, have been compared (own).
pub fn next_differences<A: Allocator + Copy + Drop, const N: usize>(
    old: &Params<A>,
    new: &Params<A>,
    from: usize,
) -> (ArrayVec<Change, N>, usize)
    requires { from ≤ parameter_count }
    ensures { TakesDifferences N old.now new.now from result.1 result.0.items }
{
    let mut taken = ArrayVec::new();
    for k in from..PARAMETER_COUNT {
        if taken.is_full() {
            return (taken, k);
        }
        let index = Index::known(k as u16 + 1);
        let value = new.get(index);
        if value != old.get(index) {
            taken.push(Change { index, value });
        }
    }
    (taken, PARAMETER_COUNT)
}

/// The first of a parameter and another one, if there is one.
fn first_of(index: Index, other: Option<Index>) -> Index
    ensures { MatchOption other (result ≡ index) (λ o. result ≡ min index o) }
{
    match other {
        None => index,
        Some(other) => {
            if other.number() < index.number() {
                other
            } else {
                index
            }
        }
    }
}

/// The first parameter above a number that is changed; `None` if no parameter above it is.
fn next_changed(changes: &[Change], above: u16) -> Option<Index>
    ensures { MatchOption result (ChangesNoneAbove above changes.now) (IsNextChanged above changes.now) }
{
    let mut next = None;
    for change in changes {
        if above < change.index.number() {
            next = Some(first_of(change.index, next));
        }
    }
    next
}

/// The differences that changes make in a table if they are made in order: each parameter once, in rising order, and
/// none that keeps its value (own).
pub fn settled_changes<A: Allocator + Copy + Drop, const N: usize>(
    table: &Params<A>,
    changes: &ArrayVec<Change, N>,
) -> ArrayVec<Change, N>
    ensures { result.items ≡ differences table.now (with_changes table.now changes.now.items) }
{
    let made = changes.as_slice();
    let mut settled = ArrayVec::new();
    let mut passed = 0;
    while let Some(index) = next_changed(made, passed) {
        let value = table.get_after(index, made);
        if value != table.get(index) {
            settled.push(Change { index, value });
        }
        passed = index.number();
    }
    settled
}
