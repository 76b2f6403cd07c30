//! Whether the seats' lists agree with the history. Nothing here allocates.
ghost use Rattle.std.specs.Prelude.{◌≡◌, ◌↔◌, IsTrue, All, map, MatchResult};
ghost use Rattle.ng_num.specs.declared.fault.Fault.TheVariants.{SeatsDisagree};
ghost use Rattle.ng_desk.specs.Calls.{StandsIn, RiseFrom, AreApart, AllApart, Agree, calls_of, lists_of};

use crate::call::Call;
use crate::seat::Seat;
use ng_num::Fault;
use std::alloc::Allocator;
use std::sync::ledger::Ledger;

/// Whether a call is in the history at its number.
fn stands<A: Allocator + Drop>(history: &[Call<A>], call: &Call<A>) -> bool
    ensures { IsTrue result ↔ StandsIn history.now call.now }
{
    match history.get(call.number as usize) {
        Some(found) => call.is_same(found),
        None => false,
    }
}

/// Whether each of these calls is in the history at its number, and the numbers rise.
fn are_in<A: Allocator + Drop>(history: &[Call<A>], calls: &[Call<A>]) -> bool
    ensures { IsTrue result ↔ All (StandsIn history.now) calls.now × RiseFrom 0 calls.now }
{
    let mut least = 0;
    for call in calls {
        if call.number < least || !stands(history, call) {
            return false;
        }
        least = call.number + 1;
    }
    true
}

/// Whether two lists with rising numbers have no number in common.
fn are_apart<A: Allocator + Drop>(one: &[Call<A>], other: &[Call<A>]) -> bool
    requires { RiseFrom 0 one.now × RiseFrom 0 other.now }
    ensures { IsTrue result ↔ AreApart one.now other.now }
{
    let mut left = one;
    let mut right = other;
    while let Some((here, later)) = left.split_first() {
        let Some((there, beyond)) = right.split_first() else {
            return true;
        };
        if here.number < there.number {
            left = later;
        } else if there.number < here.number {
            right = beyond;
        } else {
            return false;
        }
    }
    true
}

/// Whether each seat's calls are in the history at their numbers, and rise.
fn all_in<A: Allocator + Copy + Drop, O: Ledger>(history: &[Call<A>], seats: &[Seat<A, O>]) -> bool
    ensures { IsTrue result ↔ All (λ s. All (StandsIn history.now) s.calls × RiseFrom 0 s.calls) seats.now }
{
    for seat in seats {
        if !are_in(history, seat.calls()) {
            return false;
        }
    }
    true
}

/// Whether none of these calls' numbers is in one of the seats.
fn is_apart_from<A: Allocator + Copy + Drop, O: Ledger>(
    calls: &[Call<A>],
    seats: &[Seat<A, O>],
) -> bool
    requires { RiseFrom 0 calls.now × All (λ s. RiseFrom 0 s.calls) seats.now }
    ensures { IsTrue result ↔ All (λ s. AreApart calls.now s.calls) seats.now }
{
    for seat in seats {
        if !are_apart(calls, seat.calls()) {
            return false;
        }
    }
    true
}

/// Whether no number is in two seats.
fn all_apart<A: Allocator + Copy + Drop, O: Ledger>(seats: &[Seat<A, O>]) -> bool
    requires { All (λ s. RiseFrom 0 s.calls) seats.now }
    ensures { IsTrue result ↔ AllApart (lists_of seats.now) }
{
    let mut left = seats;
    while let Some((first, others)) = left.split_first() {
        if !is_apart_from(first.calls(), others) {
            return false;
        }
        left = others;
    }
    true
}

/// Whether the seats' lists agree with the history.
fn agree<A: Allocator + Copy + Drop, O: Ledger>(history: &[Call<A>], seats: &[Seat<A, O>]) -> bool
    ensures { IsTrue result ↔ Agree history.now (lists_of seats.now) }
{
    all_in(history, seats) && all_apart(seats)
}

/// K6 exactly if the seats' lists disagree with the history.
pub(crate) fn compare<A: Allocator + Copy + Drop, O: Ledger>(
    history: &[Call<A>],
    seats: &[Seat<A, O>],
) -> Result<(), Fault>
    ensures { MatchResult result
        (λ _. Agree history.now (lists_of seats.now))
        (λ fault. (fault ≡ SeatsDisagree) × (Agree history.now (lists_of seats.now) → ⊥)) }
{
    if agree(history, seats) {
        Ok(())
    } else {
        Err(Fault::SeatsDisagree)
    }
}
