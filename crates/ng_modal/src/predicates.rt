//! What the causes of faults depend on: words by what they ask for, and whole numbers.
ghost use Rattle.std.specs.Prelude.{◌≡◌};
ghost use Rattle.std.specs.Option.{option_and_then};
ghost use Rattle.ng_num.specs.Whole.{whole_of};
ghost use Rattle.ng_modal.specs.Causes.{is_off, is_set_offset, is_machine, is_dwell, is_set_origin, is_of_slot, is_along_x, is_along_y, is_along_z, is_unused_word, is_negative, is_between, is_whole_within, is_positive};

use crate::requests::{NonModal, ToolLength};
use ng_canon::Plane;
use ng_num::Num;
use ng_state::Motion;

/// Whether a motion mode is G80.
#[inline]
pub(crate) fn is_off(mode: Motion) -> bool
    ensures { result ≡ is_off mode }
{
    match mode {
        Motion::Off => true,
        _ => false,
    }
}

/// Whether a word is G92.
#[inline]
pub(crate) fn is_set_offset(word: Option<NonModal>) -> bool
    ensures { result ≡ is_set_offset word }
{
    match word {
        Some(NonModal::SetOffset) => true,
        _ => false,
    }
}

/// Whether a word is G53.
#[inline]
pub(crate) fn is_machine(word: Option<NonModal>) -> bool
    ensures { result ≡ is_machine word }
{
    match word {
        Some(NonModal::MachineCoordinates) => true,
        _ => false,
    }
}

/// Whether a word is G4.
#[inline]
pub(crate) fn is_dwell(word: Option<NonModal>) -> bool
    ensures { result ≡ is_dwell word }
{
    match word {
        Some(NonModal::Dwell) => true,
        _ => false,
    }
}

/// Whether a word is G10.
#[inline]
pub(crate) fn is_set_origin(word: Option<NonModal>) -> bool
    ensures { result ≡ is_set_origin word }
{
    match word {
        Some(NonModal::SetOrigin) => true,
        _ => false,
    }
}

/// Whether a word is G43.
#[inline]
pub(crate) fn is_of_slot(word: Option<ToolLength>) -> bool
    ensures { result ≡ is_of_slot word }
{
    match word {
        Some(ToolLength::OfSlot) => true,
        _ => false,
    }
}

/// Whether X is an axis of a plane.
#[inline]
pub(crate) fn is_along_x(plane: Plane) -> bool
    ensures { result ≡ is_along_x plane }
{
    match plane {
        Plane::Yz => false,
        _ => true,
    }
}

/// Whether Y is an axis of a plane.
#[inline]
pub(crate) fn is_along_y(plane: Plane) -> bool
    ensures { result ≡ is_along_y plane }
{
    match plane {
        Plane::Xz => false,
        _ => true,
    }
}

/// Whether Z is an axis of a plane.
#[inline]
pub(crate) fn is_along_z(plane: Plane) -> bool
    ensures { result ≡ is_along_z plane }
{
    match plane {
        Plane::Xy => false,
        _ => true,
    }
}

/// Whether there is a word that nothing uses.
#[inline]
pub(crate) fn is_unused_word(word: Option<Num>, taken: bool) -> bool
    ensures { result ≡ is_unused_word word taken }
{
    word.is_some() && !taken
}

/// Whether a word's value is negative.
#[inline]
pub(crate) fn is_negative(value: Option<Num>) -> bool
    ensures { result ≡ is_negative value }
{
    match value {
        None => false,
        Some(number) => number.count() < 0,
    }
}

#[inline]
fn is_between(low: i64, high: i64, number: Option<i64>) -> bool
    ensures { result ≡ is_between low high number }
{
    match number {
        None => false,
        Some(number) => !(number < low) && !(high < number),
    }
}

/// Whether a value counts as a whole number within limits.
#[inline]
pub(crate) fn is_whole_within(low: i64, high: i64, value: Option<Num>) -> bool
    ensures { result ≡ is_whole_within low high value }
{
    match value {
        None => false,
        Some(number) => is_between(low, high, number.whole()),
    }
}

/// Whether a value counts as a whole number of at least 1.
#[inline]
pub(crate) fn is_positive(value: Option<Num>) -> bool
    ensures { result ≡ is_positive (option_and_then whole_of value) }
{
    match value {
        None => false,
        Some(number) => match number.whole() {
            None => false,
            Some(number) => !(number < 1),
        },
    }
}
