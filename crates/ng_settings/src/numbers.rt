//! The whole numbers that a value holds.
ghost use Rattle.std.specs.Prelude.{◌≡◌, true, false, [], ◌∷◌, MatchOption};
ghost use Rattle.std.specs.List.{list_all, filter_map};
ghost use Rattle.toml.specs.Data.{as_integer};
ghost use Rattle.toml.specs.View.{view, array_view};
ghost use Rattle.ng_settings.specs.Numbers.{is_whole, is_list, is_triple, listed, numbers_of};
ghost use Rattle.ng_settings.specs.Given.{three};

use crate::whole::Whole;
use toml::Value;
use toml::value::Array;

/// A whole number for each axis.
#[derive(Clone, Copy)]
pub(crate) struct PerAxis {
    pub(crate) x: Whole,
    pub(crate) y: Whole,
    pub(crate) z: Whole,
}

/// Whether an array holds only whole numbers.
fn are_whole(array: &Array) -> bool
    ensures { result ≡ list_all is_whole (listed (array_view array.now)) }
{
    array.iter().all(|value| value.is_integer())
}

/// The three whole numbers of an array. `None` for any other value.
pub(crate) fn triple(value: &Value) -> Option<PerAxis>
    ensures { MatchOption result (is_triple (view value.now) ≡ false)
        (λ triple. (is_triple (view value.now) ≡ true) × (numbers_of (view value.now) ≡ three triple)) }
{
    let array = value.as_array()?;
    if array.len() != 3 {
        return None;
    }
    let x = array[0].as_integer()?;
    let y = array[1].as_integer()?;
    let z = array[2].as_integer()?;
    Some(PerAxis {
        x: Whole::of(x),
        y: Whole::of(y),
        z: Whole::of(z),
    })
}

/// A whole number. `None` for any other value.
#[tactic(auto, unfolding(crate::specs::Numbers::is_whole, crate::specs::Numbers::numbers_of))]
pub(crate) fn single(value: &Value) -> Option<Whole>
    ensures { MatchOption result (is_whole (view value.now) ≡ false)
        (λ number. (is_whole (view value.now) ≡ true) × (numbers_of (view value.now) ≡ number ∷ [])) }
{
    Some(Whole::of(value.as_integer()?))
}

/// An array of whole numbers. `None` for any other value.
#[tactic(auto, unfolding(crate::specs::Numbers::is_list, crate::specs::Numbers::numbers_of))]
pub(crate) fn list(value: &Value) -> Option<&Array>
    ensures { MatchOption result (is_list (view value.now) ≡ false)
        (λ array. (is_list (view value.now) ≡ true) × (numbers_of (view value.now) ≡ filter_map as_integer
        (listed (array_view array.now)))) }
{
    let array = value.as_array()?;
    if are_whole(array) { Some(array) } else { None }
}
