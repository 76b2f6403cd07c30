//! Numbers outside their limits.
ghost use Rattle.std.specs.Prelude.{◌≡◌, [], ◌∷◌, pos, false};
ghost use Rattle.std.specs.List.{filter_map};
ghost use Rattle.std.specs.Option.{option_map_or};
ghost use Rattle.toml.specs.Data.{as_integer};
ghost use Rattle.toml.specs.View.{view, array_view};
ghost use Rattle.ng_settings.specs.Numbers.{listed};
ghost use Rattle.ng_settings.specs.Causes.{is_beyond, are_beyond};
ghost use Rattle.ng_settings.specs.Given.{three};

use crate::numbers::PerAxis;
use crate::whole::Whole;
use toml::Value;
use toml::value::Array;

/// Whether a number is below the least or above the greatest.
pub(crate) fn is_single_beyond(number: Whole, least: i64, greatest: i64) -> bool
    ensures { result ≡ are_beyond least greatest (number ∷ []) }
{
    number.is_beyond(least, greatest)
}

/// Whether one of three numbers is below the least or above the greatest.
pub(crate) fn is_triple_beyond(numbers: PerAxis, least: i64, greatest: i64) -> bool
    ensures { result ≡ are_beyond least greatest (three numbers) }
{
    let x = numbers.x.is_beyond(least, greatest);
    let y = numbers.y.is_beyond(least, greatest);
    let z = numbers.z.is_beyond(least, greatest);
    x | y | z
}

/// Whether a value is a whole number that isn't a tool length: below 0 or above 1,000,000,000 nm.
fn is_length_beyond(value: &Value) -> bool
    ensures { result ≡ option_map_or (is_beyond (pos 0) (pos 1_000_000_000)) (as_integer (view value.now)) false }
{
    match value.as_integer() {
        Some(nm) => nm < 0 || 1_000_000_000 < nm,
        None => false,
    }
}

/// Whether one of an array's whole numbers isn't a tool length.
pub(crate) fn is_list_beyond(lengths: &Array) -> bool
    ensures { result ≡ are_beyond (pos 0) (pos 1_000_000_000) (filter_map as_integer (listed (array_view lengths.now))) }
{
    lengths.iter().any(is_length_beyond)
}
