//! The values of keys.
ghost use Rattle.std.specs.Prelude.{◌≡◌, ℕ, IfSome, IfNone};
ghost use Rattle.toml.specs.View.{view};
ghost use Rattle.ng_motion.specs.Values.{IsTriple, IsWhole};

use crate::key::Key;
use toml::Value;

/// A whole number for each axis.
#[derive(Clone, Copy)]
pub(crate) struct PerAxis {
    pub(crate) x: u64,
    pub(crate) y: u64,
    pub(crate) z: u64,
}

/// A whole number in the key's range.
pub(crate) fn whole_in(value: &Value, key: Key) -> Option<u64>
    ensures found { IfSome result (IsWhole key (view value.now)) }
    ensures none { IfNone result ((n : ℕ) → IsWhole key (view value.now) n → ⊥) }
{
    let Some(number) = value.as_integer() else {
        return None;
    };
    if number < key.least() as i64 || (key.greatest() as i64) < number {
        return None;
    }
    Some(number as u64)
}

/// Three whole numbers in the key's range.
pub(crate) fn axes_in(value: &Value, key: Key) -> Option<PerAxis>
    ensures found { IfSome result (IsTriple key (view value.now)) }
    ensures none { IfNone result ((a : PerAxis) → IsTriple key (view value.now) a → ⊥) }
{
    let Some(array) = value.as_array() else {
        return None;
    };
    if array.len() != 3 {
        return None;
    }
    let Some(x) = whole_in(&array[0], key) else {
        return None;
    };
    let Some(y) = whole_in(&array[1], key) else {
        return None;
    };
    let Some(z) = whole_in(&array[2], key) else {
        return None;
    };
    Some(PerAxis { x, y, z })
}
