//! Numbers, read as they are written: a minus, a whole number, a point and six decimals.
ghost use Rattle.std.specs.Prelude.{◌≡◌, ◌≤◌, ◌<◌, ◌%◌, ◌^◌, ◌*◌, ◌+◌, ◌∷◌, ℕ, ℤ, List, Some, IfSome, IfNone, pos, negsuc, suc};
ghost use Rattle.std.specs.Option.{SomeIff};
ghost use Rattle.ng_num.specs.Range.{IsCount, greatest};
ghost use Rattle.ng_num.specs.Printing.{number_text, six_digits};
ghost use Rattle.ng_lines.specs.Parts.{size_text};

use crate::whole::{value_of, whole_in};
use ng_num::Num;

/// Millionths, written with six digits.
fn decimals_in(digits: &[u8]) -> Option<u64>
    ensures found { IfSome result (λ n. (n < 1_000_000) × (six_digits n ≡ digits.now)) }
    ensures only { (n : ℕ) → six_digits n ≡ digits.now → result ≡ Some (n % 1_000_000) }
{
    if digits.len() != 6 {
        return None;
    }
    value_of(digits)
}

/// Millionths, written with a point and six digits.
fn millionths_in(text: &[u8]) -> Option<u64>
    ensures found { IfSome result (λ n. (n < 1_000_000) × (46 ∷ six_digits n ≡ text.now)) }
    ensures only { (n : ℕ) → 46 ∷ six_digits n ≡ text.now → result ≡ Some (n % 1_000_000) }
{
    match text {
        [b'.', digits @ ..] => decimals_in(digits),
        _ => None,
    }
}

/// A count of whole units and one of millionths, as millionths.
fn in_millionths(whole: u64, millionths: u64) -> Option<u64>
    requires { millionths < 1_000_000 }
    ensures { SomeIff result (whole * 1_000_000 + millionths < 2 ^ 64) (whole * 1_000_000 + millionths) }
{
    whole.checked_mul(1_000_000)?.checked_add(millionths)
}

/// A count of millionths, written as a number.
fn size_in(text: &[u8]) -> Option<u64>
    ensures found { IfSome result (λ n. size_text n ≡ text.now) }
    ensures only { (n : ℕ) → n ≤ greatest → size_text n ≡ text.now → result ≡ Some n }
{
    if text.len() < 7 {
        return None;
    }
    let (front, back) = text.split_at(text.len() - 7);
    let Some(whole) = whole_in(front) else {
        return None;
    };
    let Some(millionths) = millionths_in(back) else {
        return None;
    };
    in_millionths(whole, millionths)
}

/// A number of this size that isn't below 0.
fn from_zero(text: &[u8]) -> Option<Num>
    ensures found { IfSome result (λ z. number_text z ≡ text.now) }
    ensures only { (n : ℕ) → n ≤ greatest → size_text n ≡ text.now → result ≡ Some (pos n) }
{
    match size_in(text) {
        Some(size) => Num::of_size(false, size).ok(),
        None => None,
    }
}

/// A number of this size below 0; there is none of size 0.
fn below_zero(text: &[u8]) -> Option<Num>
    ensures found { IfSome result (λ z. number_text z ≡ 45 ∷ text.now) }
    ensures only { (n : ℕ) → suc n ≤ greatest → size_text (suc n) ≡ text.now → result ≡ Some (negsuc n) }
{
    match size_in(text) {
        Some(0) => None,
        Some(size) => Num::of_size(true, size).ok(),
        None => None,
    }
}

/// What follows the minus that a text begins with.
fn without_minus(text: &[u8]) -> Option<&[u8]>
    ensures found { IfSome result (λ size. text.now ≡ 45 ∷ size.now) }
    ensures none { IfNone result ((size : List ℕ) → text.now ≡ 45 ∷ size → ⊥) }
{
    match text {
        [b'-', size @ ..] => Some(size),
        _ => None,
    }
}

/// A number, written as `number_text` says.
pub(crate) fn number_in(text: &[u8]) -> Option<Num>
    ensures found { IfSome result (λ z. number_text z ≡ text.now) }
    ensures only { (z : ℤ) → IsCount z → number_text z ≡ text.now → result ≡ Some z }
{
    match without_minus(text) {
        Some(size) => below_zero(size),
        None => from_zero(text),
    }
}
