//! Whole numbers, read as they are written: digits without a leading zero.
ghost use Rattle.std.specs.Prelude.{◌≡◌, ◌<◌, ◌^◌, ◌+◌, ◌-◌, ◌*◌, ℕ, true, Some, IfSome, IsFalse, IsTrue, length, slice_index};
ghost use Rattle.std.specs.Option.{SomeIff};
ghost use Rattle.std.specs.Int.{IsInRange};
ghost use Rattle.std.specs.Str.{all_ascii_digits};
ghost use Rattle.ng_lines.specs.Whole.{read_on};
ghost use Rattle.std.specs.Fmt.{decimal};

/// The digit of a byte.
#[inline(always)]
fn digit_of(byte: u8) -> Option<u64>
    ensures { SomeIff result (IsInRange 48 57 byte) (byte - 48) }
{
    if byte >= b'0' && byte <= b'9' {
        Some((byte - b'0') as u64)
    } else {
        None
    }
}

/// A number and one more digit.
#[inline(always)]
fn with_digit(number: u64, digit: u64) -> Option<u64>
    ensures { SomeIff result (number * 10 + digit < 2 ^ 64) (number * 10 + digit) }
{
    number.checked_mul(10)?.checked_add(digit)
}

/// The number that digits stand for.
pub(crate) fn value_of(digits: &[u8]) -> Option<u64>
    ensures { SomeIff result ((all_ascii_digits digits.now ≡ true) × (read_on 0 digits.now < 2 ^ 64)) (read_on 0 digits.now) }
{
    let mut number: u64 = 0;
    for byte in digits {
        let Some(digit) = digit_of(*byte) else {
            return None;
        };
        let Some(next) = with_digit(number, digit) else {
            return None;
        };
        number = next;
    }
    Some(number)
}

/// Whether a text begins as a number may: not with a zero that something follows.
#[inline(always)]
fn begins_well(text: &[u8]) -> bool
    ensures yes { IsTrue result → (0 < length text.now) × (slice_index text.now 0 ≡ 48 → length text.now ≡ 1) }
    ensures no { IsFalse result → 0 < length text.now → (slice_index text.now 0 ≡ 48) × (1 < length text.now) }
{
    match text {
        [] => false,
        [b'0'] => true,
        [first, ..] => *first != b'0',
    }
}

/// The number that is written so.
pub(crate) fn whole_in(text: &[u8]) -> Option<u64>
    ensures found { IfSome result (λ n. decimal n ≡ text.now) }
    ensures only { (n : ℕ) → n < 2 ^ 64 → decimal n ≡ text.now → result ≡ Some n }
{
    if begins_well(text) {
        value_of(text)
    } else {
        None
    }
}
