//! Numbers with no blank between their digits: nearly all numbers that programs write.
ghost use Rattle.std.specs.Prelude.{◌≡◌, ◌+◌, ◌*◌, ◌≤◌, Some, MatchOption, IfSome, true, false, cond};
ghost use Rattle.ng_words.specs.Scan.{fraction_from, front_digits, after_digits, whole_after, is_empty, unsigned_at, number_at};

use crate::cursor::Cursor;
use crate::digits::Digits;
use crate::number::with_digit;
use ng_num::Num;

/// The most digits of a whole part that are read here. A number in range has no more.
const WHOLE_DIGITS: u32 = 7;

/// The most decimals that are read here. With more, the number is rounded.
const DECIMALS: u32 = 6;

/// Takes up to seven digits of a whole part. Returns their value, and whether there are none.
#[inline(always)]
fn plain_whole(digits: &mut Digits<'_>) -> (u32, bool)
    ensures rest { after_digits digits.new ≡ after_digits digits.old }
    ensures value { whole_after result.0 (front_digits digits.new) ≡ whole_after 0 (front_digits digits.old) }
    ensures bound { result.0 ≤ 10_000_000 }
    ensures none { cond result.1 (is_empty (front_digits digits.new)) false ≡ is_empty (front_digits digits.old) }
{
    let mut whole: u32 = 0;
    let mut none = true;
    for _ in 0..WHOLE_DIGITS {
        match digits.next_plain() {
            Some(digit) => {
                whole = with_digit(whole, digit);
                none = false;
            }
            None => return (whole, none),
        }
    }
    (whole, none)
}

/// Takes up to six digits after a point. Returns their value in millionths, and whether there are none.
#[inline(always)]
fn plain_fraction(digits: &mut Digits<'_>) -> (u32, bool)
    ensures rest { after_digits digits.new ≡ after_digits digits.old }
    ensures value { is_empty (front_digits digits.new) ≡ true → result.0 * 10 ≡ fraction_from 1_000_000 (front_digits digits.old) }
    ensures bound { result.0 ≤ 1_000_000 }
    ensures none { cond result.1 (is_empty (front_digits digits.new)) false ≡ is_empty (front_digits digits.old) }
{
    let mut sum: u32 = 0;
    let mut unit: u32 = 100_000;
    let mut none = true;
    for _ in 0..DECIMALS {
        match digits.next_plain() {
            Some(digit) => {
                none = false;
                sum += (digit - b'0') as u32 * unit;
                unit /= 10;
            }
            None => return (sum, none),
        }
    }
    (sum, none)
}

/// The millionths of an unsigned number with no blank between its digits, and the rest after it. `None` if there is no
/// digit, or if the number may go on: after a blank, with an eighth digit or with a seventh decimal.
#[inline(always)]
fn plain_unsigned<'a>(start: Digits<'a>) -> Option<(u64, Cursor<'a>)>
    ensures { IfSome result (λ x. unsigned_at start.entry ≡ Some (x.0, x.1)) }
{
    let mut digits = start;
    let (whole, no_whole) = plain_whole(&mut digits);
    if !digits.skip_point() {
        let rest = Cursor::after(&digits);
        if no_whole || rest.is_at_digit() || rest.is_at(b'.') {
            return None;
        }
        return Some((whole as u64 * 1_000_000, rest));
    }
    let (millionths, no_fraction) = plain_fraction(&mut digits);
    let rest = Cursor::after(&digits);
    if (no_whole & no_fraction) || rest.is_at_digit() {
        return None;
    }
    Some((whole as u64 * 1_000_000 + millionths as u64, rest))
}

/// Takes a number with no blank between its digits, and returns its count of millionths. The inner `None` says that it
/// is out of range. After an outer `None` the cursor stays, and a number may still come next.
#[inline(always)]
pub(crate) fn plain_number(cursor: &mut Cursor<'_>) -> Option<Option<Num>>
    ensures { MatchOption result (cursor.new ≡ cursor.old) (λ v. number_at cursor.old ≡ Some (v, cursor.new)) }
{
    let (negative, digits) = cursor.after_sign();
    let (size, rest) = plain_unsigned(digits)?;
    cursor.go_to(&rest);
    Some(Num::of_size(negative, size).ok())
}
