//! Numbers: the one that comes next on a line, and a text that is a number.
ghost use Rattle.std.specs.Prelude.{◌≡◌, ◌⊎◌, ◌↔◌, ◌+◌, ◌-◌, ◌*◌, ◌≤◌, [], ◌∷◌, ℤ, Some, None, MatchOption, IfSome, IfOk, IfErr, IsErrOf, IsTrue, min};
ghost use Rattle.std.specs.List.{list_any};
ghost use Rattle.ng_num.specs.Range.{in_range};
ghost use Rattle.ng_words.specs.Plain.{is_blank};
ghost use Rattle.ng_words.specs.Grammar.{IsNumber, is_digit};
ghost use Rattle.ng_words.specs.Scan.{fraction_from, front_digits, after_digits, whole_after, is_empty, unsigned_at, sign_at, number_at};

use crate::cursor::{Cursor, is_blank};
use crate::plain_number::plain_number;
use ng_num::{Fault, Num};

/// From this whole part on, every number is out of range.
const WHOLE_LIMIT: u32 = 10_000_000;

/// The whole part with one more digit. It stays at its limit, so it never overflows.
#[inline]
pub(crate) fn with_digit(whole: u32, digit: u8) -> u32
    requires small { whole ≤ 10_000_000 }
    requires digit { IsTrue (is_digit digit) }
    ensures value { result ≡ min 10_000_000 (whole * 10 + (digit - 48)) }
    ensures bound { result ≤ 10_000_000 }
{
    (whole * 10 + (digit - b'0') as u32).min(WHOLE_LIMIT)
}

/// Takes the digits that come next. Returns their number, which stops at ten million, and whether there are none.
#[inline]
fn whole(cursor: &mut Cursor<'_>) -> (u32, bool)
    ensures rest { cursor.new ≡ after_digits cursor.old }
    ensures value { result.0 ≡ whole_after 0 (front_digits cursor.old) }
    ensures bound { result.0 ≤ 10_000_000 }
    ensures none { result.1 ≡ is_empty (front_digits cursor.old) }
{
    let mut whole: u32 = 0;
    let mut none = true;
    let mut digits = cursor.digits();
    while let Some(digit) = digits.next() {
        whole = with_digit(whole, digit);
        none = false;
    }
    cursor.go_on(&digits);
    (whole, none)
}

/// Takes the digits after a point. Returns the ten-millionths of the first seven, and whether there are none.
#[inline]
fn fraction(cursor: &mut Cursor<'_>) -> (u32, bool)
    ensures rest { cursor.new ≡ after_digits cursor.old }
    ensures value { result.0 ≡ fraction_from 1_000_000 (front_digits cursor.old) }
    ensures bound { result.0 ≤ 10_000_000 }
    ensures none { result.1 ≡ is_empty (front_digits cursor.old) }
{
    let mut sum: u32 = 0;
    let mut unit: u32 = 1_000_000;
    let mut none = true;
    let mut digits = cursor.digits();
    while let Some(digit) = digits.next() {
        none = false;
        sum += (digit - b'0') as u32 * unit;
        unit /= 10;
    }
    cursor.go_on(&digits);
    (sum, none)
}

/// Takes a number without a sign, and returns its millionths.
#[inline]
fn unsigned(cursor: &mut Cursor<'_>) -> Option<u64>
    ensures bound { IfSome result (λ n. n ≤ 10_000_001_000_001) }
    ensures value { MatchOption result (unsigned_at cursor.old ≡ None) (λ n. unsigned_at cursor.old ≡ Some (n, cursor.new)) }
{
    let (whole_part, no_whole) = whole(cursor);
    if !cursor.is_at(b'.') {
        return if no_whole {
            None
        } else {
            Some(whole_part as u64 * 1_000_000)
        };
    }
    cursor.advance();
    let (tenths, no_fraction) = fraction(cursor);
    if no_whole && no_fraction {
        return None;
    }
    Some(whole_part as u64 * 1_000_000 + (tenths as u64 + 5) / 10)
}

/// Takes an optional sign. Returns whether it is a minus.
#[inline]
fn minus(cursor: &mut Cursor<'_>) -> bool
    ensures { (result, cursor.new) ≡ sign_at cursor.old }
{
    if cursor.is_at(b'-') {
        cursor.advance();
        return true;
    }
    if cursor.is_at(b'+') {
        cursor.advance();
    }
    false
}

/// Takes a number that may have blanks between its digits, and returns its count of millionths. The inner `None` says
/// that it is out of range.
#[cold]
fn spaced_number(cursor: &mut Cursor<'_>) -> Option<Option<Num>>
    ensures { MatchOption result (number_at cursor.old ≡ None) (λ v. number_at cursor.old ≡ Some (v, cursor.new)) }
{
    let negative = minus(cursor);
    let size = unsigned(cursor)?;
    Some(Num::of_size(negative, size).ok())
}

/// Takes a number, and returns its count of millionths. The inner `None` says that it is out of range.
#[inline(always)]
pub(crate) fn number(cursor: &mut Cursor<'_>) -> Option<Option<Num>>
    ensures { MatchOption result (number_at cursor.old ≡ None) (λ v. number_at cursor.old ≡ Some (v, cursor.new)) }
{
    match plain_number(cursor) {
        Some(count) => Some(count),
        None => spaced_number(cursor),
    }
}

/// Whether some bytes contain a blank or a tab.
fn has_blank(bytes: &[u8]) -> bool
    ensures { result ≡ list_any is_blank bytes.now }
{
    bytes.iter().any(|byte| is_blank(*byte))
}

/// Reads a text that is one number, of any length: an optional sign, then digits with at most one point. It must not
/// contain blanks. The seventh decimal and those after it round half away from zero.
///
/// E1 if it isn't a number, E3 if the rounded number is out of range. It doesn't allocate. Source: NISTIR 6556,
/// 3.3.2.1; rounding, range and faults are own.
pub fn read_number(text: &[u8]) -> Result<Num, Fault>
    ensures value { (z : ℤ) → IsNumber text.now z → result ≡ in_range z }
    ensures reads { IfOk result (IsNumber text.now) }
    ensures unreadable { IsErrOf result Fault.Unreadable ↔ ((z : ℤ) → IsNumber text.now z → ⊥) }
    ensures errors { IfErr result (λ e. (e ≡ Fault.Unreadable) ⊎ (e ≡ Fault.OutOfRange)) }
{
    if has_blank(text) {
        return Err(Fault::Unreadable);
    }
    let mut cursor = Cursor::new(text);
    match number(&mut cursor) {
        Some(value) if cursor.is_empty() => value.ok_or(Fault::OutOfRange),
        _ => Err(Fault::Unreadable),
    }
}
