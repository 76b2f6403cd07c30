//! How a line begins: slash and block number.
ghost use Rattle.std.specs.Prelude.{◌≡◌, false, Some, None, MatchOption};
ghost use Rattle.ng_words.specs.Start.{is_deletable, kind_of};
ghost use Rattle.ng_words.specs.Scan.{front_digits, after_digits, slash_at, numbered, block_number_at};

use crate::cursor::Cursor;
use crate::number::with_digit;

/// The most digits that a block number can have.
const DIGITS: u32 = 5;

/// How a line begins: whether with a slash, and its block number, if it has one.
#[derive(Clone, Copy)]
pub(crate) struct Head {
    pub(crate) deletable: bool,
    pub(crate) number: Option<u32>,
}

impl Head {
    /// Neither a slash nor a block number.
    pub(crate) fn none() -> Head
        ensures deletable { result.deletable ≡ false }
        ensures number { result.number ≡ None }
    {
        Head {
            deletable: false,
            number: None,
        }
    }
}

/// Takes the slash, if it comes next.
#[inline]
pub(crate) fn slash(cursor: &mut Cursor<'_>) -> bool
    ensures { (result, cursor.new) ≡ slash_at cursor.old }
{
    if cursor.is_at(b'/') {
        cursor.advance();
        return true;
    }
    false
}

/// Whether a line begins with the slash of block delete, after any blanks (NISTIR 6556, 3.3).
pub fn is_deletable(text: &[u8]) -> bool
    ensures { result ≡ is_deletable text.now }
{
    let cursor = Cursor::new(text);
    match cursor.peek() {
        Some(b'/') => true,
        _ => false,
    }
}

/// What kind of line a text is. The kinds are those that decide where a program starts and ends.
#[derive(Clone, Copy, Debug, PartialEq, Eq)]
pub enum LineKind {
    /// Only blanks, or nothing.
    Blank,
    /// A percent sign alone, which begins and ends a program.
    Percent,
    /// Anything else.
    Other,
}

/// What kind of line a text is: blank, a percent sign alone, or something else.
///
/// Percent signs on lines of their own mark the start and the end of a program (NISTIR 6556, 3.3). Blanks and tabs
/// around the sign, and on a blank line, don't count (own).
pub fn kind_of(text: &[u8]) -> LineKind
    ensures { result ≡ kind_of text.now }
{
    let mut cursor = Cursor::new(text);
    match cursor.peek() {
        None => LineKind::Blank,
        Some(b'%') => {
            cursor.advance();
            if cursor.is_empty() {
                LineKind::Percent
            } else {
                LineKind::Other
            }
        }
        Some(_) => LineKind::Other,
    }
}

/// Takes one to five digits.
fn block_digits(cursor: &mut Cursor<'_>) -> Option<u32>
    ensures { MatchOption result (numbered (front_digits cursor.old) (after_digits cursor.old) ≡ None)
        (λ n. numbered (front_digits cursor.old) (after_digits cursor.old) ≡ Some (Some n, cursor.new)) }
{
    let mut number: u32 = 0;
    let mut count: u32 = 0;
    let mut digits = cursor.digits();
    while let Some(digit) = digits.next() {
        if count == DIGITS {
            return None;
        }
        number = with_digit(number, digit);
        count += 1;
    }
    cursor.go_on(&digits);
    if count == 0 { None } else { Some(number) }
}

/// Takes the block number, if an N comes next.
#[inline]
pub(crate) fn block_number(cursor: &mut Cursor<'_>) -> Option<Option<u32>>
    ensures { MatchOption result (block_number_at cursor.old ≡ None) (λ n. block_number_at cursor.old ≡ Some (n, cursor.new)) }
{
    match cursor.first() {
        Some(b'N') | Some(b'n') => {
            cursor.advance();
            let number = block_digits(cursor)?;
            Some(Some(number))
        }
        _ => Some(None),
    }
}
