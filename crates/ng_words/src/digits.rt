//! The digits that come next on a line, one by one.
ghost use Rattle.std.specs.Prelude.{◌≡◌, [], ◌∷◌, false, Some, None, MatchOption, MatchBool, IsTrue};
ghost use Rattle.ng_words.specs.Plain.{plain, AtPlain};
ghost use Rattle.ng_words.specs.Grammar.{is_digit};
ghost use Rattle.ng_words.specs.Scan.{front_digits, after_digits};

use crate::cursor::skip_blanks;
use std::marker::Model;

/// The rest of a line while digits are read, seen as the bytes that count. Unlike a cursor's bytes they may begin with
/// blanks.
#[derive(Drop)]
pub(crate) struct Digits<'a> {
    pub(crate) rest: &'a [u8],
}

impl<'a> Model for Digits<'a> {
    ghost use Rattle.std.specs.Prelude.{List, ℕ, false};
    ghost use Rattle.ng_words.specs.Plain.{plain};

    ghost Value = { List ℕ };

    ghost view = { λ d. plain false d.rest.now };
}

#[inline]
pub(crate) fn is_digit(byte: u8) -> bool
    ensures { result ≡ is_digit byte }
{
    b'0' <= byte && byte <= b'9'
}

/// The first byte, if it is a digit, and the bytes after it.
#[inline]
fn first_digit(bytes: &[u8]) -> Option<(u8, &[u8])>
    ensures { MatchOption result (AtPlain bytes.now → (front_digits (plain false bytes.now) ≡ [])
        × (after_digits (plain false bytes.now) ≡ plain false bytes.now))
        (λ x. (plain false bytes.now ≡ x.0 ∷ plain false x.1.now) × IsTrue (is_digit x.0)) }
{
    match bytes.split_first() {
        Some((first, others)) if is_digit(*first) => Some((*first, others)),
        _ => None,
    }
}

impl<'a> Digits<'a> {
    /// The next digit, if it is the next byte: blanks are not skipped.
    #[inline(always)]
    pub(crate) fn next_plain(&mut self) -> Option<u8>
        ensures { MatchOption result (self.new ≡ self.old) (λ b. (self.old ≡ b ∷ self.new) × IsTrue (is_digit b)) }
    {
        let (digit, others) = first_digit(self.rest)?;
        self.rest = others;
        Some(digit)
    }

    /// Skips a point, if it is the next byte. Returns whether it is.
    #[inline(always)]
    pub(crate) fn skip_point(&mut self) -> bool
        ensures { MatchBool result (self.old ≡ 46 ∷ self.new) (self.new ≡ self.old) }
    {
        match self.rest.split_first() {
            Some((b'.', others)) => {
                self.rest = others;
                true
            }
            _ => false,
        }
    }

    /// The next digit. `None` if another byte comes first, or no byte is left. Blanks are rare, so they are looked for
    /// only when the next byte isn't a digit.
    #[inline]
    pub(crate) fn next(&mut self) -> Option<u8>
        ensures { MatchOption result ((front_digits self.old ≡ []) × (after_digits self.old ≡ self.old) × (self.new ≡ self.old))
            (λ b. (self.old ≡ b ∷ self.new) × IsTrue (is_digit b)) }
    {
        if let Some((digit, others)) = first_digit(self.rest) {
            self.rest = others;
            return Some(digit);
        }
        self.rest = skip_blanks(self.rest);
        match first_digit(self.rest) {
            Some((digit, others)) => {
                self.rest = others;
                Some(digit)
            }
            None => None,
        }
    }
}
