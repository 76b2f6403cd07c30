//! The rest of a line, without blanks and outside comments.
ghost use Rattle.std.specs.Prelude.{◌≡◌, ◌≢◌, ◌<◌, [], ◌∷◌, Some, None, MatchOption, MatchBool, IsTrue, ◌↔◌, drop, true, false};
ghost use Rattle.ng_words.specs.Plain.{plain, is_blank, capital, StartsWithByte, IsOutside, AtPlain, HasNoComment};
ghost use Rattle.ng_words.specs.Value.{strip_prefix};
ghost use Rattle.ng_words.specs.Pieces.{comment_at};
ghost use Rattle.ng_words.specs.Private.Walks.{ClosesAt};
ghost use Rattle.ng_words.specs.Scan.{front_digits, after_digits, is_empty, sign_at};

use crate::digits::{Digits, is_digit};
use std::marker::Model;

/// The rest of a line, seen as the bytes that count. The cursor is outside comments, and the next byte isn't a blank.
#[derive(Drop)]
pub(crate) struct Cursor<'a> {
    rest: &'a [u8],
}

impl<'a> Model for Cursor<'a> {
    ghost use Rattle.std.specs.Prelude.{List, ℕ, false};
    ghost use Rattle.ng_words.specs.Plain.{plain, AtPlain};

    ghost Value = { List ℕ };

    ghost view = { λ c. plain false c.rest.now };

    ghost invariant = { λ c. AtPlain c.rest.now };
}

#[inline]
pub(crate) fn is_blank(byte: u8) -> bool
    ensures { result ≡ is_blank byte }
{
    byte == b' ' || byte == b'\t'
}

#[inline]
pub(crate) fn capital(byte: u8) -> u8
    ensures { result ≡ capital byte }
{
    if b'a' <= byte && byte <= b'z' {
        byte - 32
    } else {
        byte
    }
}

/// The bytes from the first that counts on, if the text begins with blanks.
#[cold]
fn skip_run(bytes: &[u8]) -> &[u8]
    ensures same { plain false result.now ≡ plain false bytes.now }
    ensures at { AtPlain result.now }
{
    let mut rest = bytes;
    while let Some((first, others)) = rest.split_first() {
        if !is_blank(*first) {
            return rest;
        }
        rest = others;
    }
    rest
}

/// The bytes from the first that counts on. Most bytes are above the blank, so one comparison is enough for them.
#[inline]
pub(crate) fn skip_blanks(bytes: &[u8]) -> &[u8]
    ensures same { plain false result.now ≡ plain false bytes.now }
    ensures at { AtPlain result.now }
{
    match bytes.first() {
        Some(first) if *first <= b' ' => skip_run(bytes),
        _ => bytes,
    }
}

/// How many bytes there are before the closing parenthesis of a comment.
#[inline]
fn comment_length(bytes: &[u8]) -> Option<usize>
    ensures { MatchOption result (comment_at (plain true bytes.now) ≡ None) (λ n. ClosesAt bytes.now n) }
{
    for (i, byte) in bytes.iter().enumerate() {
        if *byte == b')' {
            return Some(i);
        }
        if *byte == b'(' {
            return None;
        }
    }
    None
}

impl<'a> Cursor<'a> {
    #[inline]
    pub(crate) fn new(line: &'a [u8]) -> Self
        ensures { result ≡ plain false line.now }
    {
        Cursor {
            rest: skip_blanks(line),
        }
    }

    /// Whether no byte that counts is left.
    #[inline]
    pub(crate) fn is_empty(&self) -> bool
        ensures { IsTrue result ↔ (self.now ≡ []) }
    {
        match self.rest.first() {
            None => true,
            Some(_) => false,
        }
    }

    /// The next byte that counts.
    #[inline]
    pub(crate) fn peek(&self) -> Option<u8>
        ensures { MatchOption result (self.now ≡ []) (λ b. StartsWithByte self.now b) }
    {
        match self.rest.first() {
            None => None,
            Some(first) => Some(capital(*first)),
        }
    }

    /// The next byte that counts, without a change of case.
    #[inline]
    pub(crate) fn first(&self) -> Option<u8>
        ensures { MatchOption result (self.now ≡ []) (λ b. StartsWithByte self.now (capital b)) }
    {
        match self.rest.first() {
            None => None,
            Some(first) => Some(*first),
        }
    }

    /// Whether a mark that isn't a letter comes next.
    #[inline]
    pub(crate) fn is_at(&self, mark: u8) -> bool
        requires { mark < 65 }
        ensures { MatchBool result (StartsWithByte self.now mark) (StartsWithByte self.now mark → ⊥) }
    {
        match self.rest.first() {
            None => false,
            Some(first) => *first == mark,
        }
    }

    /// Steps over the next byte that counts.
    #[inline]
    pub(crate) fn advance(&mut self)
        requires { IsOutside self.old }
        ensures { self.new ≡ drop 1 self.old }
    {
        match self.rest.split_first() {
            None => {}
            Some((_, others)) => self.rest = skip_blanks(others),
        }
    }

    /// The digits that come next.
    #[inline]
    pub(crate) fn digits(&self) -> Digits<'a>
        ensures { result ≡ self.now }
    {
        Digits { rest: self.rest }
    }

    /// Whether a digit comes next.
    #[inline]
    pub(crate) fn is_at_digit(&self) -> bool
        ensures { MatchBool result (is_empty (front_digits self.now) ≡ false)
            ((front_digits self.now ≡ []) × (after_digits self.now ≡ self.now)) }
    {
        match self.rest.first() {
            None => false,
            Some(first) => is_digit(*first),
        }
    }

    /// Whether a minus comes next, and the bytes after the sign, if there is one.
    #[inline(always)]
    pub(crate) fn after_sign(&self) -> (bool, Digits<'a>)
        ensures { (result.0, result.1) ≡ sign_at self.now }
    {
        match self.rest.split_first() {
            Some((b'-', others)) => (true, Digits { rest: others }),
            Some((b'+', others)) => (false, Digits { rest: others }),
            _ => (false, Digits { rest: self.rest }),
        }
    }

    /// A cursor after the digits that were read.
    #[inline(always)]
    pub(crate) fn after(digits: &Digits<'a>) -> Cursor<'a>
        ensures { result ≡ digits.now }
    {
        Cursor {
            rest: skip_blanks(digits.rest),
        }
    }

    /// Moves to the place of another cursor.
    #[inline]
    pub(crate) fn go_to(&mut self, other: &Cursor<'a>)
        ensures { self.new ≡ other.now }
    {
        self.rest = other.rest;
    }

    /// Moves past digits that were read.
    #[inline]
    pub(crate) fn go_on(&mut self, digits: &Digits<'a>)
        ensures { self.new ≡ digits.now }
    {
        self.rest = skip_blanks(digits.rest);
    }

    /// Skips a text if it comes next. Returns whether it does.
    pub(crate) fn skip(&mut self, text: &[u8]) -> bool
        requires { HasNoComment text.now }
        ensures { MatchBool result (strip_prefix text.now self.old ≡ Some self.new)
            ((strip_prefix text.now self.old ≡ None) × (self.new ≡ self.old)) }
    {
        let mut ahead = Cursor { rest: self.rest };
        for expected in text {
            if ahead.peek() != Some(*expected) {
                return false;
            }
            ahead.advance();
        }
        self.rest = ahead.rest;
        true
    }

    /// Takes the comment whose opening parenthesis comes next, and returns its bytes. If there is no comment, the
    /// cursor doesn't move.
    pub(crate) fn comment(&mut self) -> Option<&'a [u8]>
        requires { StartsWithByte self.old 40 }
        ensures { MatchOption result (comment_at (drop 1 self.old) ≡ None)
            (λ text. comment_at (drop 1 self.old) ≡ Some (text.now, self.new)) }
    {
        let (_, bytes) = self.rest.split_first()?;
        let n = comment_length(bytes)?;
        let (text, _) = bytes.split_at(n);
        let (_, others) = bytes.split_at(n + 1);
        self.rest = skip_blanks(others);
        Some(text)
    }
}
