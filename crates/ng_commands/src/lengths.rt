//! Lengths in commands, in millimetres: numbers as in a line of a program.
ghost use Rattle.std.specs.Prelude.{◌≡◌, ◌≤◌, ◌++◌, ◌∷◌, ℕ, ℤ, MatchOption, length};
ghost use Rattle.ng_num.specs.declared.point.Point.{Point};
ghost use Rattle.ng_commands.specs.Commands.{AreDigitsOf, HasNo, SpellsLength, SpellsPoint, SpellsTool};

use crate::digits::whole;
use ng_num::{Len, Point, Unit, nm_of};
use ng_words::read_number;

/// The most digits of a slot's number.
const SLOT_DIGITS: usize = 3;

/// The greatest number with this many digits.
const GREATEST_SLOT: u32 = 999;

/// The bytes before and after the first blank.
fn parted(words: &[u8]) -> Option<(&[u8], &[u8])>
    ensures { MatchOption result (HasNo 32 words.now) (λ p. (words.now ≡ p.0.now ++ 32 ∷ p.1.now) × HasNo 32 p.0.now) }
{
    for (n, byte) in words.iter().enumerate() {
        if *byte == b' ' {
            return Some((&words[..n], &words[n + 1..]));
        }
    }
    None
}

/// The length that a text stands for.
fn length(text: &[u8]) -> Option<Len>
    ensures { MatchOption result ((nm : ℤ) → SpellsLength text.now nm → ⊥) (SpellsLength text.now) }
{
    match read_number(text) {
        Ok(number) => nm_of(number, Unit::Millimetres).ok(),
        Err(_) => None,
    }
}

/// The point whose coordinates are three words, separated by one blank.
pub(crate) fn point(words: &[u8]) -> Option<Point>
    ensures { MatchOption result ((p : Point) → SpellsPoint words.now p → ⊥) (SpellsPoint words.now) }
{
    let (x, others) = parted(words)?;
    let (y, z) = parted(others)?;
    Some(Point {
        x: length(x)?,
        y: length(y)?,
        z: length(z)?,
    })
}

/// The number of a slot, from its digits.
#[tactic(auto, using(crate::proofs::DigitSizeLemmas::no_slot))]
fn slot(digits: &[u8]) -> Option<u16>
    ensures { MatchOption result ((n : ℕ) → AreDigitsOf digits.now n → length digits.now ≤ 3 → ⊥)
        (λ n. AreDigitsOf digits.now n × (length digits.now ≤ 3)) }
{
    if digits.len() > SLOT_DIGITS {
        return None;
    }
    match whole(digits, GREATEST_SLOT) {
        Some(slot) => Some(slot as u16),
        None => None,
    }
}

/// The slot and the length that two words stand for, separated by one blank.
pub(crate) fn slot_and_length(words: &[u8]) -> Option<(u16, Len)>
    ensures { MatchOption result ((slot : ℕ) (nm : ℤ) → SpellsTool words.now slot nm → ⊥) (λ t. SpellsTool words.now t.0 t.1) }
{
    let (digits, text) = parted(words)?;
    let slot = slot(digits)?;
    let length = length(text)?;
    Some((slot, length))
}
