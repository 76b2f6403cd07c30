//! The values of a line's words, by letter.
ghost use Rattle.std.specs.Prelude.{◌≡◌, ◌∷◌, ◌<◌, ◌==◌, List, [], true};
ghost use Rattle.std.specs.Int.{bit_at};
ghost use Rattle.std.specs.Option.{is_some};
ghost use Rattle.ng_expr.specs.declared.word.Word.{Word};
ghost use Rattle.ng_modal.specs.Words.{first, of_letter};
ghost use Rattle.ng_modal.specs.ByLetterModel.{index_of};
ghost use Rattle.ng_modal.specs.ByLetter.{by_letter, takes_value, has_left_out_letter, has_axis, value_of};

use ng_num::Num;
use ng_words::Letter;
use std::marker::Model;

/// The values of a line's words other than G and M, by letter (NISTIR 6556, table 3). In an accepted block A, B, C and
/// D have none.
#[derive(Drop)]
pub struct ByLetter {
    /// The letters that have a value, each by the bit at its index.
    present: u32,
    /// The value of each letter that has one, at its index. A number at another index is left from an earlier line, so
    /// that a new line clears only the bits.
    numbers: [Num; 20],
}

impl Model for ByLetter {
    ghost use Rattle.ng_modal.specs.ByLetterModel.{ByLetterModel, unpacked};

    ghost Value = { ByLetterModel };

    ghost view = { λ v. unpacked v.present v.numbers };
}

/// A letter's index among the letters.
#[inline(always)]
fn index_of(letter: Letter) -> usize
    ensures value { result ≡ index_of letter }
    ensures below { result < 20 }
{
    letter as usize
}

/// Whether the bit at an index is set.
#[inline(always)]
fn has_bit(bits: u32, index: usize) -> bool
    requires { index < 20 }
    ensures { result ≡ (bit_at bits index == 1) }
{
    (bits >> index) & 1 == 1
}

impl ByLetter {
    /// No values.
    #[inline]
    pub(crate) fn nothing() -> ByLetter
        ensures { result ≡ by_letter [] }
    {
        ByLetter {
            present: 0,
            numbers: [Num::zero(); 20],
        }
    }

    /// Removes all values.
    #[inline]
    pub(crate) fn clear(&mut self)
        ensures { self.new ≡ by_letter [] }
    {
        self.present = 0;
    }

    /// Adds a word other than G and M in front of those added before. Returns whether there was one with its letter.
    #[inline]
    pub(crate) fn take(&mut self, letter: Letter, value: Num) -> bool
        ghost ws: { List Word }
        requires value { takes_value letter ≡ true }
        requires words { self.old ≡ by_letter ws }
        ensures taken { self.new ≡ by_letter (record { letter = letter; value = value } ∷ ws) }
        ensures was { result ≡ is_some (first (of_letter letter ws)) }
    {
        let index = index_of(letter);
        let was = has_bit(self.present, index);
        self.present |= 1 << index;
        self.numbers[index] = value;
        was
    }

    /// The value of a letter other than G and M.
    #[inline(always)]
    fn at(&self, letter: Letter) -> Option<Num>
        requires { takes_value letter ≡ true }
        ensures { result ≡ value_of self.now letter }
    {
        let index = index_of(letter);
        if has_bit(self.present, index) {
            Some(self.numbers[index])
        } else {
            None
        }
    }

    /// Whether the line has an A, B, C or D, which are left out.
    #[inline]
    pub(crate) fn has_left_out_letter(&self) -> bool
        ensures { result ≡ has_left_out_letter self.now }
    {
        self.a().is_some() | self.b().is_some() | self.c().is_some() | self.d().is_some()
    }

    /// Whether the line has an X, Y or Z.
    #[inline]
    pub fn has_axis(&self) -> bool
        ensures { result ≡ has_axis self.now }
    {
        self.x().is_some() | self.y().is_some() | self.z().is_some()
    }

    /// The value of A.
    #[inline]
    pub fn a(&self) -> Option<Num>
        ensures { result ≡ self.now.a }
    {
        self.at(Letter::A)
    }

    /// The value of B.
    #[inline]
    pub fn b(&self) -> Option<Num>
        ensures { result ≡ self.now.b }
    {
        self.at(Letter::B)
    }

    /// The value of C.
    #[inline]
    pub fn c(&self) -> Option<Num>
        ensures { result ≡ self.now.c }
    {
        self.at(Letter::C)
    }

    /// The value of D.
    #[inline]
    pub fn d(&self) -> Option<Num>
        ensures { result ≡ self.now.d }
    {
        self.at(Letter::D)
    }

    /// The value of F.
    #[inline]
    pub fn f(&self) -> Option<Num>
        ensures { result ≡ self.now.f }
    {
        self.at(Letter::F)
    }

    /// The value of H.
    #[inline]
    pub fn h(&self) -> Option<Num>
        ensures { result ≡ self.now.h }
    {
        self.at(Letter::H)
    }

    /// The value of I.
    #[inline]
    pub fn i(&self) -> Option<Num>
        ensures { result ≡ self.now.i }
    {
        self.at(Letter::I)
    }

    /// The value of J.
    #[inline]
    pub fn j(&self) -> Option<Num>
        ensures { result ≡ self.now.j }
    {
        self.at(Letter::J)
    }

    /// The value of K.
    #[inline]
    pub fn k(&self) -> Option<Num>
        ensures { result ≡ self.now.k }
    {
        self.at(Letter::K)
    }

    /// The value of L.
    #[inline]
    pub fn l(&self) -> Option<Num>
        ensures { result ≡ self.now.l }
    {
        self.at(Letter::L)
    }

    /// The value of P.
    #[inline]
    pub fn p(&self) -> Option<Num>
        ensures { result ≡ self.now.p }
    {
        self.at(Letter::P)
    }

    /// The value of Q.
    #[inline]
    pub fn q(&self) -> Option<Num>
        ensures { result ≡ self.now.q }
    {
        self.at(Letter::Q)
    }

    /// The value of R.
    #[inline]
    pub fn r(&self) -> Option<Num>
        ensures { result ≡ self.now.r }
    {
        self.at(Letter::R)
    }

    /// The value of S.
    #[inline]
    pub fn s(&self) -> Option<Num>
        ensures { result ≡ self.now.s }
    {
        self.at(Letter::S)
    }

    /// The value of T.
    #[inline]
    pub fn t(&self) -> Option<Num>
        ensures { result ≡ self.now.t }
    {
        self.at(Letter::T)
    }

    /// The value of X.
    #[inline]
    pub fn x(&self) -> Option<Num>
        ensures { result ≡ self.now.x }
    {
        self.at(Letter::X)
    }

    /// The value of Y.
    #[inline]
    pub fn y(&self) -> Option<Num>
        ensures { result ≡ self.now.y }
    {
        self.at(Letter::Y)
    }

    /// The value of Z.
    #[inline]
    pub fn z(&self) -> Option<Num>
        ensures { result ≡ self.now.z }
    {
        self.at(Letter::Z)
    }
}
