//! What is known about the lines before a place of a program.
ghost use Rattle.std.specs.Prelude.{◌≡◌, ◌≤◌, ℕ, List, Some, None, IfSome, length, if◌then◌else◌, ◌==◌};
ghost use Rattle.ng_words.specs.Start.{kind_of};
ghost use Rattle.ng_text.specs.Percent.{first_kind, kind_before};
ghost use Rattle.ng_text.specs.Programs.{lines_before};
ghost use Rattle.ng_text.specs.declared.lines_before.LinesBefore.{LinesBefore};

use crate::percent::first_kind;
use ng_words::LineKind;

/// What is known about a program's lines before a place: that a line begins there, and perhaps the kind of the first of
/// them that isn't blank. It saves looking this up for each line (own).
#[derive(Clone, Copy)]
pub struct LinesBefore {
    /// A place in the program, as a number of bytes from its start.
    pub place: u64,
    /// The kind of the first line before it that isn't blank, if it is known.
    pub first: Option<LineKind>,
}

impl LinesBefore {
    ghost use Rattle.ng_text.specs.LinesBefore.{IsTrueOf, IsLineBetween};

    /// What is known about every program: there is no line before its start.
    #[tactic(auto, using(crate::proofs::LinesBeforeLemmas::none_true))]
    pub fn none() -> LinesBefore
        ensures value { result ≡ record { place = 0; first = Some LineKind.Blank } }
        ensures holds { (program : List ℕ) → IsTrueOf program result }
    {
        LinesBefore {
            place: 0,
            first: Some(LineKind::Blank),
        }
    }

    /// The kind of the first line before a place that isn't blank, if it is known.
    pub fn first_before(&self, place: u64) -> Option<LineKind>
        ensures value { result ≡ (if self.now.place == place then self.now.first else None) }
        ensures holds { (program : List ℕ) → IsTrueOf program self.now
            → IfSome result (λ kind. kind ≡ first_kind (lines_before program place)) }
    {
        if self.place == place {
            self.first
        } else {
            None
        }
    }

    /// What is known after the line at `place`. `first` is the kind of the first line before it that isn't blank, and
    /// the next line begins at `next`. The result knows a kind only if it was known that a line begins at `place`.
    pub fn after(&self, place: u64, first: LineKind, text: &[u8], next: u64) -> LinesBefore
        requires { length text.now ≤ 256 }
        ensures place { result.place ≡ next }
        ensures first { self.now.place ≡ place → result.first ≡ Some (kind_before first (kind_of text.now)) }
        ensures holds { (program : List ℕ) → IsTrueOf program self.now
            → IsLineBetween program place first text.now next → IsTrueOf program result }
    {
        let first = if self.place == place {
            Some(first_kind(first, text))
        } else {
            None
        };
        LinesBefore { place: next, first }
    }
}
