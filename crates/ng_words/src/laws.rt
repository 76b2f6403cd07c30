//! Laws for proofs in the crates above to cite. A call does nothing; its contract is the law.
ghost use Rattle.std.specs.Prelude.{◌≡◌, ◌≤◌, ◌<◌, ◌↔◌, ℕ, List, length, Ok, Err};
ghost use Rattle.ng_num.specs.declared.fault.Fault.TheVariants.{LineTooLong, Unreadable};
ghost use Rattle.ng_words.specs.Grammar.{ParsedLine, IsLineOf, longest};
ghost use Rattle.ng_words.specs.Reading.{read};

/// Reading agrees with the grammar (NISTIR 6556, 3.3; the faults own). A text is read as the line that the grammar says
/// it is. No text is two lines. A text that is too long is refused, and a text that isn't a line is refused as
/// unreadable.
pub fn lines()
    ensures reads { (text : List ℕ) (line : ParsedLine) → (read text ≡ Ok line) ↔ IsLineOf text line }
    ensures one { (text : List ℕ) (line other : ParsedLine) → IsLineOf text line → IsLineOf text other → line ≡ other }
    ensures too_long { (text : List ℕ) → (read text ≡ Err LineTooLong) ↔ (longest < length text) }
    ensures unreadable { (text : List ℕ) → (read text ≡ Err Unreadable)
        ↔ ((length text ≤ longest) × ((line : ParsedLine) → IsLineOf text line → ⊥)) }
{}
