//! The values of a line: each expression evaluated, in order.
ghost use Rattle.std.specs.Prelude.{◌≡◌, ◌<◌, ◌≤◌, ◌+◌, length, Ok, Err, MatchResult, OnErr};
ghost use Rattle.ng_words.specs.Grammar.{assignment, word};
ghost use Rattle.ng_words.specs.LineStorage.{pieces_by, tree_by};
ghost use Rattle.ng_words.specs.Line.{piece_of};
ghost use Rattle.ng_expr.specs.Settle.{settled_pieces, settled_of};

use crate::assignment::change_on;
use crate::stack::Stack;
use crate::walk::value_on;
use crate::word::Word;
use arrayvec::ArrayVec;
use ng_num::Fault;
use ng_params::{Change, Params};
use ng_words::{Letter, Line, PIECES, PieceRef, Tree};
use std::alloc::Allocator;

/// The values of a line, in order. The storage is reused for one line after another.
#[derive(Drop)]
pub struct Values {
    /// The words.
    pub words: ArrayVec<Word, PIECES>,
    /// The parameters' new values. Of two for one parameter the last counts.
    pub assignments: ArrayVec<Change, PIECES>,
    stack: Stack,
}

impl Values {
    ghost use Rattle.ng_expr.specs.Settle.{followed_if_ok, given, nothing};

    /// No values yet.
    pub fn new() -> Values
        ensures { settled_of result ≡ nothing }
    {
        Values {
            words: ArrayVec::new(),
            assignments: ArrayVec::new(),
            stack: Stack::new(),
        }
    }

    /// Adds a word.
    #[inline]
    fn add_word<A: Allocator + Copy + Drop>(
        &mut self,
        params: &Params<A>,
        letter: Letter,
        tree: &Tree<'_>,
    ) -> Result<(), Fault>
        requires { length self.old.words.items < 128 }
        ensures found { MatchResult result
            (λ _. followed_if_ok (settled_of self.old) (given params.now (word letter (tree_by tree.now))) ≡ Ok
            (settled_of self.new))
            (λ e. given params.now (word letter (tree_by tree.now)) ≡ Err e) }
        ensures few { length self.new.words.items + length self.new.assignments.items
            ≤ length self.old.words.items + length self.old.assignments.items + 1 }
    {
        match value_on(&mut self.stack, params, tree) {
            Ok(value) => {
                self.words.push(Word { letter, value });
                Ok(())
            }
            Err(fault) => Err(fault),
        }
    }

    /// Adds an assignment.
    fn add_assignment<A: Allocator + Copy + Drop>(
        &mut self,
        params: &Params<A>,
        index: &Tree<'_>,
        value: &Tree<'_>,
    ) -> Result<(), Fault>
        requires { length self.old.assignments.items < 128 }
        ensures found { MatchResult result
            (λ _. followed_if_ok (settled_of self.old) (given params.now
            (assignment (tree_by index.now) (tree_by value.now))) ≡ Ok (settled_of self.new))
            (λ e. given params.now (assignment (tree_by index.now) (tree_by value.now)) ≡ Err e) }
        ensures few { length self.new.words.items + length self.new.assignments.items
            ≤ length self.old.words.items + length self.old.assignments.items + 1 }
    {
        match change_on(&mut self.stack, params, index, value) {
            Ok(change) => {
                self.assignments.push(change);
                Ok(())
            }
            Err(fault) => Err(fault),
        }
    }

    /// Adds the value of a piece.
    #[inline]
    fn add<A: Allocator + Copy + Drop>(
        &mut self,
        params: &Params<A>,
        piece: &PieceRef<'_>,
    ) -> Result<(), Fault>
        requires { length self.old.words.items + length self.old.assignments.items < 128 }
        ensures found { MatchResult result
            (λ _. followed_if_ok (settled_of self.old) (given params.now (piece_of piece.now)) ≡ Ok
            (settled_of self.new))
            (λ e. given params.now (piece_of piece.now) ≡ Err e) }
        ensures few { length self.new.words.items + length self.new.assignments.items
            ≤ length self.old.words.items + length self.old.assignments.items + 1 }
    {
        match piece {
            PieceRef::Word(letter, value) => self.add_word(params, *letter, value),
            PieceRef::Assignment(index, value) => self.add_assignment(params, index, value),
            PieceRef::Comment(_) => Ok(()),
        }
    }

    /// Removes all values.
    #[inline]
    fn clear(&mut self)
        ensures { settled_of self.new ≡ nothing }
    {
        self.words.clear();
        self.assignments.clear();
    }

    /// Evaluates a line, with the table as it is, and stores the values here. Fails with E3, E4 or E5 of the first
    /// piece that has no value; then there are no values here.
    pub fn evaluate_into<A: Allocator + Copy + Drop>(
        &mut self,
        line: &Line,
        params: &Params<A>,
    ) -> Result<(), Fault>
        ensures values { MatchResult result
            (λ _. settled_pieces (pieces_by line.now.places) params.now ≡ Ok (settled_of self.new))
            (λ e. settled_pieces (pieces_by line.now.places) params.now ≡ Err e) }
        ensures cleared { OnErr result (settled_of self.new ≡ nothing) }
    {
        self.clear();
        let mut pieces = line.pieces();
        while let Some(piece) = pieces.next() {
            match self.add(params, &piece) {
                Ok(()) => {}
                Err(fault) => {
                    self.clear();
                    return Err(fault);
                }
            }
        }
        Ok(())
    }
}

/// The values of a line: `Values::evaluate_into` into new storage, with the same faults. For callers of this crate
/// alone: the programs keep their `Values`.
pub fn evaluate<A: Allocator + Copy + Drop>(
    line: &Line,
    params: &Params<A>,
) -> Result<Values, Fault>
    ensures { MatchResult result
        (λ v. settled_pieces (pieces_by line.now.places) params.now ≡ Ok (settled_of v))
        (λ e. settled_pieces (pieces_by line.now.places) params.now ≡ Err e) }
{
    let mut values = Values::new();
    match values.evaluate_into(line, params) {
        Ok(()) => Ok(values),
        Err(fault) => Err(fault),
    }
}
