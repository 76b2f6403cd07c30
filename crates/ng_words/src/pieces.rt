//! The pieces of a line, one by one.
ghost use Rattle.std.specs.Prelude.{◌≡◌, ◌≤◌, [], ◌∷◌, length, take, drop, MatchOption};
ghost use Rattle.ng_words.specs.LineStorage.{pieces_by, IsTree};
ghost use Rattle.ng_words.specs.Line.{piece_of};

use crate::letter::Letter;
use crate::piece_entry::PieceEntry;
use crate::tree::{Node, Tree};
use std::marker::Model;
use std::slice;

/// A piece of a line (NISTIR 6556, 3.3).
#[derive(Drop)]
pub enum PieceRef<'a> {
    /// A word: its letter and its value.
    Word(Letter, Tree<'a>),
    /// An assignment, a "parameter setting" in the report: the parameter's index and its new value.
    Assignment(Tree<'a>, Tree<'a>),
    /// A comment: the bytes between its parentheses.
    Comment(&'a [u8]),
}

/// The pieces of a line that are left.
#[derive(Drop)]
pub struct Pieces<'a> {
    pub(crate) items: &'a [PieceEntry],
    pub(crate) nodes: &'a [Node],
    pub(crate) bytes: &'a [u8],
}

impl<'a> Model for Pieces<'a> {
    ghost use Rattle.std.specs.Prelude.{length, ◌≤◌};
    ghost use Rattle.ng_words.specs.LineStorage.{PieceStore, AreEncodedPieces};

    ghost Value = { PieceStore };

    ghost view = { λ p. record { items = p.items.now; nodes = p.nodes.now; bytes = p.bytes.now } };

    ghost invariant = { λ p. AreEncodedPieces (record {
      items = p.items.now;
      nodes = p.nodes.now;
      bytes = p.bytes.now;
    }) × (length p.nodes.now ≤ 256) };
}

/// The tree that the first n nodes form, and the other nodes.
#[inline]
fn split_tree(nodes: &[Node], n: u16) -> (Tree<'_>, &[Node])
    requires within { n ≤ length nodes.now }
    requires tree { IsTree (take n nodes.now) }
    requires few { length nodes.now ≤ 256 }
    ensures tree { result.0 ≡ take n nodes.now }
    ensures rest { result.1.now ≡ drop n nodes.now }
{
    let (front, rest) = nodes.split_at(n as usize);
    (Tree { nodes: front }, rest)
}

impl<'a> Pieces<'a> {
    /// The next piece. `None` at the end.
    pub fn next(&mut self) -> Option<PieceRef<'a>>
        ensures { MatchOption result ((pieces_by self.old ≡ []) × (self.new ≡ self.old))
            (λ p. pieces_by self.old ≡ piece_of p ∷ pieces_by self.new) }
    {
        let (item, others) = self.items.split_first()?;
        match item {
            PieceEntry::Number(letter, node) => {
                self.items = others;
                let value = Tree {
                    nodes: slice::from_ref(node),
                };
                Some(PieceRef::Word(*letter, value))
            }
            PieceEntry::Word(letter, n) => {
                let (value, rest) = split_tree(self.nodes, *n);
                self.items = others;
                self.nodes = rest;
                Some(PieceRef::Word(*letter, value))
            }
            PieceEntry::Assignment(i, n) => {
                let (index, after) = split_tree(self.nodes, *i);
                let (value, rest) = split_tree(after, *n);
                self.items = others;
                self.nodes = rest;
                Some(PieceRef::Assignment(index, value))
            }
            PieceEntry::Comment(n) => {
                let (text, rest) = self.bytes.split_at(*n as usize);
                self.items = others;
                self.bytes = rest;
                Some(PieceRef::Comment(text))
            }
        }
    }
}
