//! The items of a line, one for each piece.
use crate::letter::Letter;
use crate::tree::Node;

/// What is stored for a piece of a line. Its nodes or bytes come after those of the pieces before it.
#[derive(Clone, Copy)]
pub(crate) enum PieceEntry {
    /// A word whose value is a number alone: its letter and the only node, which is in no list.
    Number(Letter, Node),
    /// Another word: its letter, and the number of nodes of its value.
    Word(Letter, u16),
    /// An assignment: the number of nodes of its index, and of its value.
    Assignment(u16, u16),
    /// A comment: the number of its bytes.
    Comment(u16),
}

impl Default for PieceEntry {
    fn default() -> Self {
        PieceEntry::Comment(0)
    }
}
