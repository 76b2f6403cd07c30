//! Lines of a program: the grammar of a line, and its words.
//!
//! A line is read in one pass into storage that its caller keeps, so reading doesn't allocate. What is accepted is
//! exactly the grammar of `specs/Grammar.antt`, which covers the whole language. A value is stored as the list of its
//! tree's nodes, each after its parts. A number is rounded by `ng_num`'s rule. What words mean is left to the crates
//! above.
#![tactic(auto)]

mod comment;
mod comments;
mod cursor;
mod digits;
pub mod laws;
mod letter;
mod line;
mod number;
mod piece_entry;
mod pieces;
mod plain_number;
mod reading;
mod start;
mod tree;
mod value;

pub use comment::message;
pub use letter::Letter;
pub use line::{Line, PIECES, is_too_long, read_line};
pub use number::read_number;
pub use pieces::{PieceRef, Pieces};
pub use start::{LineKind, is_deletable, kind_of};
pub use tree::{Function, NODES, Node, Operation, Tree};
