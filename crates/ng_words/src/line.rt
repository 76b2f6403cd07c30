//! A line of a program, read into its pieces.
ghost use Rattle.std.specs.Prelude.{◌≡◌, ◌<◌, ◌≤◌, ◌↔◌, ◌⊎◌, [], false, length, None, Ok, Err, MatchResult, MatchOption, OnOk, OnErr, IfOk, IfErr, IfSome, IsErrOf};
ghost use Rattle.ng_words.specs.Grammar.{ParsedLine, IsLineOf, is_too_long};
ghost use Rattle.ng_words.specs.Reading.{read};
ghost use Rattle.ng_words.specs.LineStorage.{pieces_by, written_by};
ghost use Rattle.ng_words.specs.Line.{last_comment};

use crate::comments::{BYTES, Comments};
use crate::cursor::Cursor;
use crate::piece_entry::PieceEntry;
use crate::pieces::Pieces;
use crate::reading::read_pieces;
use crate::start::{Head, block_number, slash};
use crate::tree::{NODES, Node};
use crate::value::WaitingList;
use arrayvec::ArrayVec;
use ng_num::Fault;
use std::marker::Model;

/// The most pieces that a line can have: each takes at least two bytes, and a line has at most 256.
pub const PIECES: usize = 128;

/// A line that was read (NISTIR 6556, 3.3): whether it begins with a slash, its block number, its pieces.
///
/// It keeps them in storage of its own, of fixed size, which is reused for one line after another.
#[derive(Drop)]
pub struct Line {
    head: Head,
    items: ArrayVec<PieceEntry, PIECES>,
    /// The nodes of all values, in order.
    nodes: ArrayVec<Node, NODES>,
    comments: Comments,
    /// What waits while a value is read; empty between lines.
    stack: WaitingList,
}

impl Model for Line {
    ghost use Rattle.std.specs.Prelude.{◌≡◌};
    ghost use Rattle.ng_words.specs.LineStorage.{LineModel, AreEncodedPieces};
    ghost use Rattle.ng_words.specs.Private.Items.{last_size};

    ghost Value = { LineModel };

    ghost view = { λ l. record {
      deletable = l.head.deletable;
      number = l.head.number;
      places = record { items = l.items.items; nodes = l.nodes.items; bytes = l.comments.bytes.items };
    } };

    ghost invariant = { λ l. AreEncodedPieces (record {
      items = l.items.items;
      nodes = l.nodes.items;
      bytes = l.comments.bytes.items;
    }) × (l.comments.last ≡ last_size l.items.items) };
}

impl Line {
    ghost use Rattle.ng_words.specs.Line.{blank};

    /// A line with nothing on it.
    pub fn new() -> Line
        ensures { written_by result ≡ blank }
    {
        Line {
            head: Head::none(),
            items: ArrayVec::new(),
            nodes: ArrayVec::new(),
            comments: Comments::new(),
            stack: ArrayVec::new(),
        }
    }

    /// Reads a line, without its line end, and stores it here.
    ///
    /// E2 if the text has over 256 bytes, else E1 if it isn't in the grammar. After an error this line is empty.
    /// Source: NISTIR 6556, 3.3; the faults are own.
    pub fn read(&mut self, text: &[u8]) -> Result<(), Fault>
        ensures value { MatchResult result (λ _. read text.now ≡ Ok (written_by self.new)) (λ e. read text.now ≡ Err e) }
        ensures reads { OnOk result (IsLineOf text.now (written_by self.new)) }
        ensures only { OnOk result ((line : ParsedLine) → IsLineOf text.now line → line ≡ written_by self.new) }
        ensures none { OnErr result ((line : ParsedLine) → IsLineOf text.now line → ⊥) }
        ensures too_long { IsErrOf result Fault.LineTooLong ↔ (256 < length text.now) }
        ensures errors { IfErr result (λ e. (e ≡ Fault.LineTooLong) ⊎ (e ≡ Fault.Unreadable)) }
        ensures cleared { OnErr result (written_by self.new ≡ blank) }
    {
        self.head = Head::none();
        self.items.clear();
        self.nodes.clear();
        self.comments.clear();
        if is_too_long(text) {
            return Err(Fault::LineTooLong);
        }
        let mut cursor = Cursor::new(text);
        let deletable = slash(&mut cursor);
        let number = match block_number(&mut cursor) {
            Some(number) => number,
            None => return Err(Fault::Unreadable),
        };
        if !read_pieces(
            &mut cursor,
            &mut self.items,
            &mut self.nodes,
            &mut self.comments,
            &mut self.stack,
        ) {
            return Err(Fault::Unreadable);
        }
        self.head = Head { deletable, number };
        Ok(())
    }

    /// Whether it begins with the slash of block delete.
    pub fn is_deletable(&self) -> bool
        ensures { result ≡ self.now.deletable }
    {
        self.head.deletable
    }

    /// Its block number, at most 99,999, if it has one.
    pub fn number(&self) -> Option<u32>
        ensures { result ≡ self.now.number }
    {
        self.head.number
    }

    /// Its pieces, from the first one.
    pub fn pieces(&self) -> Pieces<'_>
        ensures places { result ≡ self.now.places }
        ensures few { length (pieces_by result) ≤ 128 }
    {
        Pieces {
            items: self.items.as_slice(),
            nodes: self.nodes.as_slice(),
            bytes: self.comments.bytes.as_slice(),
        }
    }

    /// The bytes between the parentheses of its last comment, the only one that counts (NISTIR 6556, 3.3.4).
    pub fn last_comment(&self) -> Option<&[u8]>
        ensures few { IfSome result (λ text. length text.now ≤ 256) }
        ensures text { MatchOption result (last_comment (pieces_by self.now.places) ≡ None)
            (λ text. last_comment (pieces_by self.now.places) ≡ Some text.now) }
    {
        match self.comments.last {
            Some(n) => {
                let bytes = &self.comments.bytes;
                Some(&bytes.as_slice()[bytes.len() - n as usize..])
            }
            None => None,
        }
    }
}

/// Whether a text has more bytes than a line may have, 256 without its line end (own): the cause of E2.
pub fn is_too_long(text: &[u8]) -> bool
    ensures { result ≡ is_too_long text.now }
{
    text.len() > BYTES
}

/// Reads a line, without its line end, into a new `Line`: for callers of this crate alone. The programs keep a `Line`.
///
/// E2 if the text has over 256 bytes, else E1 if it isn't in the grammar. Source: NISTIR 6556, 3.3; the faults are own.
pub fn read_line(text: &[u8]) -> Result<Line, Fault>
    ensures value { MatchResult result (λ line. read text.now ≡ Ok (written_by line)) (λ e. read text.now ≡ Err e) }
    ensures reads { IfOk result (λ line. IsLineOf text.now (written_by line)) }
    ensures only { IfOk result (λ line. (other : ParsedLine) → IsLineOf text.now other → other ≡ written_by line) }
    ensures none { OnErr result ((line : ParsedLine) → IsLineOf text.now line → ⊥) }
    ensures too_long { IsErrOf result Fault.LineTooLong ↔ (256 < length text.now) }
    ensures errors { IfErr result (λ e. (e ≡ Fault.LineTooLong) ⊎ (e ≡ Fault.Unreadable)) }
{
    let mut line = Line::new();
    match line.read(text) {
        Ok(()) => Ok(line),
        Err(fault) => Err(fault),
    }
}
