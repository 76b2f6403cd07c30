//! Reading the pieces of a line, one by one, into the places that keep them.
ghost use Rattle.std.specs.Prelude.{◌≡◌, ◌+◌, ◌*◌, ◌<◌, ◌≤◌, [], ◌∷◌, ◌++◌, length, drop, IsTrue, None, MatchBool, OnSome};
ghost use Rattle.ng_words.specs.Plain.{StartsWithByte};
ghost use Rattle.ng_words.specs.Value.{value_at};
ghost use Rattle.ng_words.specs.Pieces.{comment_at};
ghost use Rattle.ng_words.specs.Private.Items.{last_size};
ghost use Rattle.ng_words.specs.Private.Walks.{store_of, AddsWord, assignment_at, AddsAssignment, AddsComment, TakesPiece, TakesPieces};

use crate::comments::Comments;
use crate::cursor::Cursor;
use crate::letter::{Letter, letter_of};
use crate::line::PIECES;
use crate::number::number;
use crate::piece_entry::PieceEntry;
use crate::tree::Node;
use crate::value::{Nodes, WaitingList, begins_number, value, walk};
use arrayvec::ArrayVec;

/// The items of a line.
pub(crate) type Items = ArrayVec<PieceEntry, PIECES>;

/// Adds an item. (The arms for words are separate for the prover's sake.)
#[inline]
fn push_item(items: &mut Items, item: PieceEntry)
    requires { length items.old.items < 128 }
    ensures { items.new.items ≡ items.old.items ++ item ∷ [] }
{
    match item {
        PieceEntry::Number(letter, Node::Number(value)) => {
            items.push(PieceEntry::Number(letter, Node::Number(value)))
        }
        PieceEntry::Word(letter, n) => items.push(PieceEntry::Word(letter, n)),
        other => items.push(other),
    }
}

/// Takes a word's value, without its letter.
#[inline]
fn word(
    letter: Letter,
    cursor: &mut Cursor<'_>,
    items: &mut Items,
    nodes: &mut Nodes,
    stack: &mut WaitingList,
) -> bool
    requires few { length items.old.items < 128 }
    requires fits { length nodes.old.items + length cursor.old ≤ 256 }
    ensures word { MatchBool result
        (AddsWord letter cursor.old cursor.new items.old.items items.new.items nodes.old.items nodes.new.items)
        (value_at cursor.old ≡ None) }
    ensures fits { IsTrue result → length nodes.new.items + length cursor.new ≤ length nodes.old.items + length cursor.old }
{
    if begins_number(cursor) {
        return match number(cursor) {
            Some(value) => {
                items.push(PieceEntry::Number(letter, Node::Number(value)));
                true
            }
            None => false,
        };
    }
    match walk(cursor, stack, nodes) {
        Some(n) => {
            items.push(PieceEntry::Word(letter, n));
            true
        }
        None => false,
    }
}

/// Takes an assignment's index, its equals sign and its value, without the parameter sign.
fn assignment(
    cursor: &mut Cursor<'_>,
    items: &mut Items,
    nodes: &mut Nodes,
    stack: &mut WaitingList,
) -> bool
    requires few { length items.old.items < 128 }
    requires fits { length nodes.old.items + length cursor.old ≤ 256 }
    ensures assignment { MatchBool result
        (AddsAssignment cursor.old cursor.new items.old.items items.new.items nodes.old.items nodes.new.items)
        (assignment_at cursor.old ≡ None) }
    ensures fits { IsTrue result → length nodes.new.items + length cursor.new ≤ length nodes.old.items + length cursor.old }
{
    let index = match value(cursor, stack, nodes) {
        Some(index) => index,
        None => return false,
    };
    if !cursor.skip(b"=") {
        return false;
    }
    match value(cursor, stack, nodes) {
        Some(n) => {
            push_item(items, PieceEntry::Assignment(index, n));
            true
        }
        None => false,
    }
}

/// Takes a comment, whose opening parenthesis comes next.
fn comment(cursor: &mut Cursor<'_>, items: &mut Items, comments: &mut Comments) -> bool
    requires begins { StartsWithByte cursor.old 40 }
    requires few { length items.old.items < 128 }
    requires fits { length comments.old.bytes.items + length cursor.old ≤ 256 }
    ensures comment { MatchBool result
        (AddsComment cursor.old cursor.new items.old.items items.new.items comments.old.bytes.items comments.new.bytes.items)
        (comment_at (drop 1 cursor.old) ≡ None) }
    ensures fits { IsTrue result → length comments.new.bytes.items + length cursor.new
        ≤ length comments.old.bytes.items + length cursor.old }
    ensures last { IsTrue result → comments.new.last ≡ last_size items.new.items }
{
    match cursor.comment() {
        Some(text) => {
            comments.bytes.try_extend_from_slice(text).unwrap();
            let size = text.len() as u16;
            comments.last = Some(size);
            push_item(items, PieceEntry::Comment(size));
            true
        }
        None => false,
    }
}

/// Takes the piece that comes next: a comment, an assignment or a word.
fn piece(
    cursor: &mut Cursor<'_>,
    items: &mut Items,
    nodes: &mut Nodes,
    comments: &mut Comments,
    stack: &mut WaitingList,
) -> bool
    requires few { length items.old.items < 128 }
    requires nodes_fit { length nodes.old.items + length cursor.old ≤ 256 }
    requires bytes_fit { length comments.old.bytes.items + length cursor.old ≤ 256 }
    requires last { comments.old.last ≡ last_size items.old.items }
    ensures piece { TakesPiece cursor.old result cursor.new
        (store_of items.old.items nodes.old.items comments.old.bytes.items)
        (store_of items.new.items nodes.new.items comments.new.bytes.items) }
    ensures nodes_fit { IsTrue result → length nodes.new.items + length cursor.new ≤ 256 }
    ensures bytes_fit { IsTrue result → length comments.new.bytes.items + length cursor.new ≤ 256 }
    ensures last { IsTrue result → comments.new.last ≡ last_size items.new.items }
{
    let Some(byte) = cursor.first() else {
        return false;
    };
    match letter_of(byte) {
        Some(letter) => {
            cursor.advance();
            word(letter, cursor, items, nodes, stack)
        }
        None => match byte {
            b'(' => comment(cursor, items, comments),
            b'#' => {
                cursor.advance();
                assignment(cursor, items, nodes, stack)
            }
            _ => false,
        },
    }
}

/// Takes all pieces up to the end of the line. Returns whether the text was made of pieces.
fn take_pieces(
    cursor: &mut Cursor<'_>,
    items: &mut Items,
    nodes: &mut Nodes,
    comments: &mut Comments,
    stack: &mut WaitingList,
) -> bool
    requires no_items { items.old.items ≡ [] }
    requires no_nodes { nodes.old.items ≡ [] }
    requires no_bytes { comments.old.bytes.items ≡ [] }
    requires no_comment { comments.old.last ≡ None }
    requires short { length cursor.old ≤ 256 }
    ensures pieces { TakesPieces cursor.old result (store_of items.new.items nodes.new.items comments.new.bytes.items) }
    ensures last { IsTrue result → comments.new.last ≡ last_size items.new.items }
{
    while !cursor.is_empty() {
        if !piece(cursor, items, nodes, comments, stack) {
            return false;
        }
    }
    true
}

/// Takes all pieces up to the end of the line, into places that are empty. Returns whether the text was made of pieces.
/// If it wasn't, the places are empty again.
pub(crate) fn read_pieces(
    cursor: &mut Cursor<'_>,
    items: &mut Items,
    nodes: &mut Nodes,
    comments: &mut Comments,
    stack: &mut WaitingList,
) -> bool
    requires no_items { items.old.items ≡ [] }
    requires no_nodes { nodes.old.items ≡ [] }
    requires no_bytes { comments.old.bytes.items ≡ [] }
    requires no_comment { comments.old.last ≡ None }
    requires short { length cursor.old ≤ 256 }
    ensures pieces { TakesPieces cursor.old result (store_of items.new.items nodes.new.items comments.new.bytes.items) }
    ensures last { comments.new.last ≡ last_size items.new.items }
    ensures cleared { MatchBool result (Unit {0}) ((items.new.items ≡ []) × (nodes.new.items ≡ []) × (comments.new.bytes.items ≡ [])) }
{
    if take_pieces(cursor, items, nodes, comments, stack) {
        return true;
    }
    items.clear();
    nodes.clear();
    comments.clear();
    false
}
