//! Messages: comments that are shown to the operator.
ghost use Rattle.std.specs.Prelude.{◌≡◌, ◌≤◌, length, Some, None, MatchOption, IfSome};
ghost use Rattle.ng_words.specs.Comment.{past, message_of};

use crate::cursor::{capital, is_blank};

/// The bytes after a capital letter, if it comes next, in either case. Blanks before it don't count.
fn past(expected: u8, bytes: &[u8]) -> Option<&[u8]>
    ensures shorter { IfSome result (λ rest. length rest.now ≤ length bytes.now) }
    ensures value { MatchOption result (past expected bytes.now ≡ None) (λ rest. past expected bytes.now ≡ Some rest.now) }
{
    let mut rest = bytes;
    while let Some((first, others)) = rest.split_first() {
        if !is_blank(*first) {
            return if capital(*first) == expected {
                Some(others)
            } else {
                None
            };
        }
        rest = others;
    }
    None
}

/// The message of a comment, given the bytes between its parentheses. It is the bytes after `MSG,`, if the comment
/// begins with these four characters, in either case, with any blanks and tabs before and between them. Source: NISTIR
/// 6556, 3.3.4.
pub fn message(comment: &[u8]) -> Option<&[u8]>
    ensures shorter { IfSome result (λ text. length text.now ≤ length comment.now) }
    ensures text { MatchOption result (message_of comment.now ≡ None) (λ text. message_of comment.now ≡ Some text.now) }
{
    past(b',', past(b'G', past(b'S', past(b'M', comment)?)?)?)
}
