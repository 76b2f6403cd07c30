//! A half-done block, as it is stored.
ghost use Rattle.std.specs.Prelude.{◌≡◌, ◌≤◌, length};
ghost use Rattle.ng_layout.specs.Limits.{longest_text};

use arrayvec::ArrayVec;
use ng_num::Point;
use std::marker::Model;

/// Where the line of a half-done block came from (own).
#[derive(Clone, Copy, Debug, PartialEq, Eq)]
pub enum Source {
    Program,
    Mdi,
}

/// What part of a half-done block is open: it may have been handed out in part (own).
#[derive(Clone, Copy)]
pub enum Opened {
    /// The segment with its index.
    Segment,
    /// The way back to the start of that segment.
    Approach,
}

/// The most bytes of a half-done block's text.
pub const LONGEST_TEXT: usize = 256;

/// The text of these bytes.
pub fn text_from(bytes: &[u8]) -> ArrayVec<u8, LONGEST_TEXT>
    requires { length bytes.now ≤ longest_text }
    ensures { result.items ≡ bytes.now }
{
    let mut text = ArrayVec::new();
    for byte in bytes {
        text.push(*byte);
    }
    text
}

/// A block that was begun and isn't finished (own). Contracts see a `HalfModel`.
#[derive(Drop)]
pub struct Half {
    /// The line of the block, without the line's end.
    pub text: ArrayVec<u8, LONGEST_TEXT>,
    pub source: Source,
    /// The segment that is open or comes next, counted from 0.
    pub index: u64,
    /// Where the machine is, in machine coordinates, if that is known.
    pub at: Option<Point>,
    pub opened: Option<Opened>,
}

impl Model for Half {
    ghost use Rattle.ng_layout.specs.Stored.{HalfModel};

    ghost Value = { HalfModel };

    ghost view = { λ h. record { text = h.text.items; source = h.source; index = h.index; at = h.at; opened = h.opened } };
}

impl Half {
    ghost use Rattle.std.specs.Prelude.{◌≡◌};

    /// A copy.
    pub fn copy(&self) -> Half
        ensures { result ≡ self.now }
    {
        Half {
            text: text_from(self.text.as_slice()),
            source: self.source,
            index: self.index,
            at: self.at,
            opened: self.opened,
        }
    }
}

/// A copy of the half-done block, if there is one.
pub(crate) fn copy_of(half: &Option<Half>) -> Option<Half>
    ensures { result ≡ half.now }
{
    match half {
        Some(half) => Some(half.copy()),
        None => None,
    }
}
