//! The comments of a line.
ghost use Rattle.std.specs.Prelude.{◌≡◌, [], None};

use arrayvec::ArrayVec;

/// The most bytes that a line can have.
pub(crate) const BYTES: usize = 256;

/// The comments of a line, without their parentheses.
#[derive(Drop)]
pub(crate) struct Comments {
    /// The bytes of all of them, in order.
    pub(crate) bytes: ArrayVec<u8, BYTES>,
    /// How many bytes the last one has, if there is one.
    pub(crate) last: Option<u16>,
}

impl Comments {
    /// No comments.
    pub(crate) fn new() -> Self
        ensures bytes { result.bytes.items ≡ [] }
        ensures last { result.last ≡ None }
    {
        Comments {
            bytes: ArrayVec::new(),
            last: None,
        }
    }

    /// Removes all comments.
    #[inline]
    pub(crate) fn clear(&mut self)
        ensures bytes { self.new.bytes.items ≡ [] }
        ensures last { self.new.last ≡ None }
    {
        self.bytes.clear();
        self.last = None;
    }
}
