//! The words that a canned cycle keeps.
ghost use Rattle.std.specs.Prelude.{◌≡◌};

use ng_num::{Len, Num};

/// The words that a cycle keeps from line to line, as lengths and times (NISTIR 6556, 3.5.16).
#[derive(Clone, Copy, Debug, PartialEq, Eq)]
pub struct KeptWords {
    pub r: Option<Len>,
    pub z: Option<Len>,
    /// Seconds.
    pub p: Option<Num>,
    pub q: Option<Len>,
}

impl KeptWords {
    ghost use Rattle.ng_state.specs.KeptWords.{no_words, in_force};

    /// No words.
    pub fn none() -> KeptWords
        ensures { result ≡ no_words }
    {
        KeptWords {
            r: None,
            z: None,
            p: None,
            q: None,
        }
    }

    /// The words in force when these are a line's own: each word of the line or, if the line doesn't have it, the kept
    /// one. A cycle's line keeps the result (NISTIR 6556, 3.5.16).
    pub fn over(&self, kept: &KeptWords) -> KeptWords
        ensures { result ≡ in_force self.now kept.now }
    {
        KeptWords {
            r: self.r.or(kept.r),
            z: self.z.or(kept.z),
            p: self.p.or(kept.p),
            q: self.q.or(kept.q),
        }
    }
}
