//! Where a line ends.
ghost use Rattle.std.specs.Prelude.{◌≡◌, ◌++◌, ◌∷◌, MatchOption};
ghost use Rattle.ng_text.specs.Split.{HasNoNewline};

use memchr::memchr;

/// The bytes before the first newline, and those after it. `None` if there is no newline (own).
pub fn split_line(bytes: &[u8]) -> Option<(&[u8], &[u8])>
    ensures { MatchOption result (HasNoNewline bytes.now) (λ x. HasNoNewline x.0.now × (bytes.now ≡ x.0.now ++ 10 ∷ x.1.now)) }
{
    match memchr(b'\n', bytes) {
        Some(end) => Some((&bytes[..end], &bytes[end + 1..])),
        None => None,
    }
}
