//! The letters of words.
ghost use Rattle.std.specs.Prelude.{◌≡◌};
ghost use Rattle.ng_words.specs.Plain.{capital};
ghost use Rattle.ng_words.specs.Scan.{letter_of};

/// The letter of a word (NISTIR 6556, 3.3.2, table 3). N begins a block number, so it isn't one of them.
#[derive(Clone, Copy, Debug, PartialEq, Eq)]
pub enum Letter {
    A,
    B,
    C,
    D,
    F,
    G,
    H,
    I,
    J,
    K,
    L,
    M,
    P,
    Q,
    R,
    S,
    T,
    X,
    Y,
    Z,
}

/// The letter of each byte from the capital A to the small z; there are six marks between the capitals and the small
/// letters.
static LETTERS: [Option<Letter>; 58] = [
    Some(Letter::A),
    Some(Letter::B),
    Some(Letter::C),
    Some(Letter::D),
    None,
    Some(Letter::F),
    Some(Letter::G),
    Some(Letter::H),
    Some(Letter::I),
    Some(Letter::J),
    Some(Letter::K),
    Some(Letter::L),
    Some(Letter::M),
    None,
    None,
    Some(Letter::P),
    Some(Letter::Q),
    Some(Letter::R),
    Some(Letter::S),
    Some(Letter::T),
    None,
    None,
    None,
    Some(Letter::X),
    Some(Letter::Y),
    Some(Letter::Z),
    None,
    None,
    None,
    None,
    None,
    None,
    Some(Letter::A),
    Some(Letter::B),
    Some(Letter::C),
    Some(Letter::D),
    None,
    Some(Letter::F),
    Some(Letter::G),
    Some(Letter::H),
    Some(Letter::I),
    Some(Letter::J),
    Some(Letter::K),
    Some(Letter::L),
    Some(Letter::M),
    None,
    None,
    Some(Letter::P),
    Some(Letter::Q),
    Some(Letter::R),
    Some(Letter::S),
    Some(Letter::T),
    None,
    None,
    None,
    Some(Letter::X),
    Some(Letter::Y),
    Some(Letter::Z),
];

/// The letter that a byte is, in either case. A table costs less than a match with an arm for each letter.
#[inline]
pub(crate) fn letter_of(byte: u8) -> Option<Letter>
    ensures { result ≡ letter_of (capital byte) }
{
    if byte < b'A' || b'z' < byte {
        return None;
    }
    LETTERS[(byte - b'A') as usize]
}
