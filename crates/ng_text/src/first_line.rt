//! The kind of a text's first line that isn't blank, found byte by byte.
ghost use Rattle.std.specs.Prelude.{◌≡◌, ◌≢◌, [], ◌∷◌, ◌++◌, MatchOption};
ghost use Rattle.ng_words.specs.Plain.{is_blank};
ghost use Rattle.ng_text.specs.declared.first_line.FirstLine.TheVariants.{Other};
ghost use Rattle.ng_text.specs.FirstLine.{kind_in, shortest, DecidesFirstLine, IsDecided};

use ng_words::LineKind;

/// What the beginning of a text says about its first line that isn't blank (own).
#[derive(Clone, Copy)]
pub enum FirstLine {
    /// All lines are blank so far.
    Unseen,
    /// All lines are blank so far, except for a carriage return that may end the line.
    Return,
    /// The line is a percent sign alone so far.
    Sign,
    /// The line is a percent sign alone so far, except for a carriage return that may end the line.
    SignReturn,
    /// The line is a percent sign alone.
    Percent,
    /// The line is another one.
    Other,
}

/// Whether a byte is a blank or a tab.
fn is_blank(byte: u8) -> bool
    ensures { result ≡ is_blank byte }
{
    byte == b' ' || byte == b'\t'
}

impl FirstLine {
    /// After a byte on a line that is blank so far.
    #[tactic(auto, using(crate::proofs::FirstLineLemmas::decided_newline, crate::proofs::FirstLineLemmas::decided_return, crate::proofs::FirstLineLemmas::decided_sign, crate::proofs::FirstLineLemmas::decided_blank, crate::proofs::FirstLineLemmas::decided_other))]
    fn on_blank(byte: u8) -> FirstLine
        ensures { DecidesFirstLine (byte ∷ []) result }
    {
        if byte == b'\n' {
            FirstLine::Unseen
        } else if byte == b'\r' {
            FirstLine::Return
        } else if byte == b'%' {
            FirstLine::Sign
        } else if is_blank(byte) {
            FirstLine::Unseen
        } else {
            FirstLine::Other
        }
    }

    /// After a byte on a line that is a percent sign alone so far.
    #[tactic(auto, using(crate::proofs::FirstLineLemmas::sign_decided_newline, crate::proofs::FirstLineLemmas::sign_decided_return, crate::proofs::FirstLineLemmas::sign_decided_blank, crate::proofs::FirstLineLemmas::sign_decided_other))]
    fn on_sign(byte: u8) -> FirstLine
        ensures { DecidesFirstLine (37 ∷ (byte ∷ [])) result }
    {
        if byte == b'\n' {
            FirstLine::Percent
        } else if byte == b'\r' {
            FirstLine::SignReturn
        } else if is_blank(byte) {
            FirstLine::Sign
        } else {
            FirstLine::Other
        }
    }

    /// After the byte that follows a carriage return: `ended` if that byte ends the line, otherwise the line is another
    /// one.
    fn on_return(byte: u8, ended: FirstLine) -> FirstLine
        ensures ended { byte ≡ 10 → result ≡ ended }
        ensures other { byte ≢ 10 → result ≡ Other }
    {
        if byte == b'\n' {
            ended
        } else {
            FirstLine::Other
        }
    }

    /// After one more byte.
    #[tactic(auto, using(crate::proofs::FirstLineLemmas::return_decided, crate::proofs::FirstLineLemmas::sign_return_decided, crate::proofs::FirstLineLemmas::percent_decided, crate::proofs::FirstLineLemmas::other_decided))]
    fn after(self, byte: u8) -> FirstLine
        ensures { DecidesFirstLine (shortest self ++ byte ∷ []) result }
    {
        match self {
            FirstLine::Unseen => FirstLine::on_blank(byte),
            FirstLine::Return => FirstLine::on_return(byte, FirstLine::Unseen),
            FirstLine::Sign => FirstLine::on_sign(byte),
            FirstLine::SignReturn => FirstLine::on_return(byte, FirstLine::Percent),
            FirstLine::Percent => FirstLine::Percent,
            FirstLine::Other => FirstLine::Other,
        }
    }

    /// After some more bytes.
    pub fn after_all(self, bytes: &[u8]) -> FirstLine
        ensures { DecidesFirstLine (shortest self ++ bytes.now) result }
    {
        let mut seen = self;
        for byte in bytes {
            seen = seen.after(*byte);
        }
        seen
    }

    /// The kind, if nothing follows.
    pub fn kind(self) -> LineKind
        ensures { result ≡ kind_in (shortest self) }
    {
        match self {
            FirstLine::Unseen => LineKind::Blank,
            FirstLine::Sign | FirstLine::Percent => LineKind::Percent,
            FirstLine::Return | FirstLine::SignReturn | FirstLine::Other => LineKind::Other,
        }
    }

    /// The kind, exactly if it is the same whatever follows.
    #[tactic(auto, using(crate::proofs::FirstLineLemmas::sign_newline, crate::proofs::FirstLineLemmas::known_other, crate::proofs::FirstLineLemmas::undecided))]
    pub fn known(self) -> Option<LineKind>
        ensures { MatchOption result ((kind : LineKind) → IsDecided (shortest self) kind → ⊥) (IsDecided (shortest self)) }
    {
        match self {
            FirstLine::Percent => Some(LineKind::Percent),
            FirstLine::Other => Some(LineKind::Other),
            FirstLine::Unseen | FirstLine::Return | FirstLine::Sign | FirstLine::SignReturn => None,
        }
    }
}
