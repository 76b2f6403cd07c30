//! Percent programs: if the first line that isn't blank is a percent sign alone, the next such line ends the program
//! (NISTIR 6556, 3.3). So what a line does depends on the kind of the first line before it that isn't blank.
ghost use Rattle.std.specs.Prelude.{◌≡◌, ◌∷◌, ◌++◌, [], ℕ, List};
ghost use Rattle.ng_words.specs.Start.{kind_of};
ghost use Rattle.ng_text.specs.Percent.{first_kind, is_percent, kind_before, missing_end, percent_line_at, percent_line_by};

use ng_num::Fault;
use ng_words::{LineKind, is_too_long, kind_of};

/// What a percent line does.
#[derive(Clone, Copy, Debug, PartialEq, Eq)]
pub enum PercentLine {
    /// It begins the program.
    Opens,
    /// It ends the program.
    Closes,
}

/// Whether a line is a percent sign alone, and not too long.
fn is_percent(line: &[u8]) -> bool
    ensures { result ≡ is_percent line.now }
{
    if is_too_long(line) {
        return false;
    }
    match kind_of(line) {
        LineKind::Percent => true,
        LineKind::Blank | LineKind::Other => false,
    }
}

/// The kind of the first line that isn't blank, given the kind of the lines before and the next line.
#[inline]
fn kind_before(first: LineKind, line: &[u8]) -> LineKind
    ensures { result ≡ kind_before first (kind_of line.now) }
{
    match first {
        LineKind::Blank => kind_of(line),
        LineKind::Percent => LineKind::Percent,
        LineKind::Other => LineKind::Other,
    }
}

/// The kind of the first line that isn't blank, of some lines and the line after them; it is blank if all lines are.
/// `first` is the kind for the lines before; for the first line of a program it is blank.
#[inline]
pub fn first_kind(first: LineKind, line: &[u8]) -> LineKind
    ensures value { result ≡ kind_before first (kind_of line.now) }
    ensures program { (lines_before : List (List ℕ)) → first ≡ first_kind lines_before
        → result ≡ first_kind (lines_before ++ line.now ∷ []) }
{
    kind_before(first, line)
}

/// What a line does as a percent line. `None` if it isn't one. `first` is the kind of the first line before it that
/// isn't blank.
#[inline]
pub fn percent_line_at(first: LineKind, line: &[u8]) -> Option<PercentLine>
    ensures value { result ≡ percent_line_by first line.now }
    ensures program { (lines_before : List (List ℕ)) → first ≡ first_kind lines_before → result ≡ percent_line_at lines_before line.now }
{
    match first {
        LineKind::Other => None,
        LineKind::Blank => if is_percent(line) {
            Some(PercentLine::Opens)
        } else {
            None
        },
        LineKind::Percent => if is_percent(line) {
            Some(PercentLine::Closes)
        } else {
            None
        },
    }
}

/// The fault of a text that ends before the program does, given the kind of its first line that isn't blank: X4 if a
/// percent line is missing, else X3.
pub fn missing_end(first: LineKind) -> Fault
    ensures { result ≡ missing_end first }
{
    match first {
        LineKind::Percent => Fault::MissingPercent,
        LineKind::Blank | LineKind::Other => Fault::NoProgramEnd,
    }
}
