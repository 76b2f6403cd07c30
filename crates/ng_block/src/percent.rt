//! How a program goes on after a percent line, given the lines before it (NISTIR 6556, 3.3).
ghost use Rattle.std.specs.Prelude.{◌≡◌, ℕ, List};
ghost use Rattle.ng_text.specs.Percent.{first_kind};
ghost use Rattle.ng_block.specs.Program.{percent_at, percent_by};

use crate::effect::ProgramFlow;
use ng_text::{PercentLine, percent_line_at};
use ng_words::LineKind;

/// How the program goes on after a line that begins or ends a percent program. `None` for any other line. `first` is
/// the kind of the first line before it that isn't blank.
#[inline]
pub fn percent_at(first: LineKind, line: &[u8]) -> Option<ProgramFlow>
    ensures value { result ≡ percent_by first line.now }
    ensures program { (lines_before : List (List ℕ))
        → first ≡ first_kind lines_before → result ≡ percent_at lines_before line.now }
{
    match percent_line_at(first, line) {
        None => None,
        Some(PercentLine::Opens) => Some(ProgramFlow::GoesOn),
        Some(PercentLine::Closes) => Some(ProgramFlow::Ends),
    }
}
