//! What the lines of a program's text say before any of them is read as words.
//!
//! `specs/Programs.antt` says which line begins at a place of a text, and which lines are before it.
//! `specs/Percent.antt` says what a percent sign alone on a line does (NISTIR 6556, 3.3); this depends on the first
//! line before it that isn't blank. There are three ways to find that line's kind. `first_kind` takes the lines one
//! after another. `FirstLine` takes the bytes of a text in parts, as they are read. `LinesBefore` keeps the kind at a
//! place together with the place of the next line, so that it isn't looked up again.
//!
//! The crates above decide where a text is stored, and what its other lines do.
#![tactic(auto)]

mod first_line;
mod lines_before;
mod percent;
mod split;

pub use first_line::FirstLine;
pub use lines_before::LinesBefore;
pub use percent::{PercentLine, first_kind, missing_end, percent_line_at};
pub use split::split_line;
