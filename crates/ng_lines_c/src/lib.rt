//! `ng_lines` for C (own): `ng_line_read` reads a line of OUT, and tells all that it says.
//!
//! A text is read exactly where `read_item` of `ng_lines` reads it (specs/Reading.antt). Nothing is required of C but
//! that the bytes are there, and room for the answer. Nothing is allocated.
#![tactic(auto)]

mod reading;

pub use reading::{OutLine, ng_line_read};
