//! Writing bytes, and text that waits before it is written (own).
//!
//! `write_out` writes all bytes that it is given, or tells the writer's error once a beginning of them is written.
//! `flush` and `relieve` write text that was gathered before, so that a writer isn't called for every line. What was
//! written or still waits then is said by `specs/Writing.antt` and `specs/Waiting.antt`, for every writer that tells
//! what it holds. Nothing here allocates, and nothing flushes the writer itself.
//!
//! The crates above decide what is written, how much waits, and which fault of theirs stands for the writer's error.
#![tactic(auto)]

mod waiting;
mod writing;

pub use waiting::{flush, relieve};
pub use writing::write_out;
