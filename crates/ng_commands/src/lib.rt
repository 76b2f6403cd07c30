//! The console's language: commands as lines, and replies as lines (own).
//!
//! `command_of` reads a line exactly if specs/Commands says that it is a command; `push_reply` appends exactly the line
//! that specs/Replies defines for a reply. Nothing here reads or writes a stream, and reading doesn't allocate.
#![tactic(auto)]

mod asked;
mod digits;
mod lengths;
mod reading;
mod replies;
mod words;

pub use asked::{ConsoleCommand, LONGEST};
pub use reading::command_of;
pub use replies::{continues_ticks, push_refusal, push_reply, push_tick, push_ticks};
