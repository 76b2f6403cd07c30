//! The parts of the console's dialogue: what it is asked, line by line, and how its replies are written (own).
//!
//! `next_order` reads lines, and the programs after `load`, from any reader, in buffers of fixed size; specs/Hearing
//! says what a text asks. The `tell_` functions write the line of a reply and flush it, since an operator waits for it.
//! After a fault a beginning of the line is written. Nothing here knows a controller.
#![tactic(auto)]

mod bytes;
mod hearing;
mod input;
mod listening;
mod order;
mod telling;

pub use hearing::{InputError, next_order};
pub use input::Input;
pub use order::Order;
pub use telling::{OutputError, tell_refusal, tell_reply, tell_tick, tell_ticks};
