//! A session: what a controller keeps between two events, and what each event leads to.
//!
//! `step` in `specs/Step.antt` defines for each event the reply, what is handed out and committed, and the session
//! after it. `specs/Fold.antt` defines what the plain interpreter makes of what was committed. `Session` has a method
//! for each operation of which an event consists, and its contract says that it does what the definition says. The
//! crate names no device. What is to be written is returned to the caller, and the session changes after that is
//! written. Items go the other way: `next_item` takes one from the session, and then the caller hands it out.
#![tactic(auto)]

mod activity;
mod answering;
mod beginning;
mod current_block;
mod event;
mod half_done;
mod known_lines;
pub mod laws;
mod loading;
mod planned;
mod planning;
mod reply;
mod session;
mod stage;
mod ticking;
mod tooling;

pub use activity::Activity;
pub use event::{Event, Text};
pub use known_lines::KnownLines;
pub use reply::{Condition, HalfShown, Reply, Status};
pub use session::Session;
pub use stage::Approach;
