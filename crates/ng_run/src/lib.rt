//! The console of a machine: it reads an operator's lines, passes them to a controller over a device, and writes the
//! answers.
//!
//! `console` powers on, gives the controller what a text asks line by line, and writes the line of each reply before it
//! reads on. specs/Talks says what is asked and answered, and specs/Consoles how a console ends. `ng_commands` and
//! `ng_dialogue` define what a line asks and the text of a reply; `ng_core` defines what events do to the controller
//! and to its device.
#![tactic(auto)]

mod answering;
mod ending;
mod opening;
mod talking;

pub use ending::{DONE, FAILED};
pub use opening::console;
