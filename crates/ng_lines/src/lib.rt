//! The lines of OUT: what is handed out to a machine, one line for each item (own).
//!
//! `push_item` appends the line of an item, `push_numbered` one behind a number, and `read_item` reads one. Nearly all
//! lines are those of pulses: `take_pulse` reads one that a text begins with, and finds its end as it does.
//! specs/Lines.antt says which line is that of an item. A text is read exactly if it is such a line. So what is read
//! would be written the same, and `read_back` says that what is written is read as it was.
//!
//! The crate depends on `ng_canon` for the items, on `ng_num` for their numbers and on `itoa`. Reading doesn't
//! allocate.
#![tactic(auto)]

mod laws;
mod number;
mod pulses;
mod reading;
mod whole;
mod writing;

pub use laws::read_back;
pub use reading::{read_item, take_pulse};
pub use writing::{push_item, push_numbered};
