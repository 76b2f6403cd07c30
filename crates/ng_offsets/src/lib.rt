//! The difference between program and machine coordinates: origin, G92 offset and tool length.
//!
//! `Offsets` holds the three in force. `to_machine` and `to_program` convert points between program and machine
//! coordinates, and undo each other. Each word that changes an offset has a method. It returns the offsets after the
//! word, what is printed of them, and the changes of the parameters that store them. The machine's point isn't among
//! them, so nothing moves. `Tools` is the tool table, and `Named` holds the axes that a line names. Lengths are in
//! nanometres, and parameters in millimetres, whatever unit a line is written in.
//!
//! The only fault is E3, for a computed length or offset. Of a sum only the result is checked. Nothing here allocates.
//! The crate depends on `ng_params` for the parameters that have a meaning. The crates above decide which words a line
//! may have, and in what order they act.
#![tactic(auto)]

mod named;
mod new_offsets;
mod offsets;
mod origins;
mod shift;
mod tools;

pub use named::Named;
pub use new_offsets::NewOffsets;
pub use offsets::Offsets;
pub use shift::Shift;
pub use tools::{SLOTS, SlotChange, Tools};
