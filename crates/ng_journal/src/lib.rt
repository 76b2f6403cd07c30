//! The journal: what is stored of a controller on a device of sectors, so that a power cut loses nothing that was
//! acknowledged (own).
//!
//! `format` formats a device. `recover` finds what a device stands for. `Journal::commit`, `commit_update`,
//! `open_segment` and `load_program` store the state from then on. `specs/Journal.antt` says what every stop stands
//! for, over an honest device, and that the device counted a failure exactly if the call returns J1.
//! `specs/Storing.antt` and `specs/Loads.antt` say what a call writes, what the journal keeps then, and when it fails.
//! `hand_out` and `program_line` change nothing that is stored.
//!
//! `ng_layout` defines where everything is stored, and `ng_log` how a record of the log is written and read. This crate
//! doesn't define what an entry means.
#![tactic(auto)]

mod checkpoint;
mod formatting;
mod journal;
pub mod laws;
mod line;
mod lines_before;
mod loading;
mod reading;
mod recovery;
mod storing;

pub use formatting::format;
pub use journal::{Journal, recover};
pub use line::ProgramLine;
