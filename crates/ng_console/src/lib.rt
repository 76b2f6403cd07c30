//! What the program `ngc` does (NISTIR 6556 in this project's profile), as a library that `main` and tests call.
//!
//! The contracts of this crate say what the program writes and how it ends: which job a command line asks for
//! (`words`); the text and the status of a dry run, given the program's lines and the chosen settings (`run_dry`), and
//! the bytes of a device if it begins from one (`dry_from_device`); that `format` leaves the device fresh, or writes
//! the line that says why not (`format_rig`); that `grow` appends zeros to what the device held, or writes the line
//! that says why not (`grow_file`); that `run` is the console's conversation over the device in a file, or writes the
//! line that says why there is none; and that `pace` writes the lines that it reads, each behind the time at which it
//! is due (`ngc`, for any job). Of a file of settings or of a machine at most a mebibyte and a byte is read
//! (`read_whole`).
//!
//! Each job is done by another crate: `ng_dry` reads a program and writes its text, `ng_journal` formats a device, and
//! `ng_run` talks to an operator; `ng_motion` reads what motors allow, and `ng_schedule` paces lines. `clap` parses the
//! words and `ng_settings` the settings; `ng_file` opens devices, lengthens them, and makes a `Rig` (`ng_rig`) of a
//! file; `ng_num` defines the faults. What a file holds, and what the system does with the bytes that are written, is
//! left open. The crate makes sure that no file takes the place of a standard stream that is closed (`start`).
#![tactic(auto)]

mod command_line;
mod format;
mod from_device;
mod grow;
pub mod laws;
mod operating;
mod pacing;
mod program;
mod settings_file;
mod size;

pub use command_line::{Job, words};
pub use format::format_rig;
pub use from_device::dry_from_device;
pub use grow::grow_file;
pub use operating::operate_device;
pub use program::{ngc, run_dry, start};
pub use settings_file::{NoBytes, read_whole};
