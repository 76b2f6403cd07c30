//! A device in a file: sector n is at byte 512 * n, and what is handed out goes to another file, one line for each item
//! (own).
//!
//! `FileRig` implements `Rig` over any `Storage`, which is the bytes of a file, and any writer. If the storage and the
//! writer say what they hold, its contracts say which bytes a read returns, which a write puts and which line a
//! hand-out appends. They also say that each failure is counted. `copied` makes a copy of such a device in memory.
//! `lengthen` is for such a file while it isn't in use: it appends zeros, and changes no byte.
//!
//! Where a storage does what it promises (`specs/Promise.antt`), and all of it is durable when the device is made, the
//! device is honest: what is proved of honest devices holds of it. A file of the system promises nothing to the prover.
//! So this is trusted of it, the clauses of `Storage`: a read returns the bytes that were put at a place; a write of
//! 512 bytes at a multiple of 512 is kept whole or not at all, also where it fails; after a sync (`fdatasync`; `fsync`
//! where the length changed) a loss of power leaves what a read returns; and no other program writes to it. Of the file
//! for hand-outs it is trusted that it keeps the lines in the order in which they were appended.
#![tactic(auto)]

mod copying;
mod device;
mod done;
mod hold;
pub mod laws;
mod lengthening;
mod opened;
mod recorded;
mod rewriting;
mod rig;
mod same_file;
mod sectors;
mod storage;

pub use copying::copied;
pub use device::{NoDevice, is_pipe, make_device, open_device, open_device_to_read};
pub use hold::{Hold, NotHeld};
pub use lengthening::lengthen;
pub use opened::OpenedFile;
pub use recorded::{Beginning, RecordedRig};
pub use rewriting::rewrite;
pub use rig::FileRig;
pub use same_file::is_same_file;
pub use storage::{Append, Storage};
