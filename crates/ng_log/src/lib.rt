//! The log of a journal: records after the snapshot of an epoch, one for each state stored since (own; docs/DEVICE.md).
//!
//! `append` writes a record after the last one and syncs it. A record is written in parts, in consecutive sectors. It
//! says which parameters changed, and which slot of the tool table. The changes of parameters are a `RecordChanges`: a
//! list, or the differences between two tables, found as they are written. `read_log` reads the longest run of complete
//! records back; a record with a missing part doesn't count. Both work in the memory of the state that they are given.
//! specs/AtEnd.antt says where the log of an image ends and what each stop of a device leaves, whichever parts of the
//! record being written are kept; specs/Runs.antt says which records count. proofs/LogEndLemmas.antt and
//! proofs/EpochLemmas.antt are the laws of images that proofs in other crates cite.
//!
//! The crate depends on `ng_layout` for the bytes of a part and on `ng_rig` for the device. Whether the log has room
//! for a record, and what happens if it has none, is up to the caller.
#![tactic(auto)]

mod log_end;
mod reading;
mod record_changes;
mod scanning;
mod writing;

pub use log_end::LogEnd;
pub use reading::read_sector;
pub use record_changes::RecordChanges;
pub use scanning::read_log;
pub use writing::append;
