//! Devices of 512-byte sectors that also hand out items, and every way that a loss of power can stop them.
//!
//! The trait `Rig` is what a journal is proved over. Its ghost member `seen` is the device as contracts see it
//! (specs/Rig); its trace lists the writes, syncs and hand-outs so far. What a read returns, what a stop may leave
//! now or since a moment, and the items handed out all follow from the trace (specs/Trace). `MemoryRig` implements the
//! trait in memory; it can be stopped in every way that the definition allows and in no other. `FuseRig` and `FailRig`
//! implement it over any device and fail when asked to, by one body. `laws` states facts about stops for proofs to
//! cite; specs/Continuation and specs/Only say what sequences of calls leave.
//!
//! The crate depends on `ng_canon` for the items. That a real device is honest is not proved here: how a file or a disk
//! keeps its sectors is an assumption of whoever implements `Rig` for it.
#![tactic(auto)]

mod call;
mod failing;
pub mod laws;
mod memory;
mod replay;
mod rig;

pub use failing::{FailRig, FailingRig, FuseRig};
pub use memory::MemoryRig;
pub use rig::{Failed, Rig};
