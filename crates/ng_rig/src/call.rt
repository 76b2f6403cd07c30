//! The calls that a device in memory records.
use ng_canon::Item;

/// A call that a device in memory records.
#[derive(Clone, Copy, Drop)]
pub(crate) enum Call {
    /// The sector and its bytes.
    Write(usize, [u8; 512]),
    Sync,
    Hand(Item),
}
