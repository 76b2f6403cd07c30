//! What a device in a file does.
use ng_canon::Item;

/// What a device in a file has done, for proofs only (own). A write counts where it failed too, since the bytes may be
/// there; a sync or a hand-out that failed counts as nothing.
#[derive(Drop)]
pub(crate) enum Done {
    /// The sector and its bytes.
    Put(usize, [u8; 512]),
    Sync,
    Hand(Item),
}
