//! What an offset word leaves.
use crate::offsets::Offsets;
use ng_num::Point;

/// The offsets after a word, and what is printed of them.
#[derive(Clone, Copy)]
pub struct NewOffsets {
    pub offsets: Offsets,
    /// Origin plus G92 offset, as `SET_ORIGIN_OFFSETS` prints it.
    pub shown: Point,
}
