//! How far a block has got.
use ng_cycles::MotionState;
use ng_num::Point;

/// The way back to where a half-done block goes on, from the machine's point to the position and outputs there (own).
#[derive(Clone, Copy)]
pub struct Approach {
    /// The machine's point, in nm of machine coordinates.
    pub from: Point,
    /// The position and outputs before the segment that goes on.
    pub to: MotionState,
}

/// How far a block has got (own).
#[derive(Clone, Copy)]
pub(crate) enum Stage {
    /// Its approach opens next.
    ToApproach(Approach),
    /// Its approach is open.
    OnApproach(Approach),
    /// Its segments are worked.
    OnBlock,
}
