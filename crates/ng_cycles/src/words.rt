//! What a line asks of a canned cycle, and the state in which the cycle is executed.

use ng_canon::{Feed, Outputs};
use ng_num::{Len, Point};
use ng_offsets::Offsets;
use ng_state::KeptWords;

/// The canned cycles that this controller has (NISTIR 6556, 3.5.16).
#[derive(Clone, Copy)]
pub enum CycleKind {
    /// G81.
    Drilling,
    /// G82.
    DrillingWithDwell,
    /// G83.
    PeckDrilling,
    /// G85.
    Boring,
    /// G86.
    BoringWithStop,
    /// G89.
    BoringWithDwell,
}

/// What a line asks of a canned cycle. Lengths are as the words wrote them.
#[derive(Clone, Copy)]
pub struct CycleWords {
    pub kind: CycleKind,
    pub x: Option<Len>,
    pub y: Option<Len>,
    /// Its own R, Z, P and Q.
    pub own: KeptWords,
    /// L, at least 1.
    pub repeats: u32,
}

/// The state in which a line's cycle is executed: the modes, offsets and outputs after its other words.
#[derive(Clone, Copy)]
pub struct CycleContext {
    /// The machine point.
    pub point: Point,
    pub offsets: Offsets,
    /// G91: words count from the current point, Z from R, and the holes go on from repeat to repeat.
    pub is_incremental: bool,
    /// G98: each repeat ends at the old Z if that is above R.
    pub keeps_old_z: bool,
    /// G93.
    pub is_inverse_time: bool,
    pub feed_per_min: Feed,
    pub outputs: Outputs,
    /// The words that the same cycle keeps. There are none if the motion mode was another.
    pub kept: KeptWords,
}
