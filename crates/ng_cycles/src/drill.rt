//! A canned cycle in machine coordinates.
use crate::peck::Peck;
use ng_canon::{Outputs, Rate};
use ng_num::{Len, Num, Point};

/// What a cycle does at each of its holes (NISTIR 6556, 3.5.16.2 to 3.5.16.10). Dwells are in seconds.
#[derive(Clone, Copy)]
pub enum Work {
    /// G81.
    Drilling,
    /// G82.
    DrillingWithDwell(Num),
    /// G83.
    PeckDrilling(Peck),
    /// G85.
    Boring,
    /// G86: the spindle is stopped on the way out.
    BoringWithStop(Num),
    /// G89.
    BoringWithDwell(Num),
}

/// An axis's coordinates at the holes of a cycle: where they start, and what is added for each repeat (NISTIR 6556,
/// 3.5.16).
#[derive(Clone, Copy)]
pub struct HoleAxis {
    pub from: Len,
    pub step: Len,
}

/// What a canned cycle does, in machine coordinates.
#[derive(Clone, Copy)]
pub struct Drill {
    pub work: Work,
    /// The machine's position before it.
    pub start: Point,
    pub x: HoleAxis,
    pub y: HoleAxis,
    pub r: Len,
    pub z: Len,
    /// Where each repeat ends: at R, or at the old Z (NISTIR 6556, 3.5.20).
    pub clear: Len,
    /// At least 1.
    pub repeats: u32,
    pub rate: Rate,
    /// The outputs before the cycle, and after it.
    pub outputs: Outputs,
}
