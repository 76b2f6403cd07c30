//! The replies of a session.
use ng_layout::Source;
use ng_num::{Fault, Point};

/// A half-done block, as the status shows it.
#[derive(Clone, Copy, Debug, PartialEq, Eq)]
pub struct HalfShown {
    /// Where its line came from: the program, or the operator.
    pub source: Source,
    /// The segment that is open or comes next, counted from 0.
    pub index: u64,
}

/// What a controller is doing, as the status shows it: the last of these that applies.
#[derive(Clone, Copy, Debug, PartialEq, Eq)]
pub enum Condition {
    /// No program was started, or it has ended.
    Idle,
    /// The program's lines are begun one after another.
    Running,
    /// The program waits to go on.
    Stopped,
    /// The session is held: a Tick does nothing.
    Held,
    /// The device failed: all events but Status are refused.
    Broken,
}

/// What is stored and what the controller is doing, as an event Status asks for it (own).
#[derive(Clone, Copy, Debug, PartialEq, Eq)]
pub struct Status {
    /// The number of committed entries.
    pub entries: u64,
    /// The byte of the program at which the next line begins.
    pub place: u64,
    /// In nm of machine coordinates: the point of the half-done block's machine, if there is such a block and the point
    /// is known; else the stored point.
    pub point: Point,
    /// Whether the machine is known to be at that point.
    pub point_known: bool,
    /// The half-done block. A block with an open segment counts as one.
    pub half: Option<HalfShown>,
    /// What the controller is doing.
    pub condition: Condition,
}

/// The reply to an event (own).
#[derive(Clone, Copy, Debug, PartialEq, Eq)]
pub enum Reply {
    /// An entry was committed; the number is that of all committed entries.
    Done(u64),
    /// The program runs, or what was held goes on.
    Going,
    /// The session is held: a Tick does nothing until it goes on.
    Held,
    /// There is nothing to do.
    Idle,
    /// There is nothing to do until the program, which waits, goes on.
    Stopped,
    /// A line was begun.
    Begun,
    /// A switch of the operator was set.
    Taken,
    /// An item was handed out.
    Moved,
    /// The segment of this number was opened.
    Opened(u64),
    /// The approach of a half-done block was opened.
    Approaching,
    /// What an event Status asked for.
    Status(Status),
    /// Why the event, or the line of the program that was to begin, is refused.
    Refused(Fault),
}
