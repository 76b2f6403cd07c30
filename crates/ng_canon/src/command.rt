//! The canonical commands, as values.
use crate::pace::Feed;
use crate::plane::{ArcDirection, Plane};
use ng_num::{Len, Num, Point, Unit};

/// The arguments of ARC_FEED: machine coordinates.
#[derive(Clone, Copy, Debug, PartialEq, Eq)]
pub struct ArcFeed {
    pub end: Point,
    /// The centre on the plane's axis a.
    pub centre_a: Len,
    /// The centre on the plane's axis b.
    pub centre_b: Len,
    pub turn: ArcDirection,
}

/// A canonical command whose arguments are numbers (NISTIR 6556, 4.3, in this project's profile).
#[derive(Clone, Copy, Debug, PartialEq, Eq)]
pub enum CanonicalCommand {
    /// SET_FEED_RATE.
    FeedRate(Feed),
    /// INVERSE_TIME (own): the F word.
    InverseTime(Num),
    /// SET_SPINDLE_SPEED.
    SpindleSpeed(Num),
    /// SELECT_TOOL: a slot.
    SelectTool(u8),
    /// CHANGE_TOOL: a slot.
    ChangeTool(u8),
    StartSpindleClockwise,
    StartSpindleCounterclockwise,
    StopSpindle,
    MistOn,
    MistOff,
    FloodOn,
    FloodOff,
    /// DWELL: seconds.
    Dwell(Num),
    SelectPlane(Plane),
    LengthUnits(Unit),
    /// USE_TOOL_LENGTH_OFFSET.
    ToolLength(Len),
    /// SET_ORIGIN_OFFSETS: origin plus G92 offset.
    OriginOffsets(Point),
    /// STRAIGHT_TRAVERSE: the end.
    Traverse(Point),
    /// STRAIGHT_FEED: the end.
    Feed(Point),
    ArcFeed(ArcFeed),
    ProgramStop,
    OptionalStop,
    PalletShuttle,
    ProgramEnd,
}

impl Default for CanonicalCommand {
    fn default() -> Self {
        CanonicalCommand::ProgramEnd
    }
}

/// A canonical command. The text of comments and messages is borrowed from the line.
#[derive(Clone, Copy, Debug)]
pub enum Canon<'a> {
    /// COMMENT: the bytes between the parentheses.
    Comment(&'a [u8]),
    /// MESSAGE: the bytes after `MSG,`.
    Message(&'a [u8]),
    Command(CanonicalCommand),
}
