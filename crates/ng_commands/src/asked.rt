//! The commands of the console.
use ng_num::{Len, Point};

/// The most bytes of a command's line, without its end.
pub const LONGEST: usize = 300;

/// What a line of the console asks for (own).
#[derive(Clone, Copy, Debug, PartialEq, Eq)]
pub enum ConsoleCommand<'a> {
    /// `load N`: a program with this many bytes, which follow the line; below 10,000,000.
    Load(u32),
    /// `start`
    Start,
    /// `hold`
    Hold,
    /// `continue`
    Continue,
    /// `mdi LINE`: a line of the language, which is the bytes after the blank.
    Mdi(&'a [u8]),
    /// `reference X Y Z`: the machine's position. Three numbers as in a line of a program, in millimetres, in machine
    /// coordinates.
    Reference(Point),
    /// `resume`
    Resume,
    /// `abandon`
    Abandon,
    /// `tool N LENGTH`: the length of the tool in slot N. N is below 1,000; the length is a number as in a line of a
    /// program, in millimetres.
    Tool(u16, Len),
    /// `optional on`, `optional off`
    OptionalStop(bool),
    /// `delete on`, `delete off`
    BlockDelete(bool),
    /// `tick N`: at most this many ticks, 1 to 1,000,000.
    Tick(u32),
    /// `status`
    Status,
    /// `quit`
    Quit,
}
