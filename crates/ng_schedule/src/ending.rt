//! What is shown of a schedule, and how it ends.
use thiserror::Error;

/// What is written of a run.
#[derive(Clone, Copy, Debug, PartialEq, Eq)]
pub enum Shown {
    /// Each line behind the nanosecond at which it is due.
    Lines,
    /// The nanosecond at which the last line is over, alone.
    Total,
}

/// How a run ends.
#[derive(Clone, Copy, Debug, PartialEq, Eq)]
pub enum Ended {
    /// All lines are given.
    Done,
    /// The line of this number, from 1, isn't one of OUT. All before it are given.
    NotALine(u64),
    /// The line of this number would be over after more than 584 years, 2^64 - 2 nanoseconds. All before it are given.
    TooLate(u64),
}

/// Why a run is aborted. What was written until then is a beginning of the run's text.
#[derive(Clone, Copy, Debug, Drop, Error)]
pub enum ScheduleFault {
    /// A read failed, or more than 1,000,000,000 reads were needed.
    #[error("the lines could not be read")]
    Reader,
    /// A write failed, or accepted no byte.
    #[error("the times could not be written")]
    Writer,
    /// There was no more memory.
    #[error("out of memory")]
    Memory,
    /// The pacer takes no such limits.
    #[error("the limits were refused")]
    Limits,
}

/// Why no more lines are given.
#[derive(Clone, Copy)]
pub(crate) enum Halt {
    /// The next line would be over too late.
    TooLate,
    Fault(ScheduleFault),
}

/// Why no more lines are taken.
#[derive(Clone, Copy)]
pub(crate) enum Stop {
    /// The next bytes aren't a line of OUT.
    NotALine,
    Halted(Halt),
}
