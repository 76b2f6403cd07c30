//! How a dry run ends.
use ng_num::Fault;
use thiserror::Error;

/// How a dry run ends.
#[derive(Clone, Copy, PartialEq, Eq)]
pub enum Ended {
    /// At the program's end.
    Done,
    /// At a line that is refused: its number, from 1, and its first fault. At the end of a text without a program end
    /// it is the number after the last line.
    Refused(u64, Fault),
}

/// Why a dry run is aborted. What was written until then is a beginning of the run's text.
#[derive(Debug, Drop, Error)]
pub enum DryFault {
    /// A read failed, or more than 1,000,000,000 reads were needed.
    #[error("the program could not be read")]
    Reader,
    /// A write failed, or accepted no byte.
    #[error("the canonical text could not be written")]
    Writer,
    /// There was no more memory.
    #[error("out of memory")]
    Memory,
}
