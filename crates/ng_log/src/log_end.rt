//! Where a log ends.

/// The position of the next record in a log (own).
#[derive(Clone, Copy, Debug, PartialEq, Eq)]
pub struct LogEnd {
    /// Its first sector, counted from the log's first sector: the records take this many sectors.
    pub sector: usize,
    /// Its number in the epoch: there are this many records.
    pub number: u64,
}

impl LogEnd {
    /// The end of a log with no record.
    pub const START: LogEnd = LogEnd {
        sector: 0,
        number: 0,
    };
}
