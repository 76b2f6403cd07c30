//! Why there are no times.

/// Why a pacer or a stream isn't made (own).
#[derive(Clone, Copy, Debug, PartialEq, Eq)]
pub enum PaceFault {
    /// Motors couldn't start: the distance over which they start at once is below half a step.
    StartTooSmall,
    /// An axis has less acceleration than 3: it couldn't turn at a pulse a second.
    NoAcceleration,
    /// An axis has more acceleration than 1,000,000,000.
    AccelerationTooGreat,
    /// An axis has a greater rate than 1,000,000,000.
    RateTooGreat,
    /// A corner would be taken over no pulse.
    NoCorner,
    /// A motor may be off its pulses by nothing.
    NoSlack,
    /// A motor may be off its pulses by more than 1,000 steps.
    SlackTooGreat,
    /// The most that is wanted isn't 100 to 200 percent.
    NoPercent,
    /// No line fits.
    NoCapacity,
    OutOfMemory,
}
