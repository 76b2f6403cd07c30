//! Where a canned cycle has got to.
ghost use Rattle.std.specs.Prelude.{◌+◌, ◌<◌};

use crate::peck::Peck;

/// How far a repeat of G83 has got.
#[derive(Clone, Copy)]
pub(crate) struct Pecking {
    pub peck: Peck,
    /// The pecks that are done.
    pub done: u64,
    /// The pecks that are left after the next one.
    pub left: u64,
    pub ghost few: { done + left < 39_999_999_999_999 },
}

/// What comes next.
#[derive(Clone, Copy)]
pub(crate) enum Phase {
    /// Up to R, before all repeats.
    Rise,
    /// To the hole of the next repeat, if there is one.
    Across,
    ToR,
    Down,
    Dwell,
    Stop,
    /// Out of the hole with the spindle stopped.
    OutStopped,
    Start,
    Out,
    FeedOut,
    /// Out of the hole between two pecks.
    PeckOut(Pecking),
    PeckBack(Pecking),
    PeckDown(Pecking),
}
