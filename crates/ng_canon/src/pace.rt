//! How fast a move is: a feed, a rate, an inverse time.
ghost use Rattle.std.specs.Prelude.{◌≡◌, ◌<◌, ◌≤◌};

use ng_num::{Len, Num};
use std::marker::Model;

/// What F sets under feed per minute (NISTIR 6556, 3.5.1), in nanometres a minute: at most 9,999,999,999,999 in
/// absolute value; 0 is allowed.
#[derive(Clone, Copy, Debug, PartialEq, Eq)]
pub struct Feed {
    per_min: Len,
}

impl Model for Feed {
    ghost use Rattle.std.specs.Prelude.{ℤ};
    ghost use Rattle.ng_num.specs.Range.{IsCount};

    ghost Value = { ℤ };

    ghost view = { λ f. f.per_min };

    ghost invariant = { λ f. IsCount f.per_min };

    ghost inverse = { λ z. record { per_min = z } };
}

impl Feed {
    ghost use Rattle.std.specs.Prelude.{pos};
    ghost use Rattle.ng_num.specs.Range.{IsCount};

    /// The feed of a length per minute.
    #[inline]
    pub fn of(per_min: Len) -> Feed
        ensures { result ≡ per_min }
    {
        Feed { per_min }
    }

    /// The feed 0, as in the fresh state.
    #[inline]
    pub fn zero() -> Feed
        ensures { result ≡ pos 0 }
    {
        Feed {
            per_min: Len::zero(),
        }
    }

    /// The length per minute.
    #[inline]
    pub fn per_min(self) -> Len
        ensures { result ≡ self }
    {
        self.per_min
    }

    /// Its nanometres a minute.
    #[inline]
    pub fn nm_per_min(self) -> i64
        ensures value { result ≡ self }
        ensures range { IsCount self }
    {
        self.per_min.nm()
    }
}

/// A rate of motion in nanometres a minute: 1 to 9,999,999,999,999.
#[derive(Clone, Copy, Debug, PartialEq, Eq)]
pub struct Rate {
    nm_per_min: u64,
}

impl Model for Rate {
    ghost use Rattle.std.specs.Prelude.{ℕ, ◌<◌, ◌≤◌};
    ghost use Rattle.ng_num.specs.Range.{greatest};

    ghost Value = { ℕ };

    ghost view = { λ r. r.nm_per_min };

    ghost invariant = { λ r. (0 < r.nm_per_min) × (r.nm_per_min ≤ greatest) };

    ghost inverse = { λ n. record { nm_per_min = n } };
}

impl Rate {
    ghost use Rattle.ng_num.specs.Range.{greatest};
    ghost use Rattle.ng_canon.specs.Pace.{above_zero};

    /// The rate of a feed. `None` if the feed isn't above 0.
    pub fn of(feed: Feed) -> Option<Rate>
        ensures { result ≡ above_zero feed }
    {
        let nm_per_min = feed.nm_per_min();
        if 0 < nm_per_min {
            Some(Rate {
                nm_per_min: nm_per_min as u64,
            })
        } else {
            None
        }
    }

    /// Its nanometres a minute.
    pub fn nm_per_min(self) -> u64
        ensures value { result ≡ self }
        ensures moves { 0 < self }
        ensures range { self ≤ greatest }
    {
        self.nm_per_min
    }
}

/// The F word under inverse time feed (NISTIR 6556, 3.5.19, G93): the move takes one minute divided by it. A
/// count of millionths, above 0.
#[derive(Clone, Copy, Debug, PartialEq, Eq)]
pub struct InverseTime {
    count: u64,
}

impl Model for InverseTime {
    ghost use Rattle.std.specs.Prelude.{ℕ, ◌<◌, ◌≤◌};
    ghost use Rattle.ng_num.specs.Range.{greatest};

    ghost Value = { ℕ };

    ghost view = { λ t. t.count };

    ghost invariant = { λ t. (0 < t.count) × (t.count ≤ greatest) };

    ghost inverse = { λ n. record { count = n } };
}

impl InverseTime {
    ghost use Rattle.ng_num.specs.Range.{greatest};
    ghost use Rattle.ng_canon.specs.Pace.{above_zero};

    /// The inverse time of a number. `None` if the number isn't above 0.
    pub fn of(number: Num) -> Option<InverseTime>
        ensures { result ≡ above_zero number }
    {
        let count = number.count();
        if 0 < count {
            Some(InverseTime {
                count: count as u64,
            })
        } else {
            None
        }
    }

    /// Its count of millionths.
    pub fn count(self) -> u64
        ensures value { result ≡ self }
        ensures some { 0 < self }
        ensures range { self ≤ greatest }
    {
        self.count
    }
}

/// How fast a move goes (NISTIR 6556, 2.1.2.5 and 3.5.19).
#[derive(Clone, Copy, Debug, PartialEq, Eq)]
pub enum Pace {
    /// At the machine's traverse rate.
    Traverse,
    /// At a feed rate.
    Feed(Rate),
    /// In a time.
    InverseTime(InverseTime),
}
