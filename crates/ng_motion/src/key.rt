//! The keys of the table `[motion]`.
ghost use Rattle.std.specs.Prelude.{◌≡◌, ◌≤◌};
ghost use Rattle.ng_motion.specs.Key.{key_name, least, greatest};

/// A key of the table `[motion]`.
#[derive(Clone, Copy, Debug, PartialEq, Eq)]
pub enum Key {
    /// The most that each axis gains or loses, in millimetres a second, each second: 1 to 1,000,000. Required.
    Accel,
    /// The most of each axis in millimetres a minute, 0 to 100,000; 0 for as much as is asked for. Default 0.
    Rate,
    /// The rate at which each motor starts and stops at once, in millimetres a minute, 0 to 100,000. Default 0.
    Start,
    /// How many steps a motor may be off its pulses, 1 to 64. Default 2.
    Slack,
    /// The most that an operator may ask for, in percent of what OUT says, 100 to 200. Default 100.
    Most,
}

impl Key {
    pub(crate) fn name(self) -> &'static str
        ensures { result.now ≡ key_name self }
    {
        match self {
            Key::Accel => "accel_mm_s2",
            Key::Rate => "rate_mm_min",
            Key::Start => "start_mm_min",
            Key::Slack => "slack_steps",
            Key::Most => "most_percent",
        }
    }

    pub(crate) fn least(self) -> u64
        ensures value { result ≡ least self }
        ensures small { result ≤ 1_000_000 }
    {
        match self {
            Key::Accel | Key::Slack => 1,
            Key::Rate | Key::Start => 0,
            Key::Most => 100,
        }
    }

    pub(crate) fn greatest(self) -> u64
        ensures value { result ≡ greatest self }
        ensures small { result ≤ 1_000_000 }
    {
        match self {
            Key::Accel => 1_000_000,
            Key::Rate | Key::Start => 100_000,
            Key::Slack => 64,
            Key::Most => 200,
        }
    }
}
