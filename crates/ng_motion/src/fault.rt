//! Why a text gives no limits of motors.
ghost use Rattle.std.specs.Prelude.{◌≡◌};
ghost use Rattle.ng_motion.specs.Fault.{cause_text, name_told};

use crate::axis::AxisName;
use crate::key::Key;
use crate::name::KeyName;
use crate::table::TableName;

/// Why a text gives no limits (own).
#[derive(Clone, Copy, Debug, PartialEq, Eq)]
pub enum MotionFault {
    /// The text isn't TOML.
    NotToml,
    OutOfMemory,
    /// A name at the top is none of the nine tables of a machine's file: of those the first, in the order of their
    /// names.
    UnknownTable(KeyName),
    /// The name of a table has another value: of those the first, in the order of their names.
    NotATable(TableName),
    /// There is no table `[motion]`.
    NoTable,
    /// The table has a key that is none of its five: of those the first, in the order of their names.
    UnknownKey(KeyName),
    /// There is no `accel_mm_s2`.
    NoAcceleration,
    /// The value of a key has another type, or is outside the key's range.
    OutOfRange(Key),
    /// An axis gains less than 3 steps a second, each second: the first that does.
    TooWeak(AxisName),
    /// An axis gains more than 1,000,000,000 steps a second, each second: the first that does.
    TooStrong(AxisName),
    /// An axis goes less than a step a second.
    TooSlow,
}

impl MotionFault {
    /// The key, if it is that of one, and what is wrong with it; the range, if it is outside. Behind it comes `name`.
    pub fn text(&self) -> &'static [u8]
        ensures { result.now ≡ cause_text self.now }
    {
        match self {
            MotionFault::NotToml => b": not TOML",
            MotionFault::OutOfMemory => b": out of memory",
            MotionFault::UnknownTable(_) => b": has a table that isn't one of its nine: ",
            MotionFault::NotATable(table) => table.no_table_text(),
            MotionFault::NoTable => b" motion: missing",
            MotionFault::UnknownKey(_) => b" motion: has a key that isn't one of its five: ",
            MotionFault::NoAcceleration => b" accel_mm_s2: missing",
            MotionFault::OutOfRange(Key::Accel) => {
                b" accel_mm_s2: not three whole numbers from 1 to 1000000"
            }
            MotionFault::OutOfRange(Key::Rate) => {
                b" rate_mm_min: not three whole numbers from 0 to 100000"
            }
            MotionFault::OutOfRange(Key::Start) => {
                b" start_mm_min: not three whole numbers from 0 to 100000"
            }
            MotionFault::OutOfRange(Key::Slack) => {
                b" slack_steps: not a whole number from 1 to 64"
            }
            MotionFault::OutOfRange(Key::Most) => {
                b" most_percent: not a whole number from 100 to 200"
            }
            MotionFault::TooWeak(_) => {
                b" accel_mm_s2: less than 3 steps a second, each second, of "
            }
            MotionFault::TooStrong(_) => {
                b" accel_mm_s2: more than 1000000000 steps a second, each second, of "
            }
            MotionFault::TooSlow => b" rate_mm_min: less than a step a second",
        }
    }

    /// The table or the key that is none, or the axis; nothing for any other fault.
    pub fn name(&self) -> &[u8]
        ensures { result.now ≡ name_told self.now }
    {
        match self {
            MotionFault::UnknownTable(name) | MotionFault::UnknownKey(name) => name.as_slice(),
            MotionFault::TooWeak(axis) | MotionFault::TooStrong(axis) => axis.text(),
            _ => b"",
        }
    }
}
