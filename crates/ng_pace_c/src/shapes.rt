//! What C passes, and what it gets.
ghost use Rattle.std.specs.Prelude.{◌≡◌};
ghost use Rattle.ng_pace_c.specs.Shapes.{item_of, step_of};

use ng_canon::{AxisStep, Item, Outputs, Pulse};

/// A line of OUT: its letter, the steps of a pulse, and the microseconds of a pulse or a dwell. What a switch sets
/// isn't told.
#[repr(C)]
#[derive(Clone, Copy, Debug)]
pub struct PaceLine {
    pub us: u64,
    pub letter: u32,
    pub x: i32,
    pub y: i32,
    pub z: i32,
}

/// A line that is given out, if one is.
#[repr(C)]
#[derive(Clone, Copy, Debug)]
pub struct PaceGiven {
    /// The next line isn't carried out before so many nanoseconds.
    pub ns: u64,
    /// How much the square may change up to the next line, either way.
    pub ramp: u64,
    pub is_given: bool,
    /// Whether everything stands still before the next line.
    pub is_at_rest: bool,
}

/// A step of an axis: by its sign.
fn step_of(step: i32) -> AxisStep
    ensures { result ≡ step_of step }
{
    if step < 0 {
        AxisStep::Backward
    } else if step == 0 {
        AxisStep::Still
    } else {
        AxisStep::Forward
    }
}

/// The item of a line: a pulse for P, a dwell for D, and else a switch.
pub(crate) fn item_of(line: PaceLine) -> Item
    ensures { result ≡ item_of line }
{
    match line.letter {
        80 => Item::Pulse(Pulse {
            x: step_of(line.x),
            y: step_of(line.y),
            z: step_of(line.z),
            period_us: line.us,
        }),
        68 => Item::Dwell { us: line.us },
        _ => Item::Switch(Outputs::fresh()),
    }
}
