//! The outputs of the machine: spindle, coolant, tools.
use ng_num::Num;

/// Whether and how the spindle turns (NISTIR 6556, 3.6.2).
#[derive(Clone, Copy, Debug, PartialEq, Eq)]
pub enum Spindle {
    /// M5.
    Stopped,
    /// M3.
    Clockwise,
    /// M4.
    Counterclockwise,
}

/// The state of all outputs: what a switch carries, and what a program changes by S, T and M words (NISTIR 6556, 3.6,
/// 3.7).
#[derive(Clone, Copy, Debug, PartialEq, Eq)]
pub struct Outputs {
    pub spindle: Spindle,
    /// The S word, in revolutions a minute; not below 0.
    pub speed: Num,
    pub mist: bool,
    pub flood: bool,
    /// The slot that T selected, 0 for none; at most 128.
    pub selected_slot: u8,
    /// The slot whose tool is in the spindle, 0 for none; at most 128.
    pub spindle_slot: u8,
}

impl Outputs {
    ghost use Rattle.std.specs.Prelude.{◌≡◌};
    ghost use Rattle.ng_canon.specs.Outputs.{fresh_outputs};

    /// Everything off: spindle stopped, speed 0, no coolant, no slots.
    pub fn fresh() -> Outputs
        ensures { result ≡ fresh_outputs }
    {
        Outputs {
            spindle: Spindle::Stopped,
            speed: Num::zero(),
            mist: false,
            flood: false,
            selected_slot: 0,
            spindle_slot: 0,
        }
    }
}
