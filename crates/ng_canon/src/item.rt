//! What is handed out: pulses, dwells, the state of the outputs.
use crate::outputs::Outputs;

/// How a pulse moves one axis.
#[derive(Clone, Copy, Debug, PartialEq, Eq)]
pub enum AxisStep {
    Backward,
    Still,
    Forward,
}

/// One pulse: at most one step of each axis, and the time until the next.
#[derive(Clone, Copy, Debug, PartialEq, Eq)]
pub struct Pulse {
    pub x: AxisStep,
    pub y: AxisStep,
    pub z: AxisStep,
    pub period_us: u64,
}

/// An item that is handed out, one at a time (own).
#[derive(Clone, Copy, Debug, PartialEq, Eq)]
pub enum Item {
    Pulse(Pulse),
    /// A dwell.
    Dwell { us: u64 },
    /// The state of all outputs from now on.
    Switch(Outputs),
}
