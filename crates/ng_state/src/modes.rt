//! The modes of the interpreter, one of each modal group (NISTIR 6556, 3.4).
ghost use Rattle.std.specs.Prelude.{◌≡◌};

use ng_canon::Plane;
use ng_num::Unit;
use ng_params::System;

/// The motion mode, group 1 (NISTIR 6556, 3.5.1 to 3.5.3 and 3.5.16).
#[derive(Clone, Copy, Debug, PartialEq, Eq)]
pub enum Motion {
    /// G80.
    Off,
    /// G0.
    Traverse,
    /// G1.
    Feed,
    /// G2.
    ClockwiseArc,
    /// G3.
    CounterclockwiseArc,
    /// G81.
    Drilling,
    /// G82.
    DrillingWithDwell,
    /// G83.
    PeckDrilling,
    /// G85.
    Boring,
    /// G86.
    BoringWithStop,
    /// G89.
    BoringWithDwell,
}

/// How axis words are read, group 3 (NISTIR 6556, 3.5.17).
#[derive(Clone, Copy, Debug, PartialEq, Eq)]
pub enum Distance {
    /// G90.
    Absolute,
    /// G91.
    Incremental,
}

/// How F words are read, group 5 (NISTIR 6556, 3.5.19).
#[derive(Clone, Copy, Debug, PartialEq, Eq)]
pub enum FeedMode {
    /// G94.
    PerMinute,
    /// G93.
    InverseTime,
}

/// Where a cycle ends, group 10 (NISTIR 6556, 3.5.20).
#[derive(Clone, Copy, Debug, PartialEq, Eq)]
pub enum Retract {
    /// G98.
    OldZ,
    /// G99.
    ToR,
}

/// The path mode, group 13 (NISTIR 6556, 3.5.14). It is only recorded (own).
#[derive(Clone, Copy, Debug, PartialEq, Eq)]
pub enum PathMode {
    /// G61.
    Exact,
    /// G61.1.
    ExactStop,
    /// G64.
    Continuous,
}

/// All modes.
#[derive(Clone, Copy, Debug, PartialEq, Eq)]
pub struct Modes {
    pub motion: Motion,
    pub plane: Plane,
    pub distance: Distance,
    pub feed_mode: FeedMode,
    pub unit: Unit,
    pub retract: Retract,
    /// Group 12 (NISTIR 6556, 3.5.13).
    pub system: System,
    pub path: PathMode,
    /// Whether the operator's overrides are allowed: M48 (NISTIR 6556, 3.6.5). It is only recorded (own).
    pub overrides: bool,
}

impl Modes {
    ghost use Rattle.ng_state.specs.Fresh.{fresh_modes};

    /// The fresh modes: G80 G17 G90 G94 G21 G98 G54 G64 M48 (own).
    pub fn fresh() -> Modes
        ensures { result ≡ fresh_modes }
    {
        Modes {
            motion: Motion::Off,
            plane: Plane::Xy,
            distance: Distance::Absolute,
            feed_mode: FeedMode::PerMinute,
            unit: Unit::Millimetres,
            retract: Retract::OldZ,
            system: System::first(),
            path: PathMode::Continuous,
            overrides: true,
        }
    }
}
