//! What words ask for that isn't a mode.

/// What a word of group 0 asks for; it applies to its line only (NISTIR 6556, table 4).
#[derive(Clone, Copy)]
pub enum NonModal {
    /// G4 (NISTIR 6556, 3.5.4).
    Dwell,
    /// G10 (3.5.5).
    SetOrigin,
    /// G28 (3.5.8).
    Home,
    /// G30 (3.5.8).
    SecondHome,
    /// G53 (3.5.12).
    MachineCoordinates,
    /// G92 (3.5.18).
    SetOffset,
    /// G92.1 (3.5.18).
    CancelOffsetAndParameters,
    /// G92.2 (3.5.18).
    CancelOffset,
    /// G92.3 (3.5.18).
    RestoreOffset,
}

/// What a word of group 8 asks for (NISTIR 6556, 3.5.11).
#[derive(Clone, Copy)]
pub enum ToolLength {
    /// G43.
    OfSlot,
    /// G49.
    Zero,
}

/// What an M word of group 4 asks for (NISTIR 6556, 3.6.1).
#[derive(Clone, Copy)]
pub enum StopWord {
    /// M0.
    Program,
    /// M1.
    Optional,
    /// M2.
    End,
    /// M30.
    EndWithShuttle,
    /// M60.
    Shuttle,
}

/// What an M word of group 8 asks for (NISTIR 6556, 3.6.4).
#[derive(Clone, Copy)]
pub enum Coolant {
    /// M7.
    Mist,
    /// M8.
    Flood,
    /// M9.
    Off,
}
