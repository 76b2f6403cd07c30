//! Units of length.

/// The unit in which a program writes lengths (NISTIR 6556, 3.5.7: G20, G21).
#[derive(Clone, Copy, Debug, PartialEq, Eq)]
pub enum Unit {
    /// G20: 25.4 mm each.
    Inches,
    /// G21.
    Millimetres,
}
