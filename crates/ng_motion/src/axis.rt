//! The axes by name.
ghost use Rattle.std.specs.Prelude.{◌≡◌};
ghost use Rattle.ng_motion.specs.Fault.{axis_text};

/// An axis of the machine.
#[derive(Clone, Copy, Debug, PartialEq, Eq)]
pub enum AxisName {
    X,
    Y,
    Z,
}

impl AxisName {
    pub(crate) fn text(self) -> &'static [u8]
        ensures { result.now ≡ axis_text self }
    {
        match self {
            AxisName::X => b"X",
            AxisName::Y => b"Y",
            AxisName::Z => b"Z",
        }
    }
}
