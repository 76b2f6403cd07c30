//! The offsets in force, and the conversion between program and machine points.
ghost use Rattle.std.specs.Prelude.{◌≡◌, IfOk, Ok};

use crate::shift::Shift;
use ng_num::{Fault, Len, Point};

/// The offsets between program and machine coordinates: machine = program + origin + G92 offset + tool length on Z
/// (NISTIR 6556, 3.2.2, 3.5.11, 3.5.18).
#[derive(Clone, Copy, Debug, PartialEq, Eq)]
pub struct Offsets {
    /// The origin in force.
    pub origin: Point,
    pub g92: Point,
    pub tool_length: Len,
}

impl Offsets {
    ghost use Rattle.ng_offsets.specs.Offsets.{no_offsets, shift_x, shift_y, shift_z, to_machine, to_program};

    /// All 0.
    pub fn none() -> Offsets
        ensures { result ≡ no_offsets }
    {
        Offsets {
            origin: Point::zero(),
            g92: Point::zero(),
            tool_length: Len::zero(),
        }
    }

    /// The difference between program and machine coordinates on X.
    #[inline]
    pub fn x(&self) -> Shift
        ensures { result ≡ shift_x self.now }
    {
        Shift::of(self.origin.x, self.g92.x)
    }

    /// The difference between program and machine coordinates on Y.
    #[inline]
    pub fn y(&self) -> Shift
        ensures { result ≡ shift_y self.now }
    {
        Shift::of(self.origin.y, self.g92.y)
    }

    /// The difference between program and machine coordinates on Z, including the tool length.
    #[inline]
    pub fn z(&self) -> Shift
        ensures { result ≡ shift_z self.now }
    {
        Shift::of_three(self.origin.z, self.g92.z, self.tool_length)
    }

    /// The machine point of a program point. E3 if one of its coordinates is out of range (NISTIR 6556, 3.2.2).
    /// `to_program` is its inverse.
    pub fn to_machine(&self, program: Point) -> Result<Point, Fault>
        ensures value { result ≡ to_machine self.now program }
        ensures undone { IfOk result (λ machine. to_program self.now machine ≡ Ok program) }
    {
        let x = self.x().to_machine(program.x)?;
        let y = self.y().to_machine(program.y)?;
        let z = self.z().to_machine(program.z)?;
        Ok(Point { x, y, z })
    }

    /// The program point of a machine point. E3 if one of its coordinates is out of range (NISTIR 6556, 3.2.2).
    /// `to_machine` is its inverse.
    pub fn to_program(&self, machine: Point) -> Result<Point, Fault>
        ensures value { result ≡ to_program self.now machine }
        ensures undone { IfOk result (λ program. to_machine self.now program ≡ Ok machine) }
    {
        let x = self.x().to_program(machine.x)?;
        let y = self.y().to_program(machine.y)?;
        let z = self.z().to_program(machine.z)?;
        Ok(Point { x, y, z })
    }
}
