//! From program to machine coordinates of one axis, and back.
ghost use Rattle.std.specs.Prelude.{◌≡◌, ◌+ℤ◌, ◌-ℤ◌, IfOk, Ok};
ghost use Rattle.ng_num.specs.Range.{in_range};

use ng_num::{Fault, Len};
use std::marker::Model;

/// The difference between the program and the machine coordinate of an axis: a sum of two or three lengths, in
/// nanometres. The sum itself may be out of the range of lengths (own).
#[derive(Clone, Copy)]
pub struct Shift {
    nm: i64,
}

impl Model for Shift {
    ghost use Rattle.std.specs.Prelude.{ℤ, ◌≤◌, unsigned_abs};

    ghost Value = { ℤ };

    ghost view = { λ s. s.nm };

    ghost invariant = { λ s. unsigned_abs s.nm ≤ 29_999_999_999_997 };

    ghost inverse = { λ z. record { nm = z } };
}

impl Shift {
    /// The sum of two lengths.
    #[inline]
    pub(crate) fn of(origin: Len, g92: Len) -> Shift
        ensures { result ≡ origin +ℤ g92 }
    {
        Shift {
            nm: origin.nm() + g92.nm(),
        }
    }

    /// The sum of three lengths.
    #[inline]
    pub(crate) fn of_three(origin: Len, g92: Len, tool_length: Len) -> Shift
        ensures { result ≡ origin +ℤ g92 +ℤ tool_length }
    {
        Shift {
            nm: origin.nm() + g92.nm() + tool_length.nm(),
        }
    }

    /// The shift minus a length. E3 if the result is out of range.
    pub(crate) fn less(self, length: Len) -> Result<Len, Fault>
        ensures { result ≡ in_range (self -ℤ length) }
    {
        Len::of_nm((self.nm - length.nm()) as i128)
    }

    /// The machine coordinate of a program coordinate. E3 if it is out of range.
    #[inline]
    pub fn to_machine(self, program: Len) -> Result<Len, Fault>
        ensures value { result ≡ in_range (program +ℤ self) }
        ensures undone { IfOk result (λ machine. in_range (machine -ℤ self) ≡ Ok program) }
    {
        Len::of_nm((program.nm() + self.nm) as i128)
    }

    /// The program coordinate of a machine coordinate. E3 if it is out of range.
    #[inline]
    pub fn to_program(self, machine: Len) -> Result<Len, Fault>
        ensures value { result ≡ in_range (machine -ℤ self) }
        ensures undone { IfOk result (λ program. in_range (program +ℤ self) ≡ Ok machine) }
    {
        Len::of_nm((machine.nm() - self.nm) as i128)
    }
}
