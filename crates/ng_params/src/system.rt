//! The numbers of coordinate systems.
ghost use Rattle.std.specs.Prelude.{◌≡◌, ◌≤◌};
ghost use Rattle.ng_params.specs.Numbers.{system_of};
ghost use Rattle.ng_params.specs.Points.{selection};

use crate::change::Change;
use crate::index::Index;
use ng_num::Num;
use std::marker::Model;

/// The number of a coordinate system: 1 to 9 (NISTIR 6556, 3.5.13: G54 to G59.3).
#[derive(Clone, Copy, Debug, PartialEq, Eq)]
pub struct System {
    number: u8,
}

impl Model for System {
    ghost use Rattle.std.specs.Prelude.{ℕ, ◌≤◌};

    ghost Value = { ℕ };

    ghost view = { λ s. s.number };

    ghost invariant = { λ s. (1 ≤ s.number) × (s.number ≤ 9) };

    ghost inverse = { λ n. record { number = n } };
}

impl System {
    /// The system with a whole number. `None` if the number isn't 1 to 9.
    pub fn of(number: i64) -> Option<System>
        ensures { result ≡ system_of number }
    {
        if 1 <= number && number <= 9 {
            Some(System {
                number: number as u8,
            })
        } else {
            None
        }
    }

    /// System 1, which G54 selects.
    pub fn first() -> System
        ensures { result ≡ 1 }
    {
        System { number: 1 }
    }

    /// The change of parameters that puts it in force (NISTIR 6556, 3.5.13: G54 to G59.3).
    pub fn selection(self) -> Change
        ensures { result ≡ selection self }
    {
        Change {
            index: Index::known(5220),
            value: Num::of(self.number as i128 * 1_000_000).unwrap(),
        }
    }

    /// Its number.
    pub fn number(self) -> u8
        ensures value { result ≡ self }
        ensures low { 1 ≤ self }
        ensures high { self ≤ 9 }
    {
        self.number
    }
}

impl Default for System {
    ghost use Rattle.std.specs.Prelude.{◌≡◌};

    ghost is_default = { λ s. s ≡ 1 };

    /// System 1.
    fn default() -> Self {
        System::first()
    }
}
