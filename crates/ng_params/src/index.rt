//! The numbers of parameters.
ghost use Rattle.std.specs.Prelude.{◌≡◌, ◌≤◌};
ghost use Rattle.ng_params.specs.Numbers.{index_of, parameter_count};

use std::marker::Model;

/// The number of parameters.
pub const PARAMETER_COUNT: usize = 5399;

/// The number of a parameter: 1 to 5399 (NISTIR 6556, 3.3.2.2).
#[derive(Clone, Copy, Debug, PartialEq, Eq)]
pub struct Index {
    number: u16,
}

impl Model for Index {
    ghost use Rattle.std.specs.Prelude.{ℕ, ◌≤◌};
    ghost use Rattle.ng_params.specs.Numbers.{parameter_count};

    ghost Value = { ℕ };

    ghost view = { λ i. i.number };

    ghost invariant = { λ i. (1 ≤ i.number) × (i.number ≤ parameter_count) };

    ghost inverse = { λ n. record { number = n } };
}

impl Index {
    /// The parameter with a whole number. `None` if the number isn't 1 to 5399.
    pub fn of(number: i64) -> Option<Index>
        ensures { result ≡ index_of number }
    {
        if 1 <= number && number <= PARAMETER_COUNT as i64 {
            Some(Index {
                number: number as u16,
            })
        } else {
            None
        }
    }

    /// The parameter with a number that is in range.
    pub fn known(number: u16) -> Index
        requires low { 1 ≤ number }
        requires high { number ≤ parameter_count }
        ensures { result ≡ number }
    {
        Index { number }
    }

    /// Its number.
    pub fn number(self) -> u16
        ensures value { result ≡ self }
        ensures low { 1 ≤ self }
        ensures high { self ≤ parameter_count }
    {
        self.number
    }
}

impl Default for Index {
    ghost use Rattle.std.specs.Prelude.{◌≡◌};

    ghost is_default = { λ i. i ≡ 1 };

    /// Parameter 1.
    fn default() -> Self {
        Index { number: 1 }
    }
}
