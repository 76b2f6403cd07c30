//! Whole numbers as TOML holds them.
ghost use Rattle.std.specs.Prelude.{◌≡◌};
ghost use Rattle.ng_settings.specs.Causes.{is_beyond};

use std::marker::Model;

/// A whole number as TOML holds it, in 64 bits.
#[derive(Clone, Copy)]
pub(crate) struct Whole {
    number: i64,
}

impl Model for Whole {
    ghost use Rattle.std.specs.Prelude.{ℤ};

    ghost Value = { ℤ };

    ghost view = { λ w. w.number };

    ghost inverse = { λ z. record { number = z } };
}

impl Whole {
    pub(crate) fn of(number: i64) -> Whole
        ensures { result ≡ number }
    {
        Whole { number }
    }

    pub(crate) fn number(self) -> i64
        ensures { result ≡ self }
    {
        self.number
    }

    /// Whether the number is below the least or above the greatest of its limits.
    pub(crate) fn is_beyond(self, least: i64, greatest: i64) -> bool
        ensures { result ≡ is_beyond least greatest self }
    {
        self.number < least || greatest < self.number
    }
}
