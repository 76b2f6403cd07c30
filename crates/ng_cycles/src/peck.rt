//! The depth of a peck.
use ng_num::Len;
use std::marker::Model;

/// The depth of one peck of G83: 1 to 9,999,999,999,999 nm (NISTIR 6556, 3.5.16.4).
#[derive(Clone, Copy)]
pub struct Peck {
    nm: u64,
}

impl Model for Peck {
    ghost use Rattle.std.specs.Prelude.{ℕ, ◌<◌, ◌≤◌};
    ghost use Rattle.ng_num.specs.Range.{greatest};

    ghost Value = { ℕ };

    ghost view = { λ p. p.nm };

    ghost invariant = { λ p. (0 < p.nm) × (p.nm ≤ greatest) };

    ghost inverse = { λ n. record { nm = n } };
}

impl Peck {
    ghost use Rattle.std.specs.Prelude.{◌≡◌, ◌<◌, ◌≤◌};
    ghost use Rattle.ng_num.specs.Range.{greatest};
    ghost use Rattle.ng_canon.specs.Pace.{above_zero};

    /// The peck of a length. `None` if the length isn't above 0.
    pub fn of(length: Len) -> Option<Peck>
        ensures { result ≡ above_zero length }
    {
        let nm = length.nm();
        if 0 < nm {
            Some(Peck { nm: nm as u64 })
        } else {
            None
        }
    }

    /// Its nanometres.
    pub fn nm(self) -> u64
        ensures value { result ≡ self }
        ensures some { 0 < self }
        ensures range { self ≤ greatest }
    {
        self.nm
    }
}
