//! A device on which every call fails.
ghost use Rattle.ng_rig.specs.Trace.{Began};
ghost use Rattle.std.specs.Prelude.{[]};

use ng_canon::Item;
use ng_rig::{Failed, Rig};

/// A device with one sector on which each call fails, and that guarantees nothing about its content.
#[derive(Drop)]
pub struct Worn {
    failures: u64,
}

impl Worn {
    pub fn new(failures: u64) -> Worn {
        Worn { failures }
    }
}

impl Rig for Worn {
    ghost seen = { λ worn. record { trace = Began (λ sector. []); honest = ⊥; sectors = 1; failed = worn.failures } };

    fn size(&self) -> usize {
        1
    }

    fn failures(&self) -> u64 {
        self.failures
    }

    fn read(&mut self, _sector: usize, _into: &mut [u8; 512]) -> Result<(), Failed> {
        self.sync()
    }

    fn write(&mut self, _sector: usize, _bytes: &[u8; 512]) -> Result<(), Failed> {
        self.sync()
    }

    fn sync(&mut self) -> Result<(), Failed> {
        self.failures = self.failures.wrapping_add(1);
        Err(Failed)
    }

    fn hand_out(&mut self, _item: Item) -> Result<(), Failed> {
        self.sync()
    }
}
