//! A device that fails at a call, or from there on.
ghost use Rattle.std.specs.Prelude.{◌≡◌};

use crate::rig::{Failed, Rig};
use ng_canon::Item;

/// A device that passes a number of calls on to another device, and then fails without effect: one call, or all from
/// there on where it `LASTS`. Reads, writes, syncs and hand-outs count.
#[derive(Drop)]
pub struct FailingRig<R, const LASTS: bool> {
    rig: R,
    before: Option<u64>,
    failures: u64,
}

/// A device that fails one call, and passes all others on.
pub type FailRig<R> = FailingRig<R, false>;

/// A device that passes a number of calls on, and then fails each call, as a device without power does.
pub type FuseRig<R> = FailingRig<R, true>;

impl<R: Rig, const LASTS: bool> FailingRig<R, LASTS> {
    ghost use Rattle.std.specs.Prelude.{◌≡◌, ◌≢◌, ◌↔◌, ◌+◌, ◌<◌, IsTrue, true, false};
    ghost use Rattle.ng_rig.specs.Calls.{FailureCountSpec};
    ghost use Rattle.ng_rig.specs.Failing.{inner, failure_count, calls_before, after_one};

    /// Passes this many calls on before it fails. The count of failures continues from the device's.
    pub fn new(rig: R, calls: u64) -> Self
        ensures inner { inner result ≡ rig }
        ensures calls { calls_before result ≡ Some calls }
        ensures failures { failure_count result ≡ (R.seen rig).failed }
    {
        let failures = rig.failures();
        FailingRig {
            rig,
            before: Some(calls),
            failures,
        }
    }

    /// Whether the next call is passed on. If so, it is counted.
    fn passes(&mut self) -> bool
        ensures when { IsTrue result ↔ (calls_before self.old ≢ Some 0) }
        ensures next { calls_before self.new ≡ after_one LASTS (calls_before self.old) }
        ensures inner { inner self.new ≡ inner self.old }
        ensures failures { failure_count self.new ≡ failure_count self.old }
    {
        match self.before {
            None => true,
            Some(0) => {
                if !LASTS {
                    self.before = None;
                }
                false
            }
            Some(calls) => {
                self.before = Some(calls - 1);
                true
            }
        }
    }

    /// Counts a failure.
    fn counted(&mut self, outcome: Result<(), Failed>) -> Result<(), Failed>
        ensures same { result ≡ outcome }
        ensures inner { inner self.new ≡ inner self.old }
        ensures calls { calls_before self.new ≡ calls_before self.old }
        ensures failures { FailureCountSpec result (failure_count self.old) (failure_count self.new) }
    {
        if outcome.is_err() {
            self.failures = self.failures.wrapping_add(1);
        }
        outcome
    }
}

impl<R, const LASTS: bool> FailingRig<R, LASTS> {
    ghost use Rattle.std.specs.Prelude.{◌≡◌};
    ghost use Rattle.ng_rig.specs.Failing.{inner};

    /// Gives the device back.
    pub fn into_inner(self) -> R
        ensures { result ≡ inner self }
    {
        let FailingRig {
            rig,
            before: _,
            failures: _,
        } = self;
        rig
    }
}

impl<R: Rig, const LASTS: bool> Rig for FailingRig<R, LASTS> {
    ghost use Rattle.std.specs.Prelude.{◌≡◌, ◌<◌, OnOk};
    ghost use Rattle.ng_rig.specs.Trace.{reads};
    ghost use Rattle.ng_rig.specs.Calls.{IfHonest, WriteSpec, SyncSpec, HandOutSpec, IsCall};
    ghost use Rattle.ng_rig.specs.Failing.{inner, calls_before, device_of, FailsAsSet};

    ghost seen = { device_of R.seen };

    fn size(&self) -> usize {
        self.rig.size()
    }

    fn failures(&self) -> u64 {
        self.failures
    }

    fn read(&mut self, sector: usize, into: &mut [u8; 512]) -> Result<(), Failed>
        requires { sector < (R.seen (inner self.old)).sectors }
        ensures bytes { (R.seen (inner self.old)).honest → OnOk result (into.new ≡ reads (R.seen (inner self.old)).trace sector) }
        ensures untouched { calls_before self.old ≡ Some 0 → into.new ≡ into.old }
        ensures trace { IfHonest (device_of R.seen self.old) (device_of R.seen self.new)
            ((R.seen (inner self.new)).trace ≡ (R.seen (inner self.old)).trace) }
        ensures call { IsCall result (device_of R.seen self.old) (device_of R.seen self.new) }
        ensures fails { FailsAsSet LASTS result R.seen self.old self.new }
    {
        let read = if self.passes() {
            self.rig.read(sector, into)
        } else {
            Err(Failed)
        };
        self.counted(read)
    }

    fn write(&mut self, sector: usize, bytes: &[u8; 512]) -> Result<(), Failed>
        requires { sector < (R.seen (inner self.old)).sectors }
        ensures trace { IfHonest (device_of R.seen self.old) (device_of R.seen self.new)
            (WriteSpec result sector bytes.now (R.seen (inner self.old)).trace (R.seen (inner self.new)).trace) }
        ensures call { IsCall result (device_of R.seen self.old) (device_of R.seen self.new) }
        ensures fails { FailsAsSet LASTS result R.seen self.old self.new }
    {
        let written = if self.passes() {
            self.rig.write(sector, bytes)
        } else {
            Err(Failed)
        };
        self.counted(written)
    }

    fn sync(&mut self) -> Result<(), Failed>
        ensures trace { IfHonest (device_of R.seen self.old) (device_of R.seen self.new)
            (SyncSpec result (R.seen (inner self.old)).trace (R.seen (inner self.new)).trace) }
        ensures call { IsCall result (device_of R.seen self.old) (device_of R.seen self.new) }
        ensures fails { FailsAsSet LASTS result R.seen self.old self.new }
    {
        let synced = if self.passes() {
            self.rig.sync()
        } else {
            Err(Failed)
        };
        self.counted(synced)
    }

    fn hand_out(&mut self, item: Item) -> Result<(), Failed>
        ensures trace { IfHonest (device_of R.seen self.old) (device_of R.seen self.new)
            (HandOutSpec result item (R.seen (inner self.old)).trace (R.seen (inner self.new)).trace) }
        ensures call { IsCall result (device_of R.seen self.old) (device_of R.seen self.new) }
        ensures fails { FailsAsSet LASTS result R.seen self.old self.new }
    {
        let handed = if self.passes() {
            self.rig.hand_out(item)
        } else {
            Err(Failed)
        };
        self.counted(handed)
    }
}
