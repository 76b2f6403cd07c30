//! What a device is to a journal: the trait `Rig`.
ghost use Rattle.std.specs.Prelude.{◌≡◌, ◌<◌, OnOk};
ghost use Rattle.ng_rig.specs.Trace.{reads};
ghost use Rattle.ng_rig.specs.Rig.{Device};
ghost use Rattle.ng_rig.specs.Extent.{HasExtent};
ghost use Rattle.ng_rig.specs.Calls.{IfHonest, WriteSpec, SyncSpec, HandOutSpec, IsCall};

use ng_canon::Item;

/// A call of a device failed.
#[derive(Clone, Copy, Debug, PartialEq, Eq, Drop)]
pub struct Failed;

/// A device of 512-byte sectors, each written whole, that also hands out items, on one clock (own).
///
/// What a read returns, and what a loss of power may leave, is guaranteed only if the device is honest. The count of
/// failures and the size are kept in any case.
pub trait Rig {
    /// The device as contracts see it.
    ghost seen: { Self → Device };

    /// The number of sectors, which no call changes.
    fn size(&self) -> usize
        ensures value { result ≡ (seen self.now).sectors }
        ensures extent { (seen self.now).honest → HasExtent (seen self.now).sectors (reads (seen self.now).trace) };

    /// How often a call has failed; 0 follows 2 ^ 64 - 1.
    fn failures(&self) -> u64
        ensures { result ≡ (seen self.now).failed };

    /// Reads a sector. If it fails, `into` may hold any bytes.
    fn read(&mut self, sector: usize, into: &mut [u8; 512]) -> Result<(), Failed>
        requires { sector < (seen self.old).sectors }
        ensures bytes { (seen self.old).honest → OnOk result (into.new ≡ reads (seen self.old).trace sector) }
        ensures trace { IfHonest (seen self.old) (seen self.new) ((seen self.new).trace ≡ (seen self.old).trace) }
        ensures call { IsCall result (seen self.old) (seen self.new) };

    /// Writes a sector. If it fails, reads return either the old content or the new one, always the same one, and a
    /// stop may leave either.
    fn write(&mut self, sector: usize, bytes: &[u8; 512]) -> Result<(), Failed>
        requires { sector < (seen self.old).sectors }
        ensures trace { IfHonest (seen self.old) (seen self.new)
            (WriteSpec result sector bytes.now (seen self.old).trace (seen self.new).trace) }
        ensures call { IsCall result (seen self.old) (seen self.new) };

    /// Makes what was written durable: from then on a stop leaves what a read returns. If it fails, nothing is
    /// guaranteed.
    fn sync(&mut self) -> Result<(), Failed>
        ensures trace { IfHonest (seen self.old) (seen self.new) (SyncSpec result (seen self.old).trace (seen self.new).trace) }
        ensures call { IsCall result (seen self.old) (seen self.new) };

    /// Hands an item out. If it fails, either the item or nothing was handed out.
    fn hand_out(&mut self, item: Item) -> Result<(), Failed>
        ensures trace { IfHonest (seen self.old) (seen self.new)
            (HandOutSpec result item (seen self.old).trace (seen self.new).trace) }
        ensures call { IsCall result (seen self.old) (seen self.new) };
}
