//! A storage with a cache, as a disk has it: a device over it is honest, though a loss of power may lose any of what
//! was written since the last sync.
ghost use Rattle.std.specs.Prelude.{◌≡◌, ◌≤◌, ◌+◌, IfOk, length, replicate};
ghost use Rattle.ng_file.specs.Bytes.{with_bytes};
ghost use Rattle.ng_file.specs.Sectors.{AreHonest};

use ng_file::{FileRig, Storage};
use ng_rig::Rig;
use std::alloc::{AllocError, Global};
use std::io;
use std::io::{ErrorKind, Sink};
use std::test::Fail;

/// Bytes in memory, of which those that were written since the last sync may be lost: any of these writes, each whole
/// or not at all.
#[derive(Drop)]
struct Cached {
    /// What a read returns.
    bytes: Vec<u8>,
    /// What has been made durable.
    disk: Vec<u8>,
    /// The writes since then, with their places.
    pending: Vec<(u64, [u8; 512])>,
    /// How many syncs succeed before each fails.
    syncs_left: u32,
    ghost same_length: { length disk.items ≡ length bytes.items },
}

impl Cached {
    ghost use Rattle.std.specs.Prelude.{◌≡◌, ◌≤◌, ◌+◌, IfOk, length};

    /// Where the 512 bytes from a place on begin, if they are all there.
    fn begins(&self, place: u64) -> io::Result<usize>
        ensures { IfOk result (λ begins. (begins ≡ place) × (place + 512 ≤ length self.now.bytes.items)) }
    {
        let length = self.bytes.len() as u64;
        if length < 512 || place > length - 512 {
            return Err(io::Error::from(ErrorKind::UnexpectedEof));
        }
        Ok(place as usize)
    }
}

/// Replaces 512 bytes.
fn put(held: &mut Vec<u8>, begins: usize, bytes: &[u8; 512])
    requires { begins + 512 ≤ length held.old.items }
    ensures put { held.new.items ≡ with_bytes begins bytes.now held.old.items }
    ensures length { length held.new.items ≡ length held.old.items }
{
    held[begins..begins + 512].copy_from_slice(bytes);
}

impl Storage for Cached {
    ghost use Rattle.std.specs.Prelude.{◌≡◌, ◌⊎◌, ◌*◌, Contains, Some};
    ghost use Rattle.ng_file.specs.Bytes.{sector_of};

    ghost content = { λ s. Some s.bytes.items };

    ghost promise = { λ s. record {
      honest = Unit {0};
      may_hold = λ n c. (c ≡ sector_of n s.disk.items)
          ⊎ ((c ≡ sector_of n s.bytes.items) ⊎ Contains s.pending.items (512 * n, c));
    } };

    fn length(&mut self) -> io::Result<u64> {
        Ok(self.bytes.len() as u64)
    }

    fn read_at(&mut self, place: u64, into: &mut [u8; 512]) -> io::Result<()> {
        let begins = self.begins(place)?;
        into.copy_from_slice(&self.bytes[begins..begins + 512]);
        Ok(())
    }

    fn write_at(&mut self, place: u64, bytes: &[u8; 512]) -> io::Result<()> {
        let begins = self.begins(place)?;
        self.pending.push((place, *bytes))?;
        put(&mut self.bytes, begins, bytes);
        Ok(())
    }

    fn sync(&mut self) -> io::Result<()> {
        if self.syncs_left == 0 {
            return Err(io::Error::from(ErrorKind::Other));
        }
        self.syncs_left -= 1;
        self.disk.copy_from_slice(&self.bytes);
        self.pending.clear();
        Ok(())
    }
}

/// This many zeros.
fn zeros(alloc: Global, length: usize) -> Result<Vec<u8>, AllocError>
    ensures { IfOk result (λ zeros. zeros.items ≡ replicate length 0) }
{
    let mut zeros = Vec::new(alloc);
    zeros.resize(length, 0)?;
    Ok(zeros)
}

/// A device over such bytes, all zeros and durable, which is honest.
fn honest_device(
    alloc: Global,
    length: usize,
    syncs_left: u32,
) -> io::Result<FileRig<Cached, Sink, Global>>
    ensures { IfOk result (λ rig. AreHonest ⟦<Cached as Storage>⟧.content ⟦<Cached as Storage>⟧.promise rig.sectors) }
{
    let bytes = zeros(alloc, length)?;
    let disk = zeros(alloc, length)?;
    let cached = Cached {
        bytes,
        disk,
        pending: Vec::new(alloc),
        syncs_left,
    };
    FileRig::over(alloc, cached, io::sink())
}

/// Writes two sectors, with a sync between them, and after them. Returns whether both syncs succeed.
fn write_twice<R: Rig>(rig: &mut R) -> [bool; 2] {
    if rig.size() < 2 {
        return [false; 2];
    }
    let _ = rig.write(0, &[5; 512]);
    let first = rig.sync().is_ok();
    let _ = rig.write(1, &[7; 512]);
    [first, rig.sync().is_ok()]
}

#[test]
fn what_is_not_synced_may_be_lost(rt: HostRuntime) -> Result<(), Fail> {
    let mut rig = honest_device(rt.alloc(), 1_024, 1)?;
    let synced = write_twice(&mut rig);
    let (cached, _) = rig.into_parts();
    assert_eq!(rt; (synced, cached.pending.len()), ([true, false], 1));
    assert_eq!(rt; ends(&cached.bytes), (Some(5), Some(7)));
    assert_eq!(rt; ends(&cached.disk), (Some(5), Some(0)));
    Ok(())
}

/// The first byte and the last.
fn ends(bytes: &[u8]) -> (Option<u8>, Option<u8>) {
    (bytes.first().copied(), bytes.last().copied())
}
