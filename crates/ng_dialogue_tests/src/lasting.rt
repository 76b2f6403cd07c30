//! A storage that does what it promises: a device over it is honest.
ghost use Rattle.std.specs.Prelude.{◌≡◌, ◌≤◌, ◌+◌, IfOk, length};
ghost use Rattle.ng_file.specs.Bytes.{with_bytes};
ghost use Rattle.ng_file.specs.Sectors.{AreHonest};

use ng_file::{FileRig, Storage};
use ng_rig::Rig;
use std::alloc::Global;
use std::io;
use std::io::{ErrorKind, Sink};
use std::test::Fail;

/// Bytes in memory, each of which lasts as soon as it is written.
#[derive(Drop)]
struct Lasting {
    bytes: Vec<u8>,
}

impl Lasting {
    ghost use Rattle.std.specs.Prelude.{◌≡◌, ◌≤◌, ◌+◌, IfOk, length};

    /// Where the 512 bytes from a place on begin, if they are all there.
    fn begins(&self, place: u64) -> io::Result<usize>
        ensures { IfOk result (λ begins. (begins ≡ place) × (place + 512 ≤ length self.now.bytes.items)) }
    {
        let length = self.bytes.len() as u64;
        if length < 512 || place > length - 512 {
            return Err(io::Error::from(ErrorKind::UnexpectedEof));
        }
        Ok(place as usize)
    }
}

/// Replaces 512 bytes.
fn put(held: &mut Vec<u8>, begins: usize, bytes: &[u8; 512])
    requires { begins + 512 ≤ length held.old.items }
    ensures { held.new.items ≡ with_bytes begins bytes.now held.old.items }
{
    held[begins..begins + 512].copy_from_slice(bytes);
}

impl Storage for Lasting {
    ghost use Rattle.std.specs.Prelude.{◌≡◌, Some};
    ghost use Rattle.ng_file.specs.Bytes.{sector_of};

    ghost content = { λ s. Some s.bytes.items };

    ghost lasting = { λ s. Some s.bytes.items };

    ghost promise = { λ s. record { honest = Unit {0}; may_hold = λ n c. c ≡ sector_of n s.bytes.items } };

    fn length(&mut self) -> io::Result<u64> {
        Ok(self.bytes.len() as u64)
    }

    fn read_at(&mut self, place: u64, into: &mut [u8; 512]) -> io::Result<()> {
        let begins = self.begins(place)?;
        into.copy_from_slice(&self.bytes[begins..begins + 512]);
        Ok(())
    }

    fn write_at(&mut self, place: u64, bytes: &[u8; 512]) -> io::Result<()> {
        let begins = self.begins(place)?;
        put(&mut self.bytes, begins, bytes);
        Ok(())
    }

    fn sync(&mut self) -> io::Result<()> {
        Ok(())
    }
}

/// A device over such bytes, all zeros, which is honest.
fn honest_device(alloc: Global, length: usize) -> io::Result<FileRig<Lasting, Sink, Global>>
    ensures { IfOk result (λ rig. AreHonest ⟦<Lasting as Storage>⟧.content ⟦<Lasting as Storage>⟧.promise rig.sectors) }
{
    let mut bytes = Vec::new(alloc);
    bytes.resize(length, 0)?;
    FileRig::over(alloc, Lasting { bytes }, io::sink())
}

#[test]
fn a_device_over_bytes_that_last_reads_what_was_written(rt: HostRuntime) -> Result<(), Fail> {
    let mut rig = honest_device(rt.alloc(), 1_600)?;
    let mut read = [0; 512];
    assert!(rt; rig.size() == 3);
    assert!(rt; 1 < rig.size() && rig.write(1, &[7; 512]).is_ok() && rig.sync().is_ok());
    assert!(rt; 1 < rig.size() && rig.read(1, &mut read).is_ok() && read == [7; 512]);
    Ok(())
}
