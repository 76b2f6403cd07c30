//! A copy in memory of the device in a file.
ghost use Rattle.std.specs.Prelude.{◌≡◌, ◌≢◌, ◌+◌, ◌++◌, ◌*◌, ◌≤◌, ◌<◌, ◌^◌, ℕ, false, [], ◌∷◌, Some, IfOk, OnOk, IfSome};
ghost use Rattle.ng_rig.specs.Memory.{sector_count, trace_of};
ghost use Rattle.ng_rig.specs.Trace.{reads};
ghost use Rattle.ng_file.specs.Bytes.{sector_of};
ghost use Rattle.ng_file.specs.Copying.{IsCopy, IsReadTwice, reading, sectors_in};

use crate::storage::{SECTOR, Storage};
use ng_rig::{Failed, MemoryRig, Rig};
use std::alloc::Allocator;
use std::io;
use std::io::ErrorKind;

/// How often a device is read at most, until two readings in a row are the same.
const READINGS: u32 = 100;

/// A copy in memory of the first sectors of the device in a file, at most this many, or of all if it has fewer (own).
/// The file is only read.
///
/// A session may write to the device meanwhile. So it is read until two readings in a row are the same: they are what
/// it held at one moment, since a session never writes what was there before. `ResourceBusy` if no two are the same,
/// `OutOfMemory` if there is no memory for the copy, else the error of the file.
pub fn copied<S: Storage, A: Allocator + Copy + Drop>(
    alloc: A,
    file: &mut S,
    most: usize,
) -> io::Result<MemoryRig<A>>
    requires { 512 * most < 2 ^ 64 }
    ensures copy { IfOk result (λ copy. IfSome (S.content file.old) (λ held. IsCopy most held copy)) }
    ensures twice { IfOk result (λ copy. IfSome (S.gave file.old) (λ before. IsReadTwice copy before (S.gave file.new))) }
    ensures stays { S.content file.new ≡ S.content file.old }
{
    let sectors = sectors_of(file, most)?;
    let mut copy = MemoryRig::new(alloc, sectors)?;
    copy_changes(file, &mut copy)?;
    for _ in 1..READINGS {
        if !copy_changes(file, &mut copy)? {
            return Ok(copy);
        }
    }
    Err(io::Error::from(ErrorKind::ResourceBusy))
}

/// How many sectors a file has, at most this many.
fn sectors_of<S: Storage>(file: &mut S, most: usize) -> io::Result<usize>
    ensures value { IfOk result (λ sectors. IfSome (S.content file.old) (λ held. sectors ≡ sectors_in most held)) }
    ensures most { IfOk result (λ sectors. sectors ≤ most) }
    ensures stays { S.content file.new ≡ S.content file.old }
    ensures gives { S.gave file.new ≡ S.gave file.old }
{
    let sectors = file.length()? / SECTOR as u64;
    Ok(sectors.min(most as u64) as usize)
}

/// Reads the sectors of a file, and writes each to the copy if it differs there. Whether any did.
fn copy_changes<S: Storage, A: Allocator + Copy + Drop>(
    file: &mut S,
    copy: &mut MemoryRig<A>,
) -> io::Result<bool>
    requires { 512 * sector_count copy.old < 2 ^ 64 }
    ensures same { OnOk result (IfSome (S.content file.old) (λ held. (n : ℕ) → n < sector_count copy.old
        → reads (trace_of copy.new) n ≡ sector_of n held)) }
    ensures gives { OnOk result (IfSome (S.gave file.old) (λ before. S.gave file.new
        ≡ Some (before ++ reading (sector_count copy.new) (reads (trace_of copy.new))))) }
    ensures equal { IfOk result (λ differs. differs ≡ false → (n : ℕ) → n < sector_count copy.old
        → reads (trace_of copy.new) n ≡ reads (trace_of copy.old) n) }
    ensures past { (n : ℕ) → sector_count copy.old ≤ n → reads (trace_of copy.new) n ≡ reads (trace_of copy.old) n }
    ensures size { sector_count copy.new ≡ sector_count copy.old }
    ensures stays { S.content file.new ≡ S.content file.old }
{
    let mut differs = false;
    for sector in 0..copy.size() {
        if copy_sector(file, copy, sector)? {
            differs = true;
        }
    }
    Ok(differs)
}

/// Reads a sector of a file, and writes it to the copy if it differs there. Whether it did.
fn copy_sector<S: Storage, A: Allocator + Copy + Drop>(
    file: &mut S,
    copy: &mut MemoryRig<A>,
    sector: usize,
) -> io::Result<bool>
    requires within { sector < sector_count copy.old }
    requires fits { 512 * sector < 2 ^ 64 }
    ensures same { OnOk result (IfSome (S.content file.old) (λ held.
        reads (trace_of copy.new) sector ≡ sector_of sector held)) }
    ensures gives { OnOk result (IfSome (S.gave file.old) (λ before. S.gave file.new
        ≡ Some (before ++ (512 * sector, reads (trace_of copy.new) sector) ∷ []))) }
    ensures equal { IfOk result (λ differs. differs ≡ false
        → reads (trace_of copy.new) sector ≡ reads (trace_of copy.old) sector) }
    ensures others { (n : ℕ) → n ≢ sector → reads (trace_of copy.new) n ≡ reads (trace_of copy.old) n }
    ensures size { sector_count copy.new ≡ sector_count copy.old }
    ensures stays { S.content file.new ≡ S.content file.old }
{
    let mut bytes = [0; SECTOR];
    file.read_at(SECTOR as u64 * sector as u64, &mut bytes)?;
    put_if_new(copy, sector, &bytes)
}

/// Writes a sector of a copy if it holds something else. Whether it did.
fn put_if_new<A: Allocator + Copy + Drop>(
    copy: &mut MemoryRig<A>,
    sector: usize,
    bytes: &[u8; SECTOR],
) -> io::Result<bool>
    requires { sector < sector_count copy.old }
    ensures same { OnOk result (reads (trace_of copy.new) sector ≡ bytes.now) }
    ensures equal { IfOk result (λ differs. differs ≡ false
        → reads (trace_of copy.new) sector ≡ reads (trace_of copy.old) sector) }
    ensures others { (n : ℕ) → n ≢ sector → reads (trace_of copy.new) n ≡ reads (trace_of copy.old) n }
    ensures size { sector_count copy.new ≡ sector_count copy.old }
{
    let mut before = [0; SECTOR];
    // This never fails.
    let _ = copy.read(sector, &mut before);
    if before == *bytes {
        return Ok(false);
    }
    match copy.write(sector, bytes) {
        Ok(()) => Ok(true),
        Err(Failed) => Err(io::Error::from(ErrorKind::OutOfMemory)),
    }
}
