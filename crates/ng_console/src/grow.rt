//! The job `grow`: a device is lengthened to a large device.
ghost use Rattle.std.specs.Prelude.{◌≡◌, ◌≤◌, ◌⊎◌, IfErr, IfOk, IfSome, IsErrOf, OnOk, Some, false, is_some, true};
ghost use Rattle.ng_num.specs.declared.fault.Fault.TheVariants.{DeviceFailed, NotFormatted};
ghost use Rattle.ng_file.specs.Bytes.{Lengthened, LengthenedInPart, sector_of};
ghost use Rattle.ng_file.specs.WeakPromise.{HoldsNothingMore, IfWeaklyPromised};
ghost use Rattle.ng_layout.specs.Header.{header_in};
ghost use Rattle.ng_layout.specs.Stands.{newer};
ghost use Rattle.ng_console.specs.Grow.{GrowsFile, GrowsInPart, GrowsOpened, is_device, large_bytes};

use crate::format::refuse_device;
use crate::program::refuse;
use ng_file::{Append, NoDevice, Storage, lengthen};
use ng_layout::{Header, LARGE_SIZE, LEAST_SIZE, SECTOR_BYTES};
use ng_num::Fault;
use ng_run::{DONE, FAILED};
use std::io;
use std::io::Write;

/// The least number of bytes of a device.
const LEAST_BYTES: u64 = (LEAST_SIZE * SECTOR_BYTES) as u64;

/// The bytes of a large device.
const LARGE_BYTES: u64 = (LARGE_SIZE * SECTOR_BYTES) as u64;

/// Lengthens the device in an opened file, and returns the exit status: 0 if that is done, also if it is long enough
/// already. If the file couldn't be opened, nothing is written. If it can't be used, isn't a device or fails, the line
/// of the fault is written. The error is the writer's.
pub(crate) fn grow_opened<S: Append + Drop, W: Write>(
    opened: Result<S, NoDevice>,
    writer: &mut W,
) -> io::Result<u8>
    ensures run { IfOk result (GrowsOpened S.content S.lasting opened (W.contents writer.old) (W.contents writer.new)) }
    ensures range { IfOk result (λ status. status ≤ 2) }
{
    match opened {
        Ok(mut file) => grow_file(&mut file, writer),
        Err(why) => refuse_device(writer, why),
    }
}

/// Lengthens the device in a file, and returns the exit status: 0 if that is done, else 2, and the line of the fault is
/// written. The error is the writer's.
pub fn grow_file<S: Append, W: Write>(file: &mut S, writer: &mut W) -> io::Result<u8>
    ensures range { IfOk result (λ status. status ≤ 2) }
    ensures run { IfOk result (GrowsFile S.content S.lasting file.old file.new (W.contents writer.old) (W.contents writer.new)) }
{
    match grow(file) {
        Ok(()) => Ok(DONE),
        Err(fault) => {
            refuse(writer, fault)?;
            Ok(FAILED)
        }
    }
}

/// Lengthens the device in a file to a large device, and makes it durable. A device that is long enough keeps its
/// length. It is made durable too, since a process that lengthened it may have ended before it had done so.
///
/// J2 if the file isn't a device; then nothing is changed. J1 if the file fails; then nothing is changed, or zeros come
/// after what the device held. It doesn't allocate.
fn grow<S: Append>(file: &mut S) -> Result<(), Fault>
    ensures device { OnOk result (IfSome (S.content file.old) (λ held. is_device held ≡ true)) }
    ensures lengthened { OnOk result (Lengthened large_bytes (S.content file.old) (S.content file.new)) }
    ensures lasts { OnOk result (IfSome (S.lasting file.new) (λ held. S.content file.new ≡ Some held)) }
    ensures refused { IsErrOf result NotFormatted → IfSome (S.content file.old) (λ held. is_device held ≡ false) }
    ensures unchanged { IsErrOf result NotFormatted → S.content file.new ≡ S.content file.old }
    ensures failed { IsErrOf result DeviceFailed → GrowsInPart S.content file.old file.new }
    ensures faults { IfErr result (λ fault. (fault ≡ NotFormatted) ⊎ (fault ≡ DeviceFailed)) }
{
    match is_device(file) {
        Ok(true) => lengthen_device(file),
        Ok(false) => Err(Fault::NotFormatted),
        Err(_) => Err(Fault::DeviceFailed),
    }
}

/// Lengthens a file to a large device. J1 if it fails.
fn lengthen_device<S: Append>(file: &mut S) -> Result<(), Fault>
    ensures lengthened { OnOk result (Lengthened large_bytes (S.content file.old) (S.content file.new)) }
    ensures lasts { OnOk result (IfSome (S.lasting file.new) (λ held. S.content file.new ≡ Some held)) }
    ensures failed { IfErr result
        (λ fault. (fault ≡ DeviceFailed) × LengthenedInPart large_bytes (S.content file.old) (S.content file.new)) }
{
    match lengthen(file, LARGE_BYTES) {
        Ok(()) => Ok(()),
        Err(_) => Err(Fault::DeviceFailed),
    }
}

/// Whether a file is a device: it has enough sectors, and one of the two headers is valid.
pub(crate) fn is_device<S: Storage>(file: &mut S) -> io::Result<bool>
    ensures value { IfOk result (λ truth. IfSome (S.content file.old) (λ held. truth ≡ is_device held)) }
    ensures stays { S.content file.new ≡ S.content file.old }
    ensures honest { (S.promise file.old).honest → (S.promise file.new).honest }
    ensures weakly { IfWeaklyPromised (S.weak_promise file.old) (S.weak_promise file.new) (HoldsNothingMore (S.weak_promise file.old) (S.weak_promise file.new)) }
{
    let length = file.length()?;
    if length < LEAST_BYTES {
        return Ok(false);
    }
    let is_large = length >= LARGE_BYTES;
    let even = read_header(file, is_large, 0)?;
    let odd = read_header(file, is_large, 1)?;
    Ok(is_either(even, odd))
}

/// The header that a sector, 0 or 1, holds, if it is valid on a large device or on a small one.
fn read_header<S: Storage>(file: &mut S, is_large: bool, sector: u64) -> io::Result<Option<Header>>
    requires { sector ≤ 1 }
    ensures value { IfOk result
        (λ header. IfSome (S.content file.old) (λ held. header ≡ header_in is_large sector
        (sector_of sector held))) }
    ensures stays { S.content file.new ≡ S.content file.old }
    ensures honest { (S.promise file.old).honest → (S.promise file.new).honest }
    ensures weakly { IfWeaklyPromised (S.weak_promise file.old) (S.weak_promise file.new) (HoldsNothingMore (S.weak_promise file.old) (S.weak_promise file.new)) }
{
    let mut bytes = [0; SECTOR_BYTES];
    file.read_at(sector * SECTOR_BYTES as u64, &mut bytes)?;
    Ok(Header::read(is_large, sector, &bytes))
}

/// Whether there is at least one header.
fn is_either(even: Option<Header>, odd: Option<Header>) -> bool
    ensures { result ≡ is_some (newer even odd) }
{
    even.is_some() || odd.is_some()
}
